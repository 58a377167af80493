// The Reed–Solomon line code, over any field and with any solver.
ghost use Rattle.std.specs.Prelude.{◌≡◌, Some};
ghost use Rattle.reed_solomon.specs.Lines.{code_of};
ghost use Rattle.decoder.specs.Making.{Makes, number_of, sentence};
ghost use Rattle.decoder.specs.Lawful.{line_is_lawful};

use codes::{Decoded, LineCode, Refusal};
use correcting::correct;
use fields::Field;
use reed_solomon::{CodeNumbers, Line};
use solving::Solver;
use std::alloc::Global;
use std::error::Error;
use std::fmt;
use std::marker::PhantomData;

// A line code over the field F, whose wrong places the solver S finds, with its count of decodings.
#[derive(Drop)]
pub struct ReedSolomon<F: Field, S: Solver<F>> {
    code: Line<F>,
    count: u64,
    solver: PhantomData<S>,
}

// Why a line was not made. The code numbers are handed back. An enum of its own: both cases are errors.
#[derive(Clone, Copy, PartialEq, Eq, Debug)]
pub enum Unmade {
    // The numbers are for a field with another number of elements.
    CodeNumbers(CodeNumbers),
    // There is no memory for the line's tables.
    Memory(CodeNumbers),
}

// The refusal's number; want of memory has none.
impl From<&Unmade> for Option<u8> {
    ghost from_gives = { λ why n. n ≡ number_of why.now };

    fn from(why: &Unmade) -> Option<u8> {
        match why {
            Unmade::CodeNumbers(_) => Some(u8::from(reed_solomon::Refusal::CodeNumbers)),
            Unmade::Memory(_) => None,
        }
    }
}

// By hand, so that its text is stated.
impl fmt::Display for Unmade {
    ghost output = { λ why. Some (sentence why) };

    fn fmt<W: fmt::Write>(&self, f: &mut fmt::Formatter<W>) -> fmt::Result {
        f.write_str(match self {
            Unmade::CodeNumbers(_) => "the code numbers are for another field",
            Unmade::Memory(_) => "there is no memory for the line's tables",
        })
    }
}

impl Error for Unmade {}

impl<F: Field, S: Solver<F>> ReedSolomon<F, S> {
    // A line that has not decoded yet. The tables that it may come to hold will be allocated here: today it has none.
    pub fn new(_heap: Global, numbers: CodeNumbers) -> Result<ReedSolomon<F, S>, Unmade>
        ensures { Makes F.Field.meaning numbers (λ x. x.code.numbers) (λ x. x.count) result }
    {
        let code = Line::<F>::new(numbers).map_err(|_| Unmade::CodeNumbers(numbers))?;
        Ok(ReedSolomon {
            code,
            count: 0,
            solver: PhantomData,
        })
    }
}

impl<F: Field, S: Solver<F>> LineCode for ReedSolomon<F, S> {
    ghost meaning = { λ x. code_of F.Field.meaning x.code.numbers };

    ghost count = { λ x. x.count };

    ghost lawful = { λ x. line_is_lawful F.Field.meaning F.Field.laws x.code.numbers };

    fn length(&self) -> u8 {
        self.code.numbers().length
    }

    fn reach(&self) -> u8 {
        self.code.numbers().checks() / 2
    }

    fn decodings(&self) -> u64 {
        self.count
    }

    fn check(&self, line: &[u8]) -> Result<bool, Refusal> {
        self.code.check(line)
    }

    fn decode(&mut self, line: &mut [u8]) -> Result<Decoded, Refusal> {
        let answer = correct::<F, S>(&self.code, line)?;
        self.count = self.count.wrapping_add(1);
        Ok(answer)
    }
}
