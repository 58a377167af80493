// From syndromes to the codeword in reach: solve, find the places, work out the values, write them under guard.
ghost use Rattle.std.specs.Prelude.{◌≡◌, ◌-◌, ◌≤◌, length};
ghost use Rattle.codes.specs.Answers.{Decodes};
ghost use Rattle.reed_solomon.specs.Lines.{code_of, Syndromes as AreSyndromes};
ghost use Rattle.solving.specs.Sequences.{terms};
ghost use Rattle.correcting.specs.Corrections.{Inside, places_of, Offers, Applies};
ghost use Rattle.correcting.specs.Correcting.{Corrects};

use crate::correction::Correction;
use crate::received::{Received, WrongPlaces};
use arrayvec::ArrayVec;
use codes::{Decoded, Refusal};
use fields::Field;
use guard::Guard;
use reed_solomon::{Line, locators};
use solving::{Solver, Syndromes};

impl<F: Field> Received<'_, F> {
    // What to write at which places, if any codeword is in reach: none where it is plain that there is not.
    fn corrections<S: Solver<F>>(&self) -> Option<ArrayVec<Correction, 32>>
        ensures { Offers (code_of F.Field.meaning self.now.code.now.numbers) self.now.line.now result }
    {
        let polynomial = S::solve(self.syndromes)?;
        let places = self.places(&polynomial)?;
        let wrong = WrongPlaces {
            received: self,
            places: &places,
        };
        Some(wrong.corrections())
    }
}

// Writes the corrected bytes under guard: they stay if the closing check passes, and else the old bytes are back.
fn apply<F: Field>(code: &Line<F>, line: &mut [u8], corrections: &[Correction]) -> Decoded
    requires few { length corrections.now ≤ 32 }
    requires inside { Inside line.old (places_of corrections.now) }
    ensures { Applies (code_of F.Field.meaning code.now.numbers) line.old line.new corrections.now result }
{
    let mut guard = Guard::over(line);
    for correction in corrections {
        let _ = guard.set(correction.place, correction.value);
    }
    if guard.close(code) {
        Some(corrections.len() as u8)
    } else {
        None
    }
}

// A line of the code's length, with its syndromes: with a byte that is no element it is stuck, with zero syndromes a codeword.
fn decide<F: Field, S: Solver<F>>(code: &Line<F>, line: &mut [u8], syndromes: &Syndromes) -> Decoded
    requires long { length line.old ≡ code.now.numbers.length }
    requires count { length (terms syndromes.now) ≡ code.now.numbers.length - code.now.numbers.dimension }
    requires sums { AreSyndromes F.Field.meaning line.old code.now.numbers.root (terms syndromes.now) }
    ensures { Decodes (code_of F.Field.meaning code.now.numbers) line.old line.new result }
{
    if !code.is_readable(line) {
        return None;
    }
    if syndromes.terms().iter().all(|x| *x == 0) {
        return Some(0);
    }
    let mut table = [0; 255];
    let table = &mut table[..line.len()];
    locators::<F>(table);
    let received = Received {
        code,
        line,
        table,
        syndromes,
    };
    let corrections = received.corrections::<S>()?;
    apply(code, line, &corrections)
}

// The line becomes the codeword in reach; where there is none it is stuck, and has its old bytes. Another length is refused.
pub fn correct<F: Field, S: Solver<F>>(code: &Line<F>, line: &mut [u8]) -> Result<Decoded, Refusal>
    ensures { Corrects (code_of F.Field.meaning code.now.numbers) line.old line.new result }
{
    let checks = code.numbers().checks() as usize;
    let mut sums = [0; 32];
    let sums = &mut sums[..checks];
    code.syndromes(line, sums)?;
    Ok(decide::<F, S>(code, line, &Syndromes::new(sums)))
}
