// A Reed–Solomon line over a field: its syndromes, and checking.
ghost use Rattle.std.specs.Prelude.{◌≡◌, ◌↔◌, IsTrue, true};
ghost use Rattle.algebra.specs.Lines.{Elements};
ghost use Rattle.codes.specs.Meaning.{Word};
ghost use Rattle.codes.specs.Answers.{Checks};
ghost use Rattle.reed_solomon.specs.Lines.{code_of, Fits};
ghost use Rattle.reed_solomon.specs.Received.{Receives};

use crate::limits::Refusal;
use crate::numbers::CodeNumbers;
use crate::syndromes::{locators, syndromes};
use fields::Field;
use std::marker::PhantomData;

// A Reed–Solomon line over the field F.
#[derive(Drop)]
pub struct Line<F: Field> {
    pub(crate) numbers: CodeNumbers,
    field: PhantomData<F>,
    ghost fits: { numbers.order ≡ F.Field.meaning.q },
}

impl<F: Field> Line<F> {
    // Refused exactly when the numbers are for a field with another number of elements.
    pub fn new(numbers: CodeNumbers) -> Result<Line<F>, Refusal>
        ensures { Fits F.Field.meaning numbers (λ x. x.numbers) result }
    {
        Ok(Line {
            numbers: numbers.fit::<F>()?,
            field: PhantomData,
        })
    }

    // The code numbers that the line was made from.
    pub fn numbers(&self) -> CodeNumbers
        ensures { result ≡ self.now.numbers }
    {
        self.numbers
    }

    // Is every byte an element of the field? One that is none counts as 0 in it, so that the syndromes alone would not tell.
    pub fn is_readable(&self, line: &[u8]) -> bool
        ensures { IsTrue result ↔ Elements F.Field.meaning line.now }
    {
        line.iter()
            .all(|byte| u16::from(*byte) < self.numbers.order)
    }

    // As many syndromes of a line as `sums` has room for, from S_b on. Another length is refused, and nothing written.
    pub fn syndromes(&self, line: &[u8], sums: &mut [u8]) -> Result<(), codes::Refusal>
        ensures { Receives F.Field.meaning self.now.numbers line.now sums.old sums.new result }
    {
        if line.len() != self.numbers.length as usize {
            return Err(codes::Refusal::LineLength);
        }
        let mut room = [0u8; 255];
        let table = &mut room[..line.len()];
        locators::<F>(table);
        syndromes::<F>(line, table, self.numbers.root, sums);
        Ok(())
    }

    // Is the line a codeword? Another length is refused.
    pub fn check(&self, line: &[u8]) -> Result<bool, codes::Refusal>
        ensures { Checks (code_of F.Field.meaning self.now.numbers) line.now result }
    {
        // Before the syndromes, of which a line with a byte that is no element needs none.
        if line.len() == self.numbers.length as usize && !self.is_readable(line) {
            return Ok(false);
        }
        let mut room = [0u8; 32];
        let sums = &mut room[..self.numbers.checks() as usize];
        self.syndromes(line, sums)?;
        Ok(sums.iter().all(|sum| *sum == 0))
    }

    // Is the line a codeword? One of another length is none.
    pub fn is_codeword(&self, line: &[u8]) -> bool
        ensures sound { result ≡ true → Word (code_of F.Field.meaning self.now.numbers) line.now }
        ensures complete { Word (code_of F.Field.meaning self.now.numbers) line.now → result ≡ true }
    {
        self.check(line).unwrap_or(false)
    }
}
