// Making code numbers from numbers of 64 bits.
ghost use Rattle.std.specs.Prelude.{◌≡◌, ◌-◌, Some, codes};
ghost use Rattle.reed_solomon.specs.Numbers.{number, Made, Within};
ghost use Rattle.reed_solomon.specs.Lines.{Fits};

use crate::numbers::CodeNumbers;
use fields::Field;
use std::error::Error;
use std::fmt;

// What the making of a code refuses, by its number.
#[derive(Clone, Copy, PartialEq, Eq, Debug)]
pub enum Refusal {
    // The code numbers are not within their limits, or not for the field.
    CodeNumbers = 6,
}

// Each crate converts its own enum: one `impl` for all of them would be of a foreign trait for a foreign type.
impl From<Refusal> for u8 {
    ghost from_gives = { λ why n. n ≡ number why };

    fn from(why: Refusal) -> u8 {
        why as u8
    }
}

// By hand, so that its text is stated.
impl fmt::Display for Refusal {
    ghost output = { λ _. Some (codes "no code over the field has these numbers") };

    fn fmt<W: fmt::Write>(&self, f: &mut fmt::Formatter<W>) -> fmt::Result {
        f.write_str("no code over the field has these numbers")
    }
}

impl Error for Refusal {}

impl CodeNumbers {
    // Refuses exactly when a limit fails.
    pub fn new(length: u64, dimension: u64, root: u64, order: u64) -> Result<CodeNumbers, Refusal>
        ensures { Made length dimension root order result }
    {
        if dimension < 1 || dimension >= length || length > 255 || length >= order {
            return Err(Refusal::CodeNumbers);
        }
        if length - dimension > 32 || root > 254 || order > 256 {
            return Err(Refusal::CodeNumbers);
        }
        Ok(CodeNumbers {
            length: length as u8,
            dimension: dimension as u8,
            root: root as u8,
            order: order as u16,
        })
    }

    // The numbers, where they are for the field F; refused exactly when its number of elements is another.
    pub fn fit<F: Field>(self) -> Result<CodeNumbers, Refusal>
        ensures { Fits F.Field.meaning self (λ c. c) result }
    {
        if self.order != F::ELEMENTS {
            return Err(Refusal::CodeNumbers);
        }
        Ok(self)
    }

    // N - K, the check symbols of a line.
    pub fn checks(&self) -> u8
        ensures { result ≡ self.now.length - self.now.dimension }
    {
        self.length - self.dimension
    }

    // Code numbers always keep their limits.
    pub fn keep_limits(&self)
        ensures { Within self.now.length self.now.dimension self.now.root self.now.order }
    {}
}
