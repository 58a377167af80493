// A coder of lines over the disc field, by whatever means that field computes.
ghost use Rattle.std.specs.Prelude.{◌≡◌};
ghost use Rattle.fields.specs.Binary.{disc};
ghost use Rattle.reed_solomon.specs.Lines.{code_of, Fits};
ghost use Rattle.coding.specs.Coding.{Coding};

use crate::division::{divide, generator};
use fields::{DiscField, Field};
use reed_solomon::{CodeNumbers, Refusal};
use std::marker::PhantomData;

// Codes lines over the disc field.
#[derive(Drop)]
pub struct Coder<F: DiscField> {
    pub numbers: CodeNumbers,
    field: PhantomData<F>,
    ghost disc: { numbers.order ≡ 256 },
}

impl<F: DiscField> Coder<F> {
    // Refused exactly when the numbers are for a field with another number of elements.
    pub fn new(numbers: CodeNumbers) -> Result<Coder<F>, Refusal>
        ensures { Fits disc numbers (λ x. x.numbers) result }
    {
        Ok(Coder {
            numbers: numbers.fit::<F>()?,
            field: PhantomData,
        })
    }

    // The first K symbols stay, and the others become the only ones that make a codeword. Another length is refused.
    pub fn code(&self, line: &mut [u8]) -> Result<(), codes::Refusal>
        ensures { Coding (code_of disc self.now.numbers) self.now.numbers.dimension line.old line.new result }
    {
        if line.len() != self.numbers.length as usize {
            return Err(codes::Refusal::LineLength);
        }
        let checks = self.numbers.checks() as usize;
        let mut divisor = [0u8; 33];
        generator::<F>(&mut divisor, checks, self.numbers.root);
        let mut register = [0u8; 32];
        let r = &mut register[..checks];
        let k = self.numbers.dimension as usize;
        divide::<F>(r, &divisor[..checks + 1], &line[..k]);
        r.reverse();
        line[k..].copy_from_slice(r);
        Ok(())
    }
}
