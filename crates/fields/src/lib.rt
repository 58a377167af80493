// Finite fields of at most 256 elements, each element a byte: the interface, and three fields that meet it.

#![tactic(auto)]

ghost use Rattle.std.specs.Prelude.{◌≡◌, ℕ, ◌<◌, ◌≤◌};
ghost use Rattle.fields.specs.Laws.{Meaning, FieldLaws};
ghost use Rattle.fields.specs.Binary.{disc, Reduced};

mod disc_shifts;
mod gf64;
mod shifts;
mod tables;

pub use crate::disc_shifts::{DiscModulus, DiscShifts};
pub use crate::gf64::{Gf64, Gf64Modulus};
pub use crate::shifts::{Modulus, Shifts};
pub use crate::tables::DiscTables;

// A field whose elements are the numbers from 0 to q - 1 and in which a + a = 0.
// A call with a number that is no element answers 0, and so does the inverse of 0.
pub trait Field {
    // q, the number of elements.
    const ELEMENTS: u16;

    // The element whose first q - 1 powers are all the nonzero elements.
    const GENERATOR: u8;

    ghost ELEMENTS: { ℕ };

    ghost GENERATOR: { ℕ };

    // What the calls compute.
    ghost meaning: { Meaning };

    fn sum(a: u8, b: u8) -> u8
        ensures value { a < meaning.q → b < meaning.q → result ≡ meaning.add a b }
        ensures left_out { meaning.q ≤ a → result ≡ 0 }
        ensures right_out { meaning.q ≤ b → result ≡ 0 };

    fn product(a: u8, b: u8) -> u8
        ensures value { result ≡ meaning.mul a b }
        ensures left_out { meaning.q ≤ a → result ≡ 0 }
        ensures right_out { meaning.q ≤ b → result ≡ 0 };

    fn inverse(a: u8) -> u8
        ensures value { result ≡ meaning.inv a }
        ensures none { a ≡ 0 → result ≡ 0 }
        ensures out { meaning.q ≤ a → result ≡ 0 };

    ghost elements: { ELEMENTS ≡ meaning.q };

    ghost generator: { GENERATOR ≡ meaning.g };

    ghost laws: { FieldLaws meaning };
}

// The field of the disc, by whatever means it computes.
pub trait DiscField: Field {
    ghost is_disc: { Self.meaning ≡ disc };
}

// The disc's product is that of bit polynomials reduced by x^8 + x^4 + x^3 + x^2 + 1.
pub fn disc_product_is_reduced()
    ensures { Reduced 8 285 }
{}

// The product of the field of 64 elements is that of bit polynomials reduced by x^6 + x + 1.
pub fn gf64_product_is_reduced()
    ensures { Reduced 6 67 }
{}
