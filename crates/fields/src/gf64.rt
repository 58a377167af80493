// A field of 64 elements by shifting and reducing.
ghost use Rattle.std.proofs.Common.{lit≤};
ghost use Rattle.fields.specs.Fields.{gf64_tests};

use crate::shifts::{Modulus, Shifts};
use std::marker::PhantomData;

// x^6 + x + 1.
pub struct Gf64Modulus;

impl Modulus for Gf64Modulus {
    const DEGREE: u8 = 6;

    const POLYNOMIAL: u16 = 67;

    ghost DEGREE = { 6 };

    ghost POLYNOMIAL = { 67 };

    ghost small = { lit≤ tt };

    ghost tests = { gf64_tests };
}

// The field of 64 elements.
pub type Gf64 = Shifts<Gf64Modulus>;

// Its value, by the name of the type, as that of a struct without fields has it.
pub const Gf64: Gf64 = Shifts {
    modulus: PhantomData,
};
