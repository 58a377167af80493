// The disc field by shifting and reducing.
ghost use Rattle.std.proofs.Common.{lit≤, rules};
ghost use Rattle.fields.specs.Fields.{disc_tests};

use crate::DiscField;
use crate::shifts::{Modulus, Shifts};
use std::marker::PhantomData;

// x^8 + x^4 + x^3 + x^2 + 1.
pub struct DiscModulus;

impl Modulus for DiscModulus {
    const DEGREE: u8 = 8;

    const POLYNOMIAL: u16 = 285;

    ghost DEGREE = { 8 };

    ghost POLYNOMIAL = { 285 };

    ghost small = { lit≤ tt };

    ghost tests = { disc_tests };
}

// The disc field, computed without tables.
pub type DiscShifts = Shifts<DiscModulus>;

// Its value, by the name of the type, as that of a struct without fields has it.
pub const DiscShifts: DiscShifts = Shifts {
    modulus: PhantomData,
};

impl DiscField for DiscShifts {
    ghost is_disc = { Prim.search rules };
}
