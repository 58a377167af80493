// Fields of 2^m elements whose product is that of bit polynomials modulo one of degree m, computed by shifting and reducing.
ghost use Rattle.std.specs.Prelude.{◌≡◌, ℕ, ◌<◌, ◌≤◌, ◌^◌, ◌↔◌, IsTrue, refl};
ghost use Rattle.fields.specs.Binary.{shift, product, binary};
ghost use Rattle.fields.specs.Computed.{Tests};
ghost use Rattle.fields.specs.Fields.{binary_laws};

use crate::Field;
use std::marker::PhantomData;

// A polynomial of degree m, modulo which the powers of x are all the nonzero bit polynomials of lower degree.
pub trait Modulus {
    // m.
    const DEGREE: u8;

    // Bit i is the coefficient of x^i.
    const POLYNOMIAL: u16;

    ghost DEGREE: { ℕ };

    ghost POLYNOMIAL: { ℕ };

    ghost small: { DEGREE ≤ 8 };

    ghost tests: { Tests DEGREE POLYNOMIAL };
}

// The field of 2^m elements modulo M.
pub struct Shifts<M: Modulus> {
    // Seen by every crate, so that a value can be made and, having no destructor, be taken apart.
    pub modulus: PhantomData<M>,
}

impl<M: Modulus> Shifts<M> {
    // Is a number no element?
    fn is_outside(a: u8) -> bool
        ensures { IsTrue result ↔ (2 ^ M.DEGREE ≤ a) }
    {
        u16::from(a) >= 1 << M::DEGREE
    }

    // x a.
    fn shifted(a: u8) -> u8
        requires { a < 2 ^ M.DEGREE }
        ensures { result ≡ shift M.DEGREE M.POLYNOMIAL a }
    {
        let double = u16::from(a) * 2;
        // Only what is added is chosen: a choice between two sums would be slower code.
        let multiple = if double >> M::DEGREE == 0 {
            0
        } else {
            M::POLYNOMIAL
        };
        (double ^ multiple) as u8
    }

    // a b: for each 1 among the digits of b, the lowest first, a shifted so often.
    fn shift_product(a: u8, b: u8) -> u8
        requires { a < 2 ^ M.DEGREE }
        ensures { result ≡ product M.DEGREE M.POLYNOMIAL a b }
    {
        let mut x = a;
        let mut y = b;
        let mut r = 0;
        for _k in 0..M::DEGREE {
            if y % 2 == 1 {
                r ^= x;
            }
            x = Self::shifted(x);
            y /= 2;
        }
        r
    }
}

impl<M: Modulus> Field for Shifts<M> {
    const ELEMENTS: u16 = 1 << M::DEGREE;

    const GENERATOR: u8 = 2;

    ghost ELEMENTS = { 2 ^ M.DEGREE };

    ghost GENERATOR = { 2 };

    ghost meaning = { binary M.DEGREE M.POLYNOMIAL };

    ghost elements = { refl };

    ghost generator = { refl };

    ghost laws = { binary_laws M.DEGREE M.POLYNOMIAL M.small M.tests };

    fn sum(a: u8, b: u8) -> u8 {
        if Self::is_outside(a) || Self::is_outside(b) {
            return 0;
        }
        a ^ b
    }

    fn product(a: u8, b: u8) -> u8 {
        if Self::is_outside(a) || Self::is_outside(b) {
            return 0;
        }
        Self::shift_product(a, b)
    }

    fn inverse(a: u8) -> u8 {
        if Self::is_outside(a) {
            return 0;
        }
        // a to the power 2^m - 2.
        let mut r = 1;
        for _k in 2..1u16 << M::DEGREE {
            r = Self::shift_product(a, r);
        }
        r
    }
}
