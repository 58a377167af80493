// A polynomial as a solver answers it: of degree at most 16, its leading coefficient not 0.
ghost use Rattle.std.specs.Prelude.{⊤, ◌≡◌, ◌+◌, ◌-◌, ◌<◌, ◌≤◌, length, take, MatchOption, slice_index};

use std::alloc::AllocError;

// The first `degree + 1` of the coefficients, the lowest first. An array and a number, and no vector of fixed capacity:
// a polynomial is copied like a number, and such a vector cannot be.
#[derive(Copy)]
pub struct Polynomial {
    coefficients: [u8; 17],
    degree: usize,
    ghost few: { degree ≤ 16 },
    ghost leading: { 0 < slice_index coefficients degree },
}

// By hand, so that it is stated that a copy is the same polynomial.
impl Clone for Polynomial {
    ghost is_clone = { λ p q. q ≡ p };

    ghost is_infallible = { λ _. ⊤ };

    fn clone(&self) -> Result<Polynomial, AllocError> {
        Ok(Polynomial {
            coefficients: self.coefficients,
            degree: self.degree,
        })
    }
}

impl Polynomial {
    // The polynomial with these coefficients, the lowest first: 1 to 17 of them, of which the last is not 0.
    pub fn new(coefficients: &[u8]) -> Option<Polynomial>
        ensures { MatchOption result
            (1 ≤ length coefficients.now → length coefficients.now ≤ 17
            → 0 < slice_index coefficients.now (length coefficients.now - 1) → ⊥)
            (λ x. (take (x.degree + 1) x.coefficients ≡ coefficients.now) × (x.degree + 1 ≡ length coefficients.now)) }
    {
        let count = coefficients.len();
        if *coefficients.last()? == 0 || count > 17 {
            return None;
        }
        let mut kept = [0; 17];
        kept[..count].copy_from_slice(coefficients);
        Some(Polynomial {
            coefficients: kept,
            degree: count - 1,
        })
    }

    // The highest power with a coefficient that is not 0.
    pub fn degree(&self) -> usize
        ensures { result ≡ self.now.degree }
    {
        self.degree
    }

    // The coefficients, the lowest first: one more than the degree.
    pub fn coefficients(&self) -> &[u8]
        ensures value { result.now ≡ take (self.now.degree + 1) self.now.coefficients }
        ensures count { length result.now ≡ self.now.degree + 1 }
    {
        &self.coefficients[..self.degree + 1]
    }
}
