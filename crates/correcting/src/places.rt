// Finding the wrong places: where in the line the solver's polynomial has its roots.
ghost use Rattle.std.specs.Prelude.{◌≡◌, ℕ, ◌<◌, length, ◌==◌};
ghost use Rattle.algebra.specs.Lines.{Elements};
ghost use Rattle.algebra.specs.Sums.{value};
ghost use Rattle.solving.specs.Sequences.{coefficients};
ghost use Rattle.correcting.specs.Corrections.{Finds};

use crate::received::Received;
use arrayvec::ArrayVec;
use fields::Field;
use solving::Polynomial;

// Is the polynomial 0 at the inverse of x? Horner's rule from the lowest coefficient on gives its value there times a power of x.
fn vanishes<F: Field>(polynomial: &[u8], x: u8) -> bool
    requires some { 0 < length polynomial.now }
    requires elements { Elements F.Field.meaning polynomial.now }
    requires nonzero { 0 < x }
    requires element { x < F.Field.meaning.q }
    ensures { result ≡ (value F.Field.meaning polynomial.now (length polynomial.now) (F.Field.meaning.inv x) == 0) }
{
    let mut v = 0;
    for coefficient in polynomial {
        v = F::sum(*coefficient, F::product(x, v));
    }
    v == 0
}

impl<F: Field> Received<'_, F> {
    // The places whose locator's inverse is a root of the polynomial, rising: none where they are not as many as its degree.
    pub(crate) fn places(&self, polynomial: &Polynomial) -> Option<ArrayVec<u8, 16>>
        requires { Elements F.Field.meaning (coefficients polynomial.now) }
        ensures { Finds F.Field.meaning (coefficients polynomial.now) self.now.table.now result }
    {
        let coefficients = polynomial.coefficients();
        let mut places = ArrayVec::new();
        for (place, x) in self.table.iter().enumerate() {
            if vanishes::<F>(coefficients, *x) {
                places.try_push(place as u8).ok()?;
            }
        }
        if places.len() == polynomial.degree() {
            Some(places)
        } else {
            None
        }
    }
}
