// The inversionless Berlekamp–Massey method: a shortest recurrence of the syndromes, one syndrome at a time.
ghost use Rattle.std.specs.Prelude.{◌≡◌, ◌+◌, ◌<◌, ◌≤◌, length, take};
ghost use Rattle.arrayvec.specs.ArrayVec.{array_vec_len};
ghost use Rattle.algebra.specs.Lines.{Elements};
ghost use Rattle.solving.specs.Solving.{LocatesAll};
ghost use Rattle.solving.specs.Steps.{coefficient, MovesUp, Mixes};
ghost use Rattle.solving.specs.Recurrences.{Starts, Keeps, Grows};

use crate::polynomial::Polynomial;
use crate::recurrence::Recurrence;
use crate::sequence::Syndromes;
use crate::solver::Solver;
use arrayvec::ArrayVec;
use fields::Field;
use std::mem;

// Multiplies by x: each coefficient goes up by one place, and the last one is lost.
fn shift(poly: &mut [u8])
    ensures { MovesUp poly.old poly.new }
{
    let mut below = 0;
    for x in poly.iter_mut() {
        below = mem::replace(x, below);
    }
}

// The update without inversion, in place: `poly` becomes w × poly + d × other.
fn mend<F: Field>(poly: &mut [u8], w: u8, other: &[u8], d: u8)
    requires { length other.now ≡ length poly.old }
    ensures { Mixes F.Field.meaning w poly.old d other.now poly.new }
{
    for (i, x) in poly.iter_mut().enumerate() {
        *x = F::sum(F::product(w, *x), F::product(d, other[i]));
    }
}

impl Recurrence {
    // The recurrence of no syndromes, with room for the polynomials of 32 of them.
    fn start() -> Recurrence
        ensures { Starts 32 result }
    {
        let mut one = [0; 34];
        one[0] = 1;
        let mut x = [0; 34];
        x[1] = 1;
        Recurrence {
            locator: ArrayVec::from(one),
            previous: ArrayVec::from(x),
            length: 0,
            longer: 1,
            scale: 1,
        }
    }

    // Cuts the room to what the polynomials of n syndromes need.
    fn cut(&mut self, n: usize)
        requires few { n ≤ 32 }
        requires start { Starts 32 self.old }
        ensures { Starts n self.new }
    {
        self.locator.truncate(n + 2);
        self.previous.truncate(n + 2);
    }

    // The discrepancy at the syndrome r: the coefficient r of the product of the locator and the syndromes.
    fn discrepancy<F: Field>(&self, s: &[u8], r: usize) -> u8
        requires first { r < array_vec_len self.now.locator }
        requires second { r < length s.now }
        ensures { result ≡ coefficient F.Field.meaning self.now.locator.items s.now r }
    {
        let mut d = 0;
        // With the place: the syndromes go down as the coefficients go up, as in the product of two polynomials.
        for (i, x) in self.locator[..r + 1].iter().enumerate() {
            d = F::sum(d, F::product(*x, s[r - i]));
        }
        d
    }

    // The step that keeps the length: the locator is mended, and the previous one shifted on.
    fn keep<F: Field>(&mut self, d: u8)
        requires { self.old.longer ≤ 32 }
        ensures { Keeps F.Field.meaning d self.old self.new }
    {
        mend::<F>(&mut self.locator, self.scale, &self.previous, d);
        shift(&mut self.previous);
        self.longer += 1;
    }

    // The step that changes the length: the locator is mended, and what it was is the previous one from now on.
    fn grow<F: Field>(&mut self, d: u8)
        requires { self.old.length ≤ 32 }
        ensures { Grows F.Field.meaning d self.old self.new }
    {
        // The two change places first, so that neither is copied: the sum is the same the other way round.
        mem::swap(&mut self.locator, &mut self.previous);
        mend::<F>(&mut self.locator, d, &self.previous, self.scale);
        shift(&mut self.previous);
        let old = self.length;
        self.length = self.longer;
        self.longer = old + 1;
        self.scale = d;
    }

    // Goes on from the recurrence of no syndromes to a shortest one of all of them. In place, as `cut`, `keep` and `grow`:
    // a recurrence that is handed out is copied.
    fn follow<F: Field>(&mut self, s: &[u8])
        requires few { length s.now ≤ 32 }
        requires start { Starts 32 self.old }
        ensures most { self.new.length ≤ length s.now }
        ensures room { array_vec_len self.new.locator ≡ length s.now + 2 }
        ensures elements { Elements F.Field.meaning self.new.locator.items }
        ensures locates { LocatesAll F.Field.meaning s.now (take (self.new.length + 1) self.new.locator.items) }
    {
        self.cut(s.len());
        // By number: the discrepancy at r reads every syndrome up to r.
        for r in 0..s.len() {
            let d = self.discrepancy::<F>(s, r);
            if d != 0 && self.length < self.longer {
                self.grow::<F>(d);
            } else {
                self.keep::<F>(d);
            }
        }
    }
}

// The method as a solver.
pub struct BerlekampMassey;

impl<F: Field> Solver<F> for BerlekampMassey {
    // Nothing is answered where the recurrence is longer than half the syndromes, or longer than its polynomial's degree.
    fn solve(syndromes: &Syndromes) -> Option<Polynomial> {
        let s = syndromes.terms();
        let mut shortest = Recurrence::start();
        shortest.follow::<F>(s);
        let length = shortest.length;
        if 2 * length > s.len() {
            return None;
        }
        Polynomial::new(&shortest.locator[..length + 1])
    }
}
