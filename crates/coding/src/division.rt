// The division of a message by the generator polynomial, in a register of as many symbols as there are checks.
// Polynomials have their coefficients in a slice, the lowest first.
ghost use Rattle.std.specs.Prelude.{◌≡◌, ℕ, ◌+◌, ◌≤◌, length, take};
ghost use Rattle.algebra.specs.Lines.{Elements};
ghost use Rattle.coding.specs.Division.{Zero, Shifts, Generator, Remains};

use fields::Field;
use reed_solomon::power;

// r becomes r times x, plus f times g. Its highest coefficient is lost.
// Inlined, so that what the field's products need is loaded once and not for each symbol.
#[inline]
fn shift<F: Field>(r: &mut [u8], g: &[u8], f: u8)
    requires long { length r.old ≤ length g.now }
    requires elements { Elements F.Field.meaning r.old }
    ensures elements { Elements F.Field.meaning r.new }
    ensures is { Shifts F.Field.meaning r.old f g.now r.new }
{
    let mut before = 0;
    for (k, place) in r.iter_mut().enumerate() {
        let here = *place;
        *place = F::sum(before, F::product(f, g[k]));
        before = here;
    }
}

// The product of the x - α^(b+j), as many as n, in the first places of a room for 32, which is empty before.
pub(crate) fn generator<F: Field>(g: &mut [u8; 33], n: usize, b: u8)
    requires few { n ≤ 32 }
    requires empty { Zero g.old }
    ensures elements { Elements F.Field.meaning (take (n + 1) g.new) }
    ensures is { Generator F.Field.meaning b (take (n + 1) g.new) }
{
    g[0] = 1;
    let mut z = power::<F>(F::GENERATOR, b);
    // The product so far, times x + z, is itself times x, plus itself times z.
    for _i in 0..n {
        let product = *g;
        shift::<F>(&mut g[..n + 1], &product, z);
        z = F::product(F::GENERATOR, z);
    }
}

// Divides a message, the highest coefficient first, by g: what is left stands in the register, which is empty before.
pub(crate) fn divide<F: Field>(r: &mut [u8], g: &[u8], message: &[u8])
    requires some { 1 ≤ length r.old }
    requires empty { Zero r.old }
    requires long { length g.now ≡ length r.old + 1 }
    requires symbols { Elements F.Field.meaning message.now }
    ensures elements { Elements F.Field.meaning r.new }
    ensures remains { (b : ℕ) → Generator F.Field.meaning b g.now → Remains F.Field.meaning b message.now r.new }
{
    for symbol in message {
        let highest = r[r.len() - 1];
        shift::<F>(r, g, F::sum(*symbol, highest));
    }
}
