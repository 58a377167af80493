// The syndromes of a line: every byte, with its place, enters each of them.
ghost use Rattle.std.specs.Prelude.{◌≡◌, ℕ, ◌<◌, length, slice_index};
ghost use Rattle.fields.specs.Laws.{power};
ghost use Rattle.algebra.specs.Lines.{Elements};
ghost use Rattle.reed_solomon.specs.Lines.{Locators, Syndromes};

use fields::Field;

// x to the k, in the field.
pub fn power<F: Field>(x: u8, k: u8) -> u8
    ensures { result ≡ power F.Field.meaning.mul x k }
{
    let mut r = 1;
    for _i in 0..k {
        r = F::product(x, r);
    }
    r
}

// Fills a table with the locator of each place of a line as long as it: the last place's is 1, and each before it α times the next.
pub fn locators<F: Field>(table: &mut [u8])
    ensures { Locators F.Field.meaning table.new }
{
    let mut x = 1;
    for place in table.iter_mut() {
        *place = x;
        x = F::product(F::GENERATOR, x);
    }
    table.reverse();
}

// Adds y, y x, y x², .. to the sums.
fn enter<F: Field>(s: &mut [u8], y: u8, x: u8)
    requires elements { Elements F.Field.meaning s.old }
    requires first { y < F.Field.meaning.q }
    ensures { (k : ℕ) → k < length s.old
        → slice_index s.new k ≡ F.Field.meaning.add (slice_index s.old k) (F.Field.meaning.mul y (power F.Field.meaning.mul x k)) }
{
    let mut v = y;
    for sum in s.iter_mut() {
        *sum = F::sum(*sum, v);
        v = F::product(v, x);
    }
}

// As many syndromes as s has room for, from S_b on: the byte at place p adds byte × X_p^i to S_i.
pub(crate) fn syndromes<F: Field>(line: &[u8], table: &[u8], b: u8, s: &mut [u8])
    requires long { length table.now ≡ length line.now }
    requires located { Locators F.Field.meaning table.now }
    ensures { Syndromes F.Field.meaning line.now b s.new }
{
    s.fill(0);
    for (p, byte) in line.iter().enumerate() {
        let y = F::product(*byte, power::<F>(table[p], b));
        enter::<F>(s, y, table[p]);
    }
}
