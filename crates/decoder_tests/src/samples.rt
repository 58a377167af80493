// Codewords and errors to test with.
ghost use Rattle.std.specs.Prelude.{◌≡◌, ℕ, ◌<◌, ◌≤◌, ◌≢◌, length, slice_index};

use fields::Field;
use reed_solomon::power;

// The checks of a code: how many check symbols it has, and its first root.
#[derive(Clone, Copy)]
pub struct Checks {
    pub count: u8,
    pub root: u8,
    ghost few: { count ≤ 32 },
}

// Numbers that look random.
#[derive(Drop)]
pub struct Dice {
    state: u32,
}

impl Dice {
    pub fn new(seed: u32) -> Dice
        ensures { result.state ≡ seed }
    {
        Dice { state: seed }
    }

    // A number below `limit`, or 0.
    pub fn below(&mut self, limit: u16) -> u8
        ensures { 0 < limit → limit ≤ 256 → result < limit }
    {
        self.state = self
            .state
            .wrapping_mul(1_664_525)
            .wrapping_add(1_013_904_223);
        if limit == 0 || limit > 256 {
            return 0;
        }
        ((self.state >> 16) % u32::from(limit)) as u8
    }
}

// The generator polynomial, the highest coefficient first: the product of x + α^(root + i).
fn generator<F: Field>(checks: Checks) -> [u8; 33] {
    let mut g = [0u8; 33];
    g[0] = 1;
    let mut zero = power::<F>(F::GENERATOR, checks.root);
    for _ in 0..checks.count {
        let mut above = 0u8;
        for x in g.iter_mut() {
            let here = *x;
            *x = F::sum(here, F::product(above, zero));
            above = here;
        }
        zero = F::product(zero, F::GENERATOR);
    }
    g
}

// A codeword: a message that looks random times the generator polynomial.
pub fn codeword<F: Field>(line: &mut [u8], checks: Checks, dice: &mut Dice) {
    let g = generator::<F>(checks);
    line.fill(0);
    // By index: each symbol of the message adds the generator from its own place on.
    for i in 0..line.len().saturating_sub(checks.count as usize) {
        let symbol = dice.below(F::ELEMENTS);
        for (x, factor) in line[i..].iter_mut().zip(g) {
            *x = F::sum(*x, F::product(symbol, factor));
        }
    }
}

// Makes the symbol at a place another one of the field.
pub fn spoil<F: Field>(line: &mut [u8], place: usize, dice: &mut Dice)
    ensures { (k : ℕ) → k ≢ place → slice_index line.new k ≡ slice_index line.old k }
{
    if place < line.len() {
        let error = dice.below(F::ELEMENTS.saturating_sub(1)).wrapping_add(1);
        line[place] = F::sum(line[place], error);
    }
}

// At how many places two lines differ.
pub fn differ(one: &[u8], two: &[u8]) -> usize
    ensures { result ≤ length one.now }
{
    one.iter().zip(two).filter(|(x, y)| x != y).count()
}
