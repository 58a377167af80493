// The numbers of a Reed–Solomon code: a type that keeps their limits.
ghost use Rattle.std.specs.Prelude.{◌+◌, ◌<◌, ◌≤◌};

// N, K, the first root b and the q of the field.
#[derive(Clone, Copy, PartialEq, Eq, Debug)]
pub struct CodeNumbers {
    // N, the symbols of a line.
    pub length: u8,
    // K, those of them that carry the message.
    pub dimension: u8,
    // b: the syndromes are S_b to S_(b + N - K - 1).
    pub root: u8,
    // q, the elements of the field.
    pub order: u16,
    ghost some: { 1 ≤ dimension },
    ghost less: { dimension < length },
    ghost short: { length ≤ 255 },
    ghost fits: { length < order },
    ghost checks: { length ≤ dimension + 32 },
    ghost first: { root ≤ 254 },
    ghost two: { 2 ≤ order },
    ghost bytes: { order ≤ 256 },
}
