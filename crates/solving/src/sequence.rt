// A sequence of at most 32 syndromes, which is all that a solver is given.
ghost use Rattle.std.specs.Prelude.{◌≡◌, ◌≤◌, length, take};

// The first `count` of the terms. An array and a number, and no vector of fixed capacity: syndromes are copied like
// numbers, and such a vector cannot be.
#[derive(Clone, Copy)]
pub struct Syndromes {
    terms: [u8; 32],
    count: usize,
    ghost few: { count ≤ 32 },
}

impl Syndromes {
    // The first 32 of the terms: all of them, where they are no more.
    pub fn new(terms: &[u8]) -> Syndromes
        ensures { take result.count result.terms ≡ take 32 terms.now }
    {
        let count = terms.len().min(32);
        let mut kept = [0; 32];
        kept[..count].copy_from_slice(&terms[..count]);
        Syndromes { terms: kept, count }
    }

    // The terms, in their order.
    pub fn terms(&self) -> &[u8]
        ensures value { result.now ≡ take self.now.count self.now.terms }
        ensures few { length result.now ≤ 32 }
    {
        &self.terms[..self.count]
    }
}
