// The interface of line codes: what everything above a code rests on, and all that it may ask of one.

#![tactic(auto)]

ghost use Rattle.std.specs.Prelude.{◌≡◌, ℕ, Some, codes};
ghost use Rattle.codes.specs.Meaning.{Meaning, Lawful};
ghost use Rattle.codes.specs.Answers.{number, Checks, Answers};

use std::error::Error;
use std::fmt;

mod cautious;
mod columns;
mod recovery;

pub use crate::cautious::{Cautious, Refused};
pub use crate::columns::{NoColumn, put_column, take_column};
pub use crate::recovery::recover;

// What a call refuses, each with its number.
#[derive(Clone, Copy, PartialEq, Eq, Debug)]
pub enum Refusal {
    // The line is not as long as its code.
    LineLength = 3,
}

// Each crate converts its own enum: one `impl` for all of them would be of a foreign trait for a foreign type.
impl From<Refusal> for u8 {
    ghost from_gives = { λ why n. n ≡ number why };

    fn from(why: Refusal) -> u8 {
        why as u8
    }
}

// By hand, so that its text is stated.
impl fmt::Display for Refusal {
    ghost output = { λ _. Some (codes "the line is not as long as its code") };

    fn fmt<W: fmt::Write>(&self, f: &mut fmt::Formatter<W>) -> fmt::Result {
        f.write_str("the line is not as long as its code")
    }
}

impl Error for Refusal {}

// What decoding a line came to: the number of places changed, where a codeword was in reach; none where the line is stuck.
pub type Decoded = Option<u8>;

// A line code. Its meaning never changes, and its count of decodings only by `decode`.
// The interface makes no copy of a code and no second one.
pub trait LineCode {
    // Length, reach, alphabet and codewords.
    ghost meaning: { Self → Meaning };

    // The decodings so far, modulo 2^64.
    ghost count: { Self → ℕ };

    fn length(&self) -> u8
        ensures { result ≡ (meaning self.now).size };

    fn reach(&self) -> u8
        ensures { result ≡ (meaning self.now).reach };

    fn decodings(&self) -> u64
        ensures { result ≡ count self.now };

    // Is the line a codeword?
    fn check(&self, line: &[u8]) -> Result<bool, Refusal>
        ensures { Checks (meaning self.now) line.now result };

    // The line becomes the codeword in reach; where there is none it is stuck, and stays as it is.
    fn decode(&mut self, line: &mut [u8]) -> Result<Decoded, Refusal>
        ensures same { meaning self.new ≡ meaning self.old }
        ensures answer { Answers (meaning self.old) line.old line.new (count self.old) (count self.new) result };

    ghost lawful: { (code : Self) → Lawful (meaning code) };
}
