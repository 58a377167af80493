// Reed–Solomon codes: their numbers, the codes of the disc, and checking a line, over every field.

#![tactic(auto)]

ghost use Rattle.reed_solomon.specs.Theorems.{Distance};

mod disc;
mod limits;
mod line;
mod numbers;
mod syndromes;

pub use crate::disc::DiscCode;
pub use crate::limits::Refusal;
pub use crate::line::Line;
pub use crate::numbers::CodeNumbers;
pub use crate::syndromes::{locators, power};

// Two different codewords differ at more than N - K places.
pub fn codewords_differ()
    ensures { Distance }
{}
