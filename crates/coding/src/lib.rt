// Coding a line over the disc field.

#![tactic(auto)]

mod coder;
mod division;

pub use crate::coder::Coder;
