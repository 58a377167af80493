// Correcting a block of a disc: one run of a new job, with at most six passes.

#![tactic(auto)]

mod codes_by_name;
mod correcting_once;

pub use crate::codes_by_name::{DiscCodes, DiscLine, disc_codes};
pub use crate::correcting_once::{Correction, PASSES, correct_block, thorough_decodings};
