// Correcting a received line: it becomes the codeword in reach, and is stuck exactly when there is none.

#![tactic(auto)]

mod correction;
mod mending;
mod places;
mod received;
mod values;

pub use crate::mending::correct;
