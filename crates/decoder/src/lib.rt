// Reed–Solomon lines as line codes: any field, any solver, and the disc's codes by name.

#![tactic(auto)]

mod disc;
mod line;

pub use crate::disc::{disc_codes_recover, disc_line};
pub use crate::line::{ReedSolomon, Unmade};
