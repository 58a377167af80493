// Solving for the wrong places: from syndromes to the polynomial whose roots tell where a line is wrong.

#![tactic(auto)]

mod massey;
mod polynomial;
mod recurrence;
mod sequence;
mod solver;

pub use crate::massey::BerlekampMassey;
pub use crate::polynomial::Polynomial;
pub use crate::sequence::Syndromes;
pub use crate::solver::Solver;
