// One line and one pass: what the calls of a job are made of. The functions that are pub here are for the
// crate `jobs` alone, which meets what they ask of their callers; they are no interface of the product.

#![tactic(auto)]

mod counting;
mod lines;
mod pass;
mod redelivery;

pub use counting::{count_standing, differences, sum_tallies};
pub use pass::pass_over;
pub use redelivery::put_row;
