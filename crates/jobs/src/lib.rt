// Jobs over any two line codes: the calls, and the replay of a list of them with its promise.

#![tactic(auto)]

mod job;
mod replaying;

pub use job::Job;
pub use replaying::replay;
