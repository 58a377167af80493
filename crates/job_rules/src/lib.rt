// What a job is made of: lines with their records, counts, calls and answers. The rules stand in specs/.

#![tactic(auto)]

mod answers;
mod calls;
mod laws;
mod records;

pub use answers::{Answer, Effort, Ending, Outcome, PassAnswer, Refusal, Report, RunAnswer};
pub use calls::{Call, Entry};
pub use laws::{
    changes_are_tallies, counts_stay_low, first_no_refuses, first_row_pass_restores,
    promise_leaves_no_choice, reader_decodes_all, run_endings, stuck_counts, tallies_grow,
    unchanged_means,
};
pub use records::{Counts, Kind, Lines, Record, Standing};
