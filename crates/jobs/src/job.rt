// A job: a row code and a column code of any make, the records of their lines, and what was counted.
ghost use Rattle.std.specs.Prelude.{◌+◌, ◌*◌, ◌≤◌};
ghost use Rattle.job_rules.specs.Records.{on, tallies};
ghost use Rattle.job_rules.specs.Questions.{highest_limit, most_calls};
ghost use Rattle.job_rules.specs.Bounds.{most_lines, most_changes};
ghost use Rattle.job_rules.specs.declared.records.Kind.TheVariants.{Row, Column};

use codes::LineCode;
use job_rules::{Counts, Lines};

mod delivering;
mod ending;
mod making;
mod passing;
mod reading;
mod running;

// The frame is no part of a job: it is lent to each call. The bounds see to it that no count can overflow.
#[derive(Drop)]
pub struct Job<P: LineCode, Q: LineCode> {
    row_code: P,
    column_code: Q,
    lines: Lines,
    counts: Counts,
    ghost calls: { counts.calls ≤ most_calls },
    ghost passes: { counts.passes ≤ highest_limit * counts.calls },
    ghost decodings: { counts.decodings ≤ most_lines * counts.passes },
    ghost changes: { tallies (on Row lines) + tallies (on Column lines) ≤ most_changes * counts.passes },
    ghost redelivered: { counts.redelivered ≤ most_lines * counts.calls },
}
