// Runs: passes over rows and columns in turn, until no line is open or the limit is met.
ghost use Rattle.std.specs.Prelude.{◌≡◌, ◌+◌, ◌*◌, ◌≤◌, length};
ghost use Rattle.job_rules.specs.Questions.{run, highest_limit};
ghost use Rattle.jobs.specs.States.{row_meaning, column_meaning, RunMade, Called, answer_of_run};

use crate::job::Job;
use codes::LineCode;
use job_rules::{Effort, Ending, Kind, Refusal, RunAnswer, Standing};

// The highest limit of a run.
const HIGHEST_LIMIT: u64 = 64;

impl<P: LineCode, Q: LineCode> Job<P, Q> {
    // Run with a limit: at most so many passes, rows first. The test for open lines comes before each pass and after the last.
    pub fn run(&mut self, frame: &mut [u8], limit: u64) -> Result<RunAnswer, Refusal>
        ensures { Called P.LineCode Q.LineCode self.old self.new frame.old frame.new (run limit) (answer_of_run result) }
    {
        self.check_frame(frame)?;
        if !(1..=HIGHEST_LIMIT).contains(&limit) {
            return Err(Refusal::PassLimit);
        }
        self.check_calls()?;
        self.counts.calls += 1;
        Ok(self.run_passes(frame, limit))
    }

    // The passes of an accepted run.
    fn run_passes(&mut self, frame: &mut [u8], limit: u64) -> RunAnswer
        requires fits { length frame.old ≡ (column_meaning Q.LineCode self.old).size * (row_meaning P.LineCode self.old).size }
        requires allowed { limit ≤ highest_limit }
        requires room { self.old.counts.passes + limit ≤ highest_limit * self.old.counts.calls }
        ensures { RunMade P.LineCode Q.LineCode self.old self.new frame.old frame.new limit result }
    {
        // A loop that yields its ending by a break, as runs are ruled here: a `for` would have to work it out at each of two exits.
        let mut kind = Kind::Row;
        let mut passes = 0u64;
        let mut effort = Effort::default();
        let ending = loop {
            if self.count(Standing::Open) == 0 {
                if self.count(Standing::Stuck) == 0 {
                    break Ending::Whole;
                }
                break Ending::Quiet;
            }
            if passes == limit {
                break Ending::Limit;
            }
            let made = self.decode_open(frame, kind);
            kind = kind.other();
            passes += 1;
            effort.decodings += made.decodings;
            effort.changes += made.changes;
        };
        RunAnswer {
            ending,
            passes,
            effort,
        }
    }
}
