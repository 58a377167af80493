// One pass of a job, over the rows or over the columns.
ghost use Rattle.std.specs.Prelude.{◌≡◌, ◌*◌, ◌<◌, length};
ghost use Rattle.job_rules.specs.Questions.{pass, highest_limit};
ghost use Rattle.jobs.specs.States.{row_meaning, column_meaning, PassMade, Called, answer_of_pass};

use crate::job::Job;
use codes::LineCode;
use job_rules::{Effort, Kind, PassAnswer, Refusal, Standing};
use passes::{count_standing, pass_over};

impl<P: LineCode, Q: LineCode> Job<P, Q> {
    // Each open line of a kind is decoded, in rising order. The count of passes is raised first, since it bounds the
    // other counts. The two codes are of two types, so each kind has an arm, and what an arm knows of its effort is lost behind the match.
    pub(super) fn decode_open(&mut self, frame: &mut [u8], kind: Kind) -> Effort
        requires fits { length frame.old ≡ (column_meaning Q.LineCode self.old).size * (row_meaning P.LineCode self.old).size }
        requires room { self.old.counts.passes < highest_limit * self.old.counts.calls }
        ensures { PassMade P.LineCode Q.LineCode self.old self.new frame.old frame.new kind result }
    {
        let n = self.number_of(kind);
        self.counts.passes += 1;
        match kind {
            Kind::Row => {
                let effort = pass_over(&mut self.row_code, &mut self.lines, kind, frame, n);
                self.counts.decodings += effort.decodings;
                effort
            }
            Kind::Column => {
                let effort = pass_over(&mut self.column_code, &mut self.lines, kind, frame, n);
                self.counts.decodings += effort.decodings;
                effort
            }
        }
    }

    // A pass over the lines of a kind: each open one is decoded; in reach it becomes sound, and the line across each
    // changed place open.
    pub fn pass(&mut self, frame: &mut [u8], kind: Kind) -> Result<PassAnswer, Refusal>
        ensures { Called P.LineCode Q.LineCode self.old self.new frame.old frame.new (pass kind) (answer_of_pass result) }
    {
        self.check_frame(frame)?;
        self.check_calls()?;
        self.counts.calls += 1;
        let effort = self.decode_open(frame, kind);
        let stuck = count_standing(self.records(kind), Standing::Stuck);
        Ok(PassAnswer { effort, stuck })
    }
}
