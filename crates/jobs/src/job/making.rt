// Making a job, and the questions that its calls share.
ghost use Rattle.std.specs.Prelude.{◌≡◌, ℕ, ◌*◌, ◌≤◌, List, [], length};
ghost use Rattle.job_rules.specs.Questions.{frame_fits, line_exists, call_left, lines};
ghost use Rattle.job_rules.specs.Records.{on, tallies};
ghost use Rattle.job_rules.specs.Passes.{start, records as records_of};
ghost use Rattle.job_rules.specs.Calls.{standing as lines_standing};
ghost use Rattle.job_rules.specs.Laws.{Shaped};
ghost use Rattle.jobs.specs.States.{row_meaning, column_meaning, state, Told};

use crate::job::Job;
use codes::LineCode;
use job_rules::{Counts, Kind, Lines, Record, Refusal, Standing};
use passes::count_standing;

// How many passes, runs and redeliveries a job accepts.
const MOST_CALLS: u64 = 1024;

impl<P: LineCode, Q: LineCode> Job<P, Q> {
    // A new job: all lines are open, and nothing is counted.
    pub fn new(row_code: P, column_code: Q) -> Self
        ensures row_code { result.row_code ≡ row_code }
        ensures column_code { result.column_code ≡ column_code }
        ensures new { (frame : List ℕ) → state P.LineCode Q.LineCode result frame ≡ start (P.LineCode.meaning row_code) (Q.LineCode.meaning column_code) frame (P.LineCode.count row_code) (Q.LineCode.count column_code) }
    {
        Job {
            row_code,
            column_code,
            lines: Lines::new(),
            counts: Counts::default(),
        }
    }

    // How many lines there are of a kind.
    pub(super) fn number_of(&self, kind: Kind) -> usize
        ensures value { result ≡ lines (row_meaning P.LineCode self.now) (column_meaning Q.LineCode self.now) kind }
        ensures most { result ≤ 255 }
    {
        match kind {
            Kind::Row => self.column_code.length() as usize,
            Kind::Column => self.row_code.length() as usize,
        }
    }

    // The records of the lines of a kind.
    pub(super) fn records(&self, kind: Kind) -> &[Record]
        ensures value { result.now ≡ records_of kind (state P.LineCode Q.LineCode self.now []) }
        ensures all { length result.now ≡ lines (row_meaning P.LineCode self.now) (column_meaning Q.LineCode self.now) kind }
        ensures most { length result.now ≤ 255 }
        ensures low { tallies result.now ≤ tallies (on kind self.now.lines) }
    {
        self.lines.first(kind, self.number_of(kind))
    }

    // Is the frame R × C bytes long?
    pub(super) fn check_frame(&self, frame: &[u8]) -> Result<(), Refusal>
        ensures { Told (frame_fits (row_meaning P.LineCode self.now) (column_meaning Q.LineCode self.now) frame.now) result }
    {
        if frame.len() == self.number_of(Kind::Row) * self.number_of(Kind::Column) {
            Ok(())
        } else {
            Err(Refusal::FrameLength)
        }
    }

    // Is there a line of this number?
    pub(super) fn check_line(&self, kind: Kind, i: usize) -> Result<(), Refusal>
        ensures { Told (line_exists (row_meaning P.LineCode self.now) (column_meaning Q.LineCode self.now) kind i) result }
    {
        if i < self.number_of(kind) {
            Ok(())
        } else {
            Err(Refusal::LineNumber)
        }
    }

    // Has the job accepted fewer calls than it may?
    pub(super) fn check_calls(&self) -> Result<(), Refusal>
        ensures { Told (call_left self.now.counts.calls) result }
    {
        if self.counts.calls < MOST_CALLS {
            Ok(())
        } else {
            Err(Refusal::CallLimit)
        }
    }

    // How many lines of both kinds have this standing.
    pub(super) fn count(&self, standing: Standing) -> u64
        ensures count { result ≡ lines_standing standing (state P.LineCode Q.LineCode self.now []) }
        ensures shaped { Shaped (row_meaning P.LineCode self.now) (column_meaning Q.LineCode self.now) (state P.LineCode Q.LineCode self.now []) }
    {
        count_standing(self.records(Kind::Row), standing)
            + count_standing(self.records(Kind::Column), standing)
    }
}
