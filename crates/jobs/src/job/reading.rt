// What can be read of a job, and of frames of its size.
ghost use Rattle.std.specs.Prelude.{◌≡◌, ℕ, ◌^◌, ◌<◌, true, List, [], ◌∷◌, slice_index_or};
ghost use Rattle.codes.specs.Meaning.{differ};
ghost use Rattle.job_rules.specs.Records.{fresh};
ghost use Rattle.job_rules.specs.Questions.{Asked, frame_fits, line_exists};
ghost use Rattle.job_rules.specs.Lines.{row as row_of};
ghost use Rattle.job_rules.specs.Passes.{records};
ghost use Rattle.job_rules.specs.Calls.{report as report_of};
ghost use Rattle.job_rules.specs.Promise.{IsWhole, Exactly};
ghost use Rattle.job_rules.specs.Copies.{Compared};
ghost use Rattle.job_rules.specs.Bounds.{Low};
ghost use Rattle.jobs.specs.States.{row_meaning, column_meaning, state};

use crate::job::Job;
use codes::LineCode;
use job_rules::{Kind, Record, Refusal, Report, Standing};
use passes::{differences, sum_tallies};

impl<P: LineCode, Q: LineCode> Job<P, Q> {
    // Whole: every line is sound.
    pub fn is_whole(&self) -> bool
        ensures { (frame : List ℕ) → Exactly (result ≡ true) (IsWhole (row_meaning P.LineCode self.now) (column_meaning Q.LineCode self.now) (state P.LineCode Q.LineCode self.now frame)) }
    {
        self.count(Standing::Open) == 0 && self.count(Standing::Stuck) == 0
    }

    // Standing and tally of a line.
    pub fn record(&self, kind: Kind, i: usize) -> Result<Record, Refusal>
        ensures { Asked (line_exists (row_meaning P.LineCode self.now) (column_meaning Q.LineCode self.now) kind i ∷ []) (λ x. x ≡ slice_index_or (records kind (state P.LineCode Q.LineCode self.now [])) i fresh) result }
    {
        self.check_line(kind, i)?;
        Ok(self.lines.at(kind, i))
    }

    // Passes, decodings and redelivered places since the job was new, and the sum of all tallies.
    pub fn report(&self) -> Report
        ensures value { (frame : List ℕ) → result ≡ report_of (state P.LineCode Q.LineCode self.now frame) }
        ensures low { Low result }
    {
        let changes = sum_tallies(self.records(Kind::Row))
            + sum_tallies(self.records(Kind::Column));
        Report {
            passes: self.counts.passes,
            decodings: self.counts.decodings,
            redelivered: self.counts.redelivered,
            changes,
        }
    }

    // Row i of a frame, as a part of it.
    pub fn row<'a>(&self, frame: &'a [u8], i: usize) -> Result<&'a [u8], Refusal>
        ensures { Asked (frame_fits (row_meaning P.LineCode self.now) (column_meaning Q.LineCode self.now) frame.now ∷ line_exists (row_meaning P.LineCode self.now) (column_meaning Q.LineCode self.now) Kind.Row i ∷ []) (λ x. x.now ≡ row_of (row_meaning P.LineCode self.now).size frame.now i) result }
    {
        self.check_frame(frame)?;
        self.check_line(Kind::Row, i)?;
        let width = self.number_of(Kind::Column);
        let at = i * width;
        Ok(&frame[at..at + width])
    }

    // At how many places two copies of a frame differ.
    pub fn compare(&self, one: &[u8], two: &[u8]) -> Result<u64, Refusal>
        ensures count { Asked (frame_fits (row_meaning P.LineCode self.now) (column_meaning Q.LineCode self.now) one.now ∷ frame_fits (row_meaning P.LineCode self.now) (column_meaning Q.LineCode self.now) two.now ∷ []) (λ n. n ≡ differ one.now two.now) result }
        ensures equal { Compared (row_meaning P.LineCode self.now) (column_meaning Q.LineCode self.now) one.now two.now result }
    {
        self.check_frame(one)?;
        self.check_frame(two)?;
        Ok(differences(one, two))
    }
}
