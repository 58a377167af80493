// A row that the drive delivers again.
ghost use Rattle.std.specs.Prelude.{◌≡◌};
ghost use Rattle.job_rules.specs.Questions.{redeliver};
ghost use Rattle.jobs.specs.States.{Called, answer_of_delivery};

use crate::job::Job;
use codes::LineCode;
use job_rules::{Kind, Refusal};
use passes::put_row;

impl<P: LineCode, Q: LineCode> Job<P, Q> {
    // Redelivery of a row: the new bytes replace it, and the answer is how many places changed. The column of each
    // is opened, and the row if there was one.
    pub fn redeliver(&mut self, frame: &mut [u8], row: usize, bytes: &[u8]) -> Result<u64, Refusal>
        ensures { Called P.LineCode Q.LineCode self.old self.new frame.old frame.new (redeliver row bytes.now) (answer_of_delivery result) }
    {
        self.check_frame(frame)?;
        self.check_line(Kind::Row, row)?;
        if bytes.len() != self.number_of(Kind::Column) {
            return Err(Refusal::LineLength);
        }
        self.check_calls()?;
        self.counts.calls += 1;
        let height = self.number_of(Kind::Row);
        let changed = put_row(&mut self.lines, frame, row, bytes, height);
        self.counts.redelivered += changed;
        Ok(changed)
    }
}
