// The end of a job: its codes can serve the next one.
ghost use Rattle.std.specs.Prelude.{◌≡◌};

use crate::job::Job;
use codes::LineCode;

impl<P: LineCode, Q: LineCode> Job<P, Q> {
    // The row code and the column code, with the counts that they have now.
    pub fn into_codes(self) -> (P, Q)
        ensures row_code { result.0 ≡ self.row_code }
        ensures column_code { result.1 ≡ self.column_code }
    {
        let Job {
            row_code,
            column_code,
            lines: _,
            counts: _,
        } = self;
        (row_code, column_code)
    }
}
