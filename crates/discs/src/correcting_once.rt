// One run of a new job over a frame.
ghost use Rattle.std.specs.Prelude.{◌≡◌};
ghost use Rattle.job_rules.specs.Laws.{lines_in};
ghost use Rattle.job_rules.specs.declared.records.Kind.TheVariants.{Row};
ghost use Rattle.discs.specs.Correcting.{passes_offered, RanOnce};

use codes::LineCode;
use job_rules::{Refusal, RunAnswer};
use jobs::Job;

// The passes that correcting a frame may take.
pub const PASSES: u64 = 6;

// What correcting a frame came to: the job, from which standings, tallies and the report can be read, and its run's answer.
#[derive(Drop)]
pub struct Correction<P: LineCode, Q: LineCode> {
    pub job: Job<P, Q>,
    pub run: Result<RunAnswer, Refusal>,
}

// Corrects a frame by one run of at most six passes. A frame of another length than the codes ask is refused, and unchanged.
pub fn correct_block<P: LineCode, Q: LineCode>(
    rows: P,
    columns: Q,
    frame: &mut [u8],
) -> Correction<P, Q>
    ensures { RanOnce P.LineCode Q.LineCode rows columns passes_offered frame.old frame.new result.job result.run }
{
    let mut job = Job::new(rows, columns);
    let run = job.run(frame, PASSES);
    Correction { job, run }
}

// The decodings of a reader that skips nothing: every line of each of the six passes, rows first.
pub fn thorough_decodings<P: LineCode, Q: LineCode>(rows: &P, columns: &Q) -> u64
    ensures { result ≡ lines_in (P.LineCode.meaning rows.now) (Q.LineCode.meaning columns.now) passes_offered Row }
{
    PASSES / 2 * (u64::from(rows.length()) + u64::from(columns.length()))
}
