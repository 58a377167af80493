// The replay: a new job does a list of calls to a frame. Its contract is the promise over every list of calls.
ghost use Rattle.job_rules.specs.Lists.{request_of};
ghost use Rattle.jobs.specs.States.{Called};
ghost use Rattle.jobs.specs.Replayed.{Answered, Replayed};

use crate::job::Job;
use codes::LineCode;
use job_rules::{Answer, Call, Entry, Outcome};

// Makes one call.
fn answer<P: LineCode, Q: LineCode>(job: &mut Job<P, Q>, frame: &mut [u8], call: &Call) -> Answer
    ensures { Called P.LineCode Q.LineCode job.old job.new frame.old frame.new (request_of call.now) result }
{
    match call {
        Call::Pass(kind) => job.pass(frame, *kind).map(Outcome::Passed),
        Call::Run { limit } => job.run(frame, *limit).map(Outcome::Ran),
        Call::Redeliver { row, bytes } => {
            job.redeliver(frame, *row, bytes).map(Outcome::Redelivered)
        }
    }
}

// Makes the call of an entry, and writes its answer there.
fn fill<P: LineCode, Q: LineCode>(job: &mut Job<P, Q>, frame: &mut [u8], entry: &mut Entry)
    ensures { Answered P.LineCode Q.LineCode job.old job.new frame.old frame.new entry.old entry.new }
{
    let reply = answer(job, frame, &entry.call);
    entry.answer = Some(reply);
}

// A new job does the calls of the list to the frame, one after the other; each answer is written into its entry.
pub fn replay<P: LineCode, Q: LineCode>(
    row_code: P,
    column_code: Q,
    frame: &mut [u8],
    list: &mut [Entry],
) -> Job<P, Q>
    ensures { Replayed P.LineCode Q.LineCode row_code column_code frame.old frame.new list.old list.new result }
{
    let mut job = Job::new(row_code, column_code);
    for entry in list.iter_mut() {
        fill(&mut job, frame, entry);
    }
    job
}
