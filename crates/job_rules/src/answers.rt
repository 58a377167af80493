// What the calls of a job answer.
ghost use Rattle.std.specs.Prelude.{◌≡◌, Some};
ghost use Rattle.job_rules.specs.Questions.{number, sentence};

use std::error::Error;
use std::fmt;

// How a run ended: every line sound; no line open, but some stuck; or some line open, with all passes made.
#[derive(Clone, Copy, PartialEq, Eq, Debug)]
pub enum Ending {
    Whole,
    Quiet,
    Limit,
}

// What decoding lines took: how many were decoded, and the places that this changed.
#[derive(Clone, Copy, Default, PartialEq, Eq, Debug)]
pub struct Effort {
    pub decodings: u64,
    pub changes: u64,
}

// What a pass answers: its effort, and how many lines of its kind stand stuck at its end.
#[derive(Clone, Copy, PartialEq, Eq, Debug)]
pub struct PassAnswer {
    pub effort: Effort,
    pub stuck: u64,
}

// What a run answers: how it ended, its passes, and their effort together.
#[derive(Clone, Copy, PartialEq, Eq, Debug)]
pub struct RunAnswer {
    pub ending: Ending,
    pub passes: u64,
    pub effort: Effort,
}

// Passes, decodings and places changed by redeliveries since the job was new, and the sum of all tallies.
#[derive(Clone, Copy, PartialEq, Eq, Debug)]
pub struct Report {
    pub passes: u64,
    pub decodings: u64,
    pub redelivered: u64,
    pub changes: u64,
}

// Why a call is refused, each with its number.
#[derive(Clone, Copy, PartialEq, Eq, Debug)]
pub enum Refusal {
    FrameLength = 1,
    LineNumber = 2,
    LineLength = 3,
    PassLimit = 4,
    CallLimit = 5,
}

// Each crate converts its own enum: one `impl` for all of them would be of a foreign trait for a foreign type.
impl From<Refusal> for u8 {
    ghost from_gives = { λ why n. n ≡ number why };

    fn from(why: Refusal) -> u8 {
        why as u8
    }
}

// By hand, so that its text is stated.
impl fmt::Display for Refusal {
    ghost output = { λ why. Some (sentence why) };

    fn fmt<W: fmt::Write>(&self, f: &mut fmt::Formatter<W>) -> fmt::Result {
        f.write_str(match self {
            Refusal::FrameLength => "the frame is not as long as the codes ask",
            Refusal::LineNumber => "there is no line of this number",
            Refusal::LineLength => "the line is not as long as its code",
            Refusal::PassLimit => "the limit of passes is not from 1 to 64",
            Refusal::CallLimit => "the job has accepted all the calls that it may",
        })
    }
}

impl Error for Refusal {}

// What a call came to that was taken.
#[derive(Clone, Copy, PartialEq, Eq, Debug)]
pub enum Outcome {
    Passed(PassAnswer),
    Ran(RunAnswer),
    Redelivered(u64),
}

// The answer to a call of a list.
pub type Answer = Result<Outcome, Refusal>;
