// A list of calls, with room for their answers.
ghost use Rattle.std.specs.Prelude.{◌≡◌, None};

use crate::answers::Answer;
use crate::records::Kind;

// One call of a job, with its arguments.
#[derive(Clone, Copy, PartialEq, Eq, Debug)]
pub enum Call<'a> {
    Pass(Kind),
    Run { limit: u64 },
    Redeliver { row: usize, bytes: &'a [u8] },
}

// An entry of the list: the call, and its answer once it was made.
#[derive(Clone, Copy, PartialEq, Eq, Debug)]
pub struct Entry<'a> {
    pub call: Call<'a>,
    pub answer: Option<Answer>,
}

impl<'a> From<Call<'a>> for Entry<'a> {
    ghost from_gives = { λ call entry. (entry.call ≡ call) × (entry.answer ≡ None) };

    fn from(call: Call<'a>) -> Entry<'a> {
        Entry { call, answer: None }
    }
}
