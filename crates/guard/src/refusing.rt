// Why a guard does not change a byte.
ghost use Rattle.std.specs.Prelude.{Some};
ghost use Rattle.guard.specs.Guarded.{sentence};

use std::error::Error;
use std::fmt;

#[derive(Clone, Copy, PartialEq, Eq, Debug)]
pub enum SetError {
    // The line has no such place.
    Place,
    // As many changes are noted as there is room for.
    Room,
}

// By hand, so that its text is stated.
impl fmt::Display for SetError {
    ghost output = { λ why. Some (sentence why) };

    fn fmt<W: fmt::Write>(&self, f: &mut fmt::Formatter<W>) -> fmt::Result {
        f.write_str(match self {
            SetError::Place => "the line has no such place",
            SetError::Room => "no further change can be noted",
        })
    }
}

impl Error for SetError {}
