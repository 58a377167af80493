// A guard over a line's bytes while it is being corrected: at its end the old bytes are back, unless the closing check passed.

#![tactic(auto)]

ghost use Rattle.std.specs.Prelude.{◌≡◌, true, false, length};
ghost use Rattle.guard.specs.Undo.{undo, Noted};

mod change;
mod changing;
mod closing;
mod refusing;

use crate::change::Change;
pub use crate::refusing::SetError;
use arrayvec::ArrayVec;

// The line, its changes in their order, and whether the closing check passed after the last.
pub struct Guard<'a> {
    line: &'a mut [u8],
    changes: ArrayVec<Change, 32>,
    passed: bool,
    ghost noted: { Noted changes.items (length line.now) },
}

impl Drop for Guard<'_> {
    fn drop(self)
        ensures kept { self.entry.passed ≡ true → self.exit.0.now ≡ self.entry.line.now }
        ensures restored { self.entry.passed ≡ false
            → self.exit.0.now ≡ undo self.entry.changes.items self.entry.line.now }
    {
        let Guard {
            line,
            mut changes,
            passed,
        } = self;
        if !passed {
            while let Some(change) = changes.pop() {
                line[change.place as usize] = change.old;
            }
        }
    }
}
