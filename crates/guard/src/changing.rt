// Taking a line under guard, and changing its bytes.
ghost use Rattle.std.specs.Prelude.{◌≡◌, true, false, ◌+◌, ◌<◌, length};
ghost use Rattle.arrayvec.specs.ArrayVec.{array_vec_len};
ghost use Rattle.guard.specs.Guarded.{bytes, restored, count, Sets};

use crate::change::Change;
use crate::{Guard, SetError};
use arrayvec::ArrayVec;

impl<'a> Guard<'a> {
    // A guard over a line of which nothing has changed yet.
    pub fn over(line: &'a mut [u8]) -> Guard<'a>
        ensures lender { result.line.ghost_name ≡ line.entry.ghost_name }
        ensures line { bytes result ≡ line.old }
        ensures restores { restored result ≡ line.old }
        ensures count { count result ≡ 0 }
        ensures passed { result.passed ≡ false }
    {
        Guard {
            line,
            changes: ArrayVec::new(),
            passed: false,
        }
    }

    // Changes the byte at a place, and notes its old value. Where the line has no such place, or 32 changes are noted
    // already, nothing changes. A change has to pass the closing check again.
    pub fn set(&mut self, place: u8, value: u8) -> Result<(), SetError>
        ensures lender { self.exit.now.line.ghost_name ≡ self.entry.now.line.ghost_name }
        ensures sets { Sets place value self.entry.now self.exit.now result }
        ensures restores { restored self.exit.now ≡ restored self.entry.now }
    {
        if place as usize >= self.line.len() {
            return Err(SetError::Place);
        }
        let old = self.line[place as usize];
        self.changes
            .try_push(Change { place, old })
            .map_err(|_| SetError::Room)?;
        self.passed = false;
        self.line[place as usize] = value;
        Ok(())
    }
}
