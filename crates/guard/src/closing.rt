// The closing check, which alone can make a guard keep what has changed.
ghost use Rattle.std.specs.Prelude.{◌≡◌, true};
ghost use Rattle.codes.specs.Meaning.{Word};
ghost use Rattle.reed_solomon.specs.Lines.{code_of};
ghost use Rattle.guard.specs.Guarded.{bytes, restored, count};

use crate::Guard;
use fields::Field;
use reed_solomon::Line;

impl Guard<'_> {
    // The line as it is now.
    fn bytes(&self) -> &[u8]
        ensures { result.now ≡ bytes self.entry.now }
    {
        self.line
    }

    // The closing check: is the line a codeword now? Then the guard keeps what has changed so far.
    // A yes or no: besides, only the flag is written that the guard's end reads.
    pub fn close<F: Field>(&mut self, code: &Line<F>) -> bool
        ensures lender { self.exit.now.line.ghost_name ≡ self.entry.now.line.ghost_name }
        ensures line { bytes self.exit.now ≡ bytes self.entry.now }
        ensures count { count self.exit.now ≡ count self.entry.now }
        ensures passed { self.exit.now.passed ≡ result }
        ensures sound { result ≡ true → Word (code_of F.Field.meaning code.now.numbers) (bytes self.entry.now) }
        ensures complete { Word (code_of F.Field.meaning code.now.numbers) (bytes self.entry.now) → result ≡ true }
        ensures restores { restored self.exit.now ≡ restored self.entry.now }
    {
        let good = code.is_codeword(self.bytes());
        self.passed = good;
        good
    }
}
