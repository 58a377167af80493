// Line numbers as text.
use scanning::next_run;
use std::fmt;

// The numbers of the lines that are not marked, compactly: `3, 17-19`, or `none`.
#[derive(Drop)]
pub struct Unmarked<'a>(pub &'a [bool]);

impl fmt::Display for Unmarked<'_> {
    fn fmt<W: fmt::Write>(&self, f: &mut fmt::Formatter<W>) -> fmt::Result {
        let mut from = 0;
        while let Some(lines) = next_run(self.0, from) {
            if from > 0 {
                write!(f, ", ")?;
            }
            write!(f, "{lines}")?;
            from = lines.last + 1;
        }
        if from == 0 { write!(f, "none") } else { Ok(()) }
    }
}
