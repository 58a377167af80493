// The columns of a frame, copied out of it and back into it. A line, a frame, the width of its rows and a column's number
// go together: a struct of them would have to be made anew for each copy, since callers lend the two buffers to others in between.
ghost use Rattle.std.specs.Prelude.{◌≡◌, ◌*◌, ◌<◌, length, MatchResult, Some, codes};
ghost use Rattle.codes.specs.Frames.{Column, Takes, Puts, column, Becomes};

use std::error::Error;
use std::fmt;

// The frame has no such column, or its columns are not as long as the line.
#[derive(Clone, Copy, PartialEq, Eq, Debug)]
pub struct NoColumn;

// By hand, so that its text is stated.
impl fmt::Display for NoColumn {
    ghost output = { λ _. Some (codes "the frame has no such column as long as the line") };

    fn fmt<W: fmt::Write>(&self, f: &mut fmt::Formatter<W>) -> fmt::Result {
        f.write_str("the frame has no such column as long as the line")
    }
}

impl Error for NoColumn {}

// Has the frame as many rows of `width` bytes as the line has places, and is j one of its columns?
fn find_column(line: &[u8], frame: &[u8], width: usize, j: usize) -> Result<(), NoColumn>
    ensures { MatchResult result (λ _. Column line.now frame.now width j) (λ _. Column line.now frame.now width j → ⊥) }
{
    if j < width && line.len().checked_mul(width) == Some(frame.len()) {
        Ok(())
    } else {
        Err(NoColumn)
    }
}

fn copy_out(line: &mut [u8], frame: &[u8], width: usize, j: usize)
    requires { Column line.old frame.now width j }
    ensures { line.new ≡ column width (length line.old) frame.now j }
{
    for (i, symbol) in line.iter_mut().enumerate() {
        *symbol = frame[i * width + j];
    }
}

fn copy_in(frame: &mut [u8], line: &[u8], width: usize, j: usize)
    requires { Column line.now frame.old width j }
    ensures { Becomes (column width (length line.now)) width j line.now frame.old frame.new }
{
    for (i, symbol) in line.iter().enumerate() {
        frame[i * width + j] = *symbol;
    }
}

// Copies column j of a frame into a line that has a place for each row of `width` bytes.
// Where there is no such column nothing changes.
pub fn take_column(line: &mut [u8], frame: &[u8], width: usize, j: usize) -> Result<(), NoColumn>
    ensures { Takes line.old frame.now width j line.new result }
{
    find_column(line, frame, width, j)?;
    copy_out(line, frame, width, j);
    Ok(())
}

// Copies a line into column j of a frame; the other columns stay.
// Where there is no such column nothing changes.
pub fn put_column(frame: &mut [u8], line: &[u8], width: usize, j: usize) -> Result<(), NoColumn>
    ensures { Puts line.now frame.old width j frame.new result }
{
    find_column(line, frame, width, j)?;
    copy_in(frame, line, width, j);
    Ok(())
}
