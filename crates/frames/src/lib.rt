// Coding a frame by two Reed–Solomon codes over the disc field.

#![tactic(auto)]

ghost use Rattle.std.specs.Prelude.{◌≡◌, ℕ, ◌*◌, ◌<◌, length, Some};
ghost use Rattle.fields.specs.Binary.{disc};
ghost use Rattle.codes.specs.Meaning.{Word};
ghost use Rattle.codes.specs.Frames.{row, column, Becomes};
ghost use Rattle.reed_solomon.specs.Lines.{code_of};
ghost use Rattle.coding.specs.Coding.{SameMessage};
ghost use Rattle.frames.specs.Carrying.{number, sentence, Coding};
ghost use Rattle.frames.specs.Theorems.{RowsFollow};

use codes::{put_column, take_column};
use coding::Coder;
use fields::DiscField;
use std::error::Error;
use std::fmt;

// What coding a frame refuses, each with its number.
#[derive(Clone, Copy, PartialEq, Eq, Debug)]
pub enum Refusal {
    // The frame is not as long as its rows and columns ask.
    FrameLength = 1,
    // The message does not fill the upper left.
    MessageLength = 10,
}

// Each crate converts its own enum: one `impl` for all of them would be of a foreign trait for a foreign type.
impl From<Refusal> for u8 {
    ghost from_gives = { λ why n. n ≡ number why };

    fn from(why: Refusal) -> u8 {
        why as u8
    }
}

// By hand, so that its text is stated.
impl fmt::Display for Refusal {
    ghost output = { λ why. Some (sentence why) };

    fn fmt<W: fmt::Write>(&self, f: &mut fmt::Formatter<W>) -> fmt::Result {
        f.write_str(match self {
            Refusal::FrameLength => "the frame is not as long as its rows and columns ask",
            Refusal::MessageLength => "the message does not fill the upper left of the frame",
        })
    }
}

impl Error for Refusal {}

// In a frame whose columns are all codewords, all rows are, once the rows of the message are.
pub fn rows_follow()
    ensures { RowsFollow }
{}

// A row becomes the codeword with this part of the message.
fn code_row<F: DiscField>(coder: &Coder<F>, line: &mut [u8], part: &[u8])
    requires long { length line.old ≡ coder.now.numbers.length }
    requires part { length part.now ≡ coder.now.numbers.dimension }
    ensures word { Word (code_of disc coder.now.numbers) line.new }
    ensures head { SameMessage (length part.now) line.new part.now }
{
    line[..part.len()].copy_from_slice(part);
    coder.code(line).unwrap();
}

// The first rows of a frame become the codewords with the rows of the message.
fn code_rows<F: DiscField>(
    coder: &Coder<F>,
    frame: &mut [u8],
    message: &[u8],
    height: usize,
    rows: usize,
)
    requires whole { length frame.old ≡ height * coder.now.numbers.length }
    requires message { length message.now ≡ rows * coder.now.numbers.dimension }
    requires less { rows < height }
    requires low { height < 256 }
    ensures words { (i : ℕ) → i < rows → Word (code_of disc coder.now.numbers) (row coder.now.numbers.length frame.new i) }
    ensures heads { (i : ℕ) → i < rows → SameMessage coder.now.numbers.dimension (row coder.now.numbers.length frame.new i) (row coder.now.numbers.dimension message.now i) }
{
    let width = coder.numbers.length as usize;
    let part = coder.numbers.dimension as usize;
    // By number: row i of the frame goes with part i of the message, and of chunks that are written nothing is known afterwards.
    for i in 0..rows {
        let at = i * width;
        let from = i * part;
        code_row(
            coder,
            &mut frame[at..at + width],
            &message[from..from + part],
        );
    }
}

// Column j becomes the codeword with its first symbols; `line` has room for it.
fn code_column<F: DiscField>(
    coder: &Coder<F>,
    frame: &mut [u8],
    line: &mut [u8],
    width: usize,
    j: usize,
)
    requires long { length line.old ≡ coder.now.numbers.length }
    requires whole { length frame.old ≡ coder.now.numbers.length * width }
    requires within { j < width }
    ensures becomes { Becomes (column width coder.now.numbers.length) width j line.new frame.old frame.new }
    ensures word { Word (code_of disc coder.now.numbers) line.new }
    ensures head { SameMessage coder.now.numbers.dimension line.new (column width coder.now.numbers.length frame.old j) }
{
    take_column(line, frame, width, j).unwrap();
    coder.code(line).unwrap();
    put_column(frame, line, width, j).unwrap();
}

// Every column becomes the codeword with its first symbols.
fn code_columns<F: DiscField>(coder: &Coder<F>, frame: &mut [u8], width: usize)
    requires { length frame.old ≡ coder.now.numbers.length * width }
    ensures words { (j : ℕ) → j < width → Word (code_of disc coder.now.numbers) (column width coder.now.numbers.length frame.new j) }
    ensures heads { (j : ℕ) → j < width → SameMessage coder.now.numbers.dimension (column width coder.now.numbers.length frame.new j) (column width coder.now.numbers.length frame.old j) }
{
    let mut room = [0u8; 255];
    let line = &mut room[..coder.numbers.length as usize];
    for j in 0..width {
        code_column(coder, frame, line, width, j);
    }
}

// Codes frames whose rows and columns are codewords of two codes over the disc field, each in either of its makes.
#[derive(Drop)]
pub struct FrameCoder<R: DiscField, C: DiscField> {
    pub rows: Coder<R>,
    pub columns: Coder<C>,
}

impl<R: DiscField, C: DiscField> FrameCoder<R, C> {
    pub fn new(rows: Coder<R>, columns: Coder<C>) -> FrameCoder<R, C>
        ensures same_rows { result.rows ≡ rows }
        ensures same_columns { result.columns ≡ columns }
    {
        FrameCoder { rows, columns }
    }

    // The frame becomes the only one with this message in its upper left whose rows and columns are all codewords.
    // A frame of another length is refused, and then a message of another length.
    pub fn code(&self, message: &[u8], frame: &mut [u8]) -> Result<(), Refusal>
        ensures { Coding (code_of disc self.now.rows.numbers) (code_of disc self.now.columns.numbers) self.now.rows.numbers.dimension self.now.columns.numbers.dimension message.now frame.old frame.new result }
    {
        let width = self.rows.numbers.length as usize;
        let height = self.columns.numbers.length as usize;
        if frame.len() != height * width {
            return Err(Refusal::FrameLength);
        }
        let part = self.rows.numbers.dimension as usize;
        let rows = self.columns.numbers.dimension as usize;
        if message.len() != rows * part {
            return Err(Refusal::MessageLength);
        }
        code_rows(&self.rows, frame, message, height, rows);
        code_columns(&self.columns, frame, width);
        Ok(())
    }
}
