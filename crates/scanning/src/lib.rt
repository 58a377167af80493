// Judging a block of a disc: which of its rows and columns are codewords.

#![tactic(auto)]

ghost use Rattle.std.specs.Prelude.{◌≡◌, ◌-◌, ◌*◌, ◌≤◌, length, Some, codes};
ghost use Rattle.fields.specs.Binary.{disc};
ghost use Rattle.codes.specs.Meaning.{Word};
ghost use Rattle.codes.specs.Frames.{row, column};
ghost use Rattle.reed_solomon.specs.Lines.{code_of};
ghost use Rattle.reed_solomon.specs.Disc.{disc_row_code, disc_column_code, disc_code};
ghost use Rattle.scanning.specs.Judging.{number, Tells, Marks, Judges};

mod listing;

pub use crate::listing::{Lines, count, next_run};
use codes::take_column;
use fields::DiscTables;
use reed_solomon::{DiscCode, Line};
use std::error::Error;
use std::fmt;

// The rows of a block, each as long as there are columns, and the columns.
pub const ROWS: usize = 208;

pub const COLUMNS: usize = 182;

// What judging a block refuses, with its number.
#[derive(Clone, Copy, PartialEq, Eq, Debug)]
pub enum Refusal {
    // The block is not 208 rows of 182 bytes.
    FrameLength = 1,
}

// Each crate converts its own enum: one `impl` for all of them would be of a foreign trait for a foreign type.
impl From<Refusal> for u8 {
    ghost from_gives = { λ why n. n ≡ number why };

    fn from(why: Refusal) -> u8 {
        why as u8
    }
}

// By hand, so that its text is stated.
impl fmt::Display for Refusal {
    ghost output = { λ _. Some (codes "the block is not 208 rows of 182 bytes") };

    fn fmt<W: fmt::Write>(&self, f: &mut fmt::Formatter<W>) -> fmt::Result {
        f.write_str("the block is not 208 rows of 182 bytes")
    }
}

impl Error for Refusal {}

// What judging a block takes: its symbols, and the syndromes that each enters by its row and by its column.
#[derive(Clone, Copy, PartialEq, Eq, Debug)]
pub struct Work {
    pub symbols: usize,
    pub row_syndromes: u8,
    pub column_syndromes: u8,
}

// The work of judging one block.
pub fn judging_work() -> Work
    ensures symbols { result.symbols ≡ disc_column_code.size * disc_row_code.size }
    ensures row_syndromes { result.row_syndromes ≡ 182 - 172 }
    ensures column_syndromes { result.column_syndromes ≡ 208 - 192 }
{
    let rows = DiscCode::Rows.numbers();
    let columns = DiscCode::Columns.numbers();
    Work {
        symbols: columns.length as usize * rows.length as usize,
        row_syndromes: rows.checks(),
        column_syndromes: columns.checks(),
    }
}

// For each row and each column, whether it is a codeword.
#[derive(Clone, Copy)]
pub struct Judgement {
    pub rows: [bool; ROWS],
    pub columns: [bool; COLUMNS],
}

// A line of one of the disc's codes.
fn disc_line(which: DiscCode) -> Line<DiscTables>
    ensures { code_of disc result.numbers ≡ disc_code which }
{
    Line::new(which.numbers()).unwrap()
}

// Marks the rows of `width` bytes that are codewords.
fn judge_rows(code: &Line<DiscTables>, frame: &[u8], width: usize, marks: &mut [bool])
    requires whole { length frame.now ≡ length marks.old * width }
    requires low { length marks.old ≤ 255 }
    requires narrow { width ≤ 255 }
    ensures { Marks (code_of disc code.now.numbers) (row width frame.now) marks.new }
{
    for (i, mark) in marks.iter_mut().enumerate() {
        let at = i * width;
        *mark = code.is_codeword(&frame[at..at + width]);
    }
}

// Marks the columns that are codewords, one for each byte of a row. A row is a part of the frame, a column a copy out of it.
fn judge_columns(code: &Line<DiscTables>, frame: &[u8], height: usize, marks: &mut [bool])
    requires whole { length frame.now ≡ height * length marks.old }
    requires low { height ≤ 255 }
    requires narrow { length marks.old ≤ 255 }
    ensures { Marks (code_of disc code.now.numbers) (column (length marks.old) height frame.now) marks.new }
{
    let width = marks.len();
    let mut room = [0u8; 255];
    let line = &mut room[..height];
    for (j, mark) in marks.iter_mut().enumerate() {
        take_column(line, frame, width, j).unwrap();
        *mark = code.is_codeword(line);
    }
}

// Judges every row and every column of a block; one of another length is refused.
pub fn judge(block: &[u8]) -> Result<Judgement, Refusal>
    ensures { Judges block.now result }
{
    if block.len() != ROWS * COLUMNS {
        return Err(Refusal::FrameLength);
    }
    let mut rows = [false; ROWS];
    judge_rows(&disc_line(DiscCode::Rows), block, COLUMNS, &mut rows);
    let mut columns = [false; COLUMNS];
    judge_columns(&disc_line(DiscCode::Columns), block, ROWS, &mut columns);
    Ok(Judgement { rows, columns })
}
