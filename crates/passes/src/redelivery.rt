// A row that is given new bytes.
ghost use Rattle.std.specs.Prelude.{◌≡◌, ℕ, ◌+◌, ◌*◌, ◌<◌, ◌≤◌, cond, length};
ghost use Rattle.codes.specs.Meaning.{differ};
ghost use Rattle.job_rules.specs.Records.{fresh, opened, on, tallies};
ghost use Rattle.job_rules.specs.Lines.{row, where_differ};
ghost use Rattle.job_rules.specs.Calls.{Delivery};
ghost use Rattle.passes.specs.Steps.{opened_if, sofar};

use crate::counting::differences;
use crate::lines::open_changed;
use job_rules::{Kind, Lines};

// Puts new bytes into a line, which is row i: its changed columns are opened, and so is the row if there is one.
fn replace(lines: &mut Lines, i: usize, line: &mut [u8], bytes: &[u8]) -> u64
    requires { length line.old ≡ length bytes.now }
    ensures after { line.new ≡ bytes.now }
    ensures changes { result ≡ differ line.old bytes.now }
    ensures own { on Kind.Row lines.new ≡ opened_if result i (on Kind.Row lines.old) }
    ensures cross { on Kind.Column lines.new ≡ where_differ opened line.old bytes.now (on Kind.Column lines.old) }
{
    let changed = differences(line, bytes);
    open_changed(lines, Kind::Column, line, bytes);
    line.copy_from_slice(bytes);
    if changed > 0 {
        lines.open(Kind::Row, i);
    }
    changed
}

// Puts new bytes into row i of the frame.
pub fn put_row(lines: &mut Lines, frame: &mut [u8], i: usize, bytes: &[u8], height: usize) -> u64
    requires size { length frame.old ≡ height * length bytes.now }
    requires within { i < height }
    requires low { height ≤ 255 }
    requires short { length bytes.now ≤ 255 }
    ensures changes { result ≡ differ (row (length bytes.now) frame.old i) bytes.now }
    ensures few { result ≤ 255 }
    ensures delivers { Delivery (length bytes.now) height i bytes.now (sofar Kind.Row lines.old frame.old 0 0 0).at (sofar Kind.Row lines.new frame.new 0 0 0).at }
    ensures rows { tallies (on Kind.Row lines.new) ≡ tallies (on Kind.Row lines.old) }
    ensures columns { tallies (on Kind.Column lines.new) ≡ tallies (on Kind.Column lines.old) }
{
    let width = bytes.len();
    let at = i * width;
    replace(lines, i, &mut frame[at..at + width], bytes)
}
