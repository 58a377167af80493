// A pass over the lines of a kind. Its code, records and frame are lent one by one: a struct that lends all three
// would have to say at every step that it still lends the same.
ghost use Rattle.std.specs.Prelude.{◌≡◌, ℕ, ◌*◌, ◌^◌, ◌<◌, ◌≤◌, length, slice_index_or};
ghost use Rattle.job_rules.specs.Records.{fresh, on};
ghost use Rattle.job_rules.specs.Lines.{Becomes};
ghost use Rattle.passes.specs.Steps.{lines_of, sofar, Made, Visited};

use crate::lines::visit_line;
use codes::{LineCode, put_column, take_column};
use job_rules::{Effort, Kind, Lines};

// The pass comes to line i of n. A row is decoded in the frame itself, as a part from its middle; a column is
// decoded in a copy of it, which goes back into the frame. `line` has room for the copy, and the length of a line.
fn visit<C: LineCode>(
    code: &mut C,
    lines: &mut Lines,
    kind: Kind,
    frame: &mut [u8],
    line: &mut [u8],
    i: usize,
    n: usize,
) -> Effort
    requires line { length line.old ≡ (C.LineCode.meaning code.old).size }
    requires size { length frame.old ≡ n * (C.LineCode.meaning code.old).size }
    requires within { i < n }
    requires few { n ≤ 255 }
    requires tally { (slice_index_or (on kind lines.old) i fresh).tally < 2 ^ 63 }
    ensures visited { Visited (C.LineCode.meaning code.old) (C.LineCode.count code.old) (C.LineCode.count code.new) kind i lines.old lines.new (lines_of kind (C.LineCode.meaning code.old).size n frame.old i) (lines_of kind (C.LineCode.meaning code.old).size n frame.new i) result }
    ensures frame { Becomes (lines_of kind (C.LineCode.meaning code.old).size n) n i (lines_of kind (C.LineCode.meaning code.old).size n frame.new i) frame.old frame.new }
    ensures same { C.LineCode.meaning code.new ≡ C.LineCode.meaning code.old }
    ensures table { length (on kind lines.old) ≡ 255 }
    ensures once { result.decodings ≤ 1 }
    ensures low { result.changes ≤ 255 }
{
    match kind {
        Kind::Row => {
            let size = line.len();
            let at = i * size;
            visit_line(code, lines, kind, i, &mut frame[at..at + size])
        }
        Kind::Column => {
            take_column(line, frame, n, i).unwrap();
            let effort = visit_line(code, lines, kind, i, line);
            put_column(frame, line, n, i).unwrap();
            effort
        }
    }
}

// Each open line of a kind, of which there are n, is decoded, in rising order.
pub fn pass_over<C: LineCode>(
    code: &mut C,
    lines: &mut Lines,
    kind: Kind,
    frame: &mut [u8],
    n: usize,
) -> Effort
    requires size { length frame.old ≡ n * (C.LineCode.meaning code.old).size }
    requires few { n ≤ 255 }
    requires tallies { (k : ℕ) → (slice_index_or (on kind lines.old) k fresh).tally < 2 ^ 63 }
    ensures made { Made (C.LineCode.meaning code.old) (lines_of kind (C.LineCode.meaning code.old).size n) n (sofar kind lines.old frame.old 0 0 (C.LineCode.count code.old)) (sofar kind lines.new frame.new result.decodings result.changes (C.LineCode.count code.new)) }
    ensures same { C.LineCode.meaning code.new ≡ C.LineCode.meaning code.old }
{
    // Asked once: a line that is skipped makes no call to the code.
    let size = code.length() as usize;
    let mut room = [0u8; 255];
    let mut effort = Effort::default();
    for i in 0..n {
        let visited = visit(code, lines, kind, frame, &mut room[..size], i, n);
        effort.decodings += visited.decodings;
        effort.changes += visited.changes;
    }
    effort
}
