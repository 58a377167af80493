// One line of a pass: it is decoded if it is open, and what crosses its changed places is opened. The bound on its
// tally is asked at each step: it comes from the passes that the job has counted, and no table keeps it by itself.
ghost use Rattle.std.specs.Prelude.{◌≡◌, ◌^◌, ◌<◌, ◌≤◌, length, take, slice_index_or};
ghost use Rattle.job_rules.specs.Records.{fresh, opened, on, crossing};
ghost use Rattle.job_rules.specs.Lines.{where_differ};
ghost use Rattle.passes.specs.Steps.{DecodesLine, Visited};

use codes::LineCode;
use job_rules::{Effort, Kind, Lines, Record, Standing};

// Decodes the line, and writes into its record what came of it.
fn decode_line<P: LineCode>(code: &mut P, record: &mut Record, line: &mut [u8]) -> Effort
    requires size { length line.old ≡ (P.LineCode.meaning code.old).size }
    requires tally { «record».old.tally < 2 ^ 63 }
    ensures decodes { DecodesLine (P.LineCode.meaning code.old) (P.LineCode.count code.old) (P.LineCode.count code.new) «record».old «record».new line.old line.new result }
    ensures same { P.LineCode.meaning code.new ≡ P.LineCode.meaning code.old }
{
    match code.decode(line).unwrap() {
        Some(places) => {
            let changes = u64::from(places);
            record.standing = Standing::Sound;
            record.tally += changes;
            Effort {
                decodings: 1,
                changes,
            }
        }
        None => {
            record.standing = Standing::Stuck;
            Effort {
                decodings: 1,
                changes: 0,
            }
        }
    }
}

// Opens the line of this kind across each place at which the two lines differ.
pub fn open_changed(lines: &mut Lines, kind: Kind, old: &[u8], new: &[u8])
    requires { length new.now ≤ length old.now }
    ensures cross { on kind lines.new ≡ where_differ opened (take (length new.now) old.now) new.now (on kind lines.old) }
    ensures other { on (crossing kind) lines.new ≡ on (crossing kind) lines.old }
{
    // With the place: it is the number of the line across.
    for (k, after) in new.iter().enumerate() {
        if old[k] != *after {
            lines.open(kind, k);
        }
    }
}

// A pass comes to line i of a kind.
pub fn visit_line<P: LineCode>(
    code: &mut P,
    lines: &mut Lines,
    kind: Kind,
    i: usize,
    line: &mut [u8],
) -> Effort
    requires size { length line.old ≡ (P.LineCode.meaning code.old).size }
    requires tally { (slice_index_or (on kind lines.old) i fresh).tally < 2 ^ 63 }
    ensures visited { Visited (P.LineCode.meaning code.old) (P.LineCode.count code.old) (P.LineCode.count code.new) kind i lines.old lines.new line.old line.new result }
    ensures same { P.LineCode.meaning code.new ≡ P.LineCode.meaning code.old }
    ensures table { length (on kind lines.old) ≡ 255 }
    ensures few { result.decodings ≤ 1 }
    ensures low { result.changes ≤ 255 }
{
    let mut record = lines.at(kind, i);
    if record.standing != Standing::Open {
        return Effort::default();
    }
    let mut room = [0u8; 255];
    let old = &mut room[..line.len()];
    old.copy_from_slice(line);
    let effort = decode_line(code, &mut record, line);
    lines.put(kind, i, record);
    open_changed(lines, kind.other(), old, line);
    effort
}
