// The repetition code: all symbols of a codeword are equal, and the majority decides.
ghost use Rattle.std.specs.Prelude.{◌≡◌, ◌≤◌, length};
ghost use Rattle.small_codes.specs.Repetition.{repetition, unlike, Majority};
ghost use Rattle.small_codes.specs.Majority.{lawful as repetition_is_lawful};
ghost use Rattle.std.proofs.Common.{rules};

use crate::small::{Rule, Small};
use codes::Decoded;

// A codeword is one symbol over and over; the symbol that more than half of a line's bytes are decides.
pub struct AllEqual;

// A repetition code of 1 to 255 bytes.
pub type Repetition = Small<AllEqual>;

// How many bytes of the line are not `symbol`.
fn others(line: &[u8], symbol: u8) -> usize
    ensures value { result ≡ unlike symbol line.now }
    ensures most { result ≤ length line.now }
{
    line.iter().map(|byte| usize::from(*byte != symbol)).sum()
}

// The symbol that more than half of the bytes are.
fn majority(line: &[u8]) -> Option<u8>
    ensures { Majority line.now result }
{
    for byte in line {
        let others = others(line, *byte);
        if others < line.len() - others {
            return Some(*byte);
        }
    }
    None
}

impl Rule for AllEqual {
    ghost meaning = { repetition };

    ghost sizes = { Prim.search rules };

    ghost reaches = { Prim.search rules };

    ghost lawful = { repetition_is_lawful };

    fn is_codeword(line: &[u8]) -> bool {
        line.is_empty() || others(line, line[0]) == 0
    }

    fn mend(line: &mut [u8]) -> Decoded {
        let symbol = majority(line)?;
        let changed = u8::try_from(others(line, symbol)).ok()?;
        line.fill(symbol);
        Some(changed)
    }
}
