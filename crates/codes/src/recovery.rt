// The promise of every line code in one sentence: a codeword corrupted within reach decodes to itself.
ghost use Rattle.std.specs.Prelude.{◌≡◌};
ghost use Rattle.codes.specs.Answers.{Answers};
ghost use Rattle.codes.specs.Recovery.{Recovers};

use crate::{Decoded, LineCode, Refusal};

// Decodes a received line: every codeword that was corrupted at no more than `reach` places becomes itself again.
pub fn recover<L: LineCode>(code: &mut L, line: &mut [u8]) -> Result<Decoded, Refusal>
    ensures same { L.LineCode.meaning code.new ≡ L.LineCode.meaning code.old }
    ensures answer { Answers (L.LineCode.meaning code.old) line.old line.new
        (L.LineCode.count code.old) (L.LineCode.count code.new) result }
    ensures recovers { Recovers (L.LineCode.meaning code.old) line.old line.new result }
{
    code.decode(line)
}
