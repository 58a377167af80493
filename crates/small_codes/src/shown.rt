// What is promised over every line code, at these two.
ghost use Rattle.std.specs.Prelude.{◌≡◌};
ghost use Rattle.codes.specs.Answers.{Answers};
ghost use Rattle.codes.specs.Recovery.{Recovers};
ghost use Rattle.small_codes.specs.Shown.{repeated};
ghost use Rattle.small_codes.specs.Wordless.{wordless};

use crate::repetition::Repetition;
use crate::wordless::Wordless;
use codes::{Cautious, Decoded, LineCode, Refusal, recover};

// Under a cautious line over a repetition code, a codeword corrupted within the cautious reach decodes to itself.
pub fn recover_repeated(
    code: &mut Cautious<Repetition>,
    line: &mut [u8],
) -> Result<Decoded, Refusal>
    ensures same { repeated code.new ≡ repeated code.old }
    ensures answer { Answers (repeated code.old) line.old line.new code.old.code.count code.new.code.count result }
    ensures recovers { Recovers (repeated code.old) line.old line.new result }
{
    recover(code, line)
}

// A code without codewords changes no line: it is stuck, or refuses another length.
pub fn leave_alone(code: &mut Wordless, line: &mut [u8]) -> Result<Decoded, Refusal>
    ensures line { line.new ≡ line.old }
    ensures same { code.new.length ≡ code.old.length }
    ensures answer { Answers (wordless code.old.length) line.old line.new code.old.count code.new.count result }
{
    code.decode(line)
}
