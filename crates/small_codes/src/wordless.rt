// The code without codewords: every line is stuck.
ghost use Rattle.small_codes.specs.Wordless.{wordless};
ghost use Rattle.std.proofs.Common.{rules};

use crate::small::{Rule, Small};
use codes::Decoded;

// The rule by which no line is a codeword.
pub struct NoCodewords;

// A code of 1 to 255 bytes that has no codeword.
pub type Wordless = Small<NoCodewords>;

impl Rule for NoCodewords {
    ghost meaning = { wordless };

    ghost sizes = { Prim.search rules };

    ghost reaches = { Prim.search rules };

    ghost lawful = { Prim.search rules };

    fn is_codeword(_line: &[u8]) -> bool {
        false
    }

    fn mend(_line: &mut [u8]) -> Decoded {
        None
    }
}
