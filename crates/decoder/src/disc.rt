// The disc's codes as line codes, by name.
ghost use Rattle.std.specs.Prelude.{◌≡◌, MatchResult};
ghost use Rattle.reed_solomon.specs.Lines.{code_of};
ghost use Rattle.reed_solomon.specs.Disc.{disc_code, disc_row_code, disc_column_code, disc_header_code};
ghost use Rattle.decoder.specs.Recovering.{RecoversWithin};

use crate::line::{ReedSolomon, Unmade};
use fields::DiscField;
use reed_solomon::DiscCode;
use solving::Solver;
use std::alloc::Global;

// The line code of a code of the disc.
pub fn disc_line<F: DiscField, S: Solver<F>>(
    heap: Global,
    which: DiscCode,
) -> Result<ReedSolomon<F, S>, Unmade>
    ensures { MatchResult result (λ x. (code_of F.Field.meaning x.code.numbers ≡ disc_code which) × (x.count ≡ 0)) (λ _. ⊥) }
{
    ReedSolomon::<F, S>::new(heap, which.numbers())
}

// A codeword of the disc decodes to itself: of the rows with up to 5 wrong places, of the columns with up to 8, of the header with one.
pub fn disc_codes_recover()
    ensures row { RecoversWithin 5 disc_row_code }
    ensures column { RecoversWithin 8 disc_column_code }
    ensures head { RecoversWithin 1 disc_header_code }
{}
