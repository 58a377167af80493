// The two codes of a disc's frame, as every program here puts them together.
ghost use Rattle.std.specs.Prelude.{◌≡◌, MatchResult};
ghost use Rattle.fields.specs.Binary.{disc};
ghost use Rattle.reed_solomon.specs.Lines.{code_of};
ghost use Rattle.reed_solomon.specs.Disc.{disc_row_code, disc_column_code};

use decoder::{ReedSolomon, Unmade, disc_line};
use fields::DiscTables;
use reed_solomon::DiscCode;
use solving::BerlekampMassey;
use std::alloc::Global;

// A line code over the disc field by its tables, which the Berlekamp–Massey method solves.
pub type DiscLine = ReedSolomon<DiscTables, BerlekampMassey>;

// The codes of the rows and of the columns of a disc's frame.
#[derive(Drop)]
pub struct DiscCodes {
    pub rows: DiscLine,
    pub columns: DiscLine,
}

// The disc's two codes, neither of which has decoded yet. The only error is want of memory, which does not come today.
pub fn disc_codes(heap: Global) -> Result<DiscCodes, Unmade>
    ensures rows { MatchResult result (λ x. (code_of disc x.rows.code.numbers ≡ disc_row_code) × (x.rows.count ≡ 0)) (λ _. ⊥) }
    ensures columns { MatchResult result (λ x. (code_of disc x.columns.code.numbers ≡ disc_column_code) × (x.columns.count ≡ 0)) (λ _. ⊥) }
{
    let rows = disc_line::<DiscTables, BerlekampMassey>(heap, DiscCode::Rows)?;
    let columns = disc_line::<DiscTables, BerlekampMassey>(heap, DiscCode::Columns)?;
    Ok(DiscCodes { rows, columns })
}
