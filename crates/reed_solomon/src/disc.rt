// The codes of the disc, by name. Their first root is 0.
ghost use Rattle.reed_solomon.specs.Disc.{DiscNumbers};

use crate::numbers::CodeNumbers;

// The Reed–Solomon codes of a disc.
#[derive(Clone, Copy, PartialEq, Eq, Debug)]
pub enum DiscCode {
    // The rows of a frame: 182 symbols, 10 of them checks.
    Rows,
    // The columns of a frame: 208 symbols, 16 of them checks.
    Columns,
    // The header of a sector: 6 symbols, 2 of them checks.
    Header,
}

impl DiscCode {
    // The numbers of the code.
    pub fn numbers(self) -> CodeNumbers
        ensures { DiscNumbers self result }
    {
        let (length, dimension) = match self {
            DiscCode::Rows => (182, 172),
            DiscCode::Columns => (208, 192),
            DiscCode::Header => (6, 4),
        };
        CodeNumbers {
            length,
            dimension,
            root: 0,
            order: 256,
        }
    }
}
