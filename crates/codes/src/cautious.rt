// The cautious line: a line code that mends less than the code below could.
ghost use Rattle.std.specs.Prelude.{◌≡◌, ◌<◌, ◌≤◌, Some, codes};
ghost use Rattle.codes.specs.Cautious.{cautious, Makes, reach_number};
ghost use Rattle.std.proofs.Common.{rules};

use crate::{Decoded, LineCode, Refusal};
use std::fmt;

// A line code with the length, alphabet, codewords and count of the code below, and a smaller reach of its own.
#[derive(Drop)]
pub struct Cautious<L> {
    code: L,
    reach: u8,
}

// What making a cautious line refuses: a reach beyond the reach below. The code below is handed back. No code here has an
// equality, so that a derived one would serve nobody.
#[derive(Drop)]
pub enum Refused<L> {
    Reach(L),
}

// By a match: a variant that hands the code back has no discriminant to convert.
impl<L> From<&Refused<L>> for u8 {
    ghost from_gives = { λ why n. n ≡ reach_number why.now };

    fn from(why: &Refused<L>) -> u8 {
        match why {
            Refused::Reach(_) => 7,
        }
    }
}

// By hand, so that its text is stated.
impl<L> fmt::Display for Refused<L> {
    ghost output = { λ _. Some (codes "the reach is beyond that of the code below") };

    fn fmt<W: fmt::Write>(&self, f: &mut fmt::Formatter<W>) -> fmt::Result {
        f.write_str("the reach is beyond that of the code below")
    }
}

impl<L: LineCode> Cautious<L> {
    // A cautious line of any reach that is at most the reach below.
    pub fn new(code: L, reach: u64) -> Result<Cautious<L>, Refused<L>>
        ensures { Makes L.LineCode.meaning code reach result }
    {
        if reach > code.reach() as u64 {
            return Err(Refused::Reach(code));
        }
        Ok(Cautious {
            code,
            reach: reach as u8,
        })
    }
}

impl<L: LineCode> LineCode for Cautious<L> {
    ghost meaning = { λ x. cautious (L.LineCode.meaning x.code) x.reach };

    ghost count = { λ x. L.LineCode.count x.code };

    ghost lawful = { Prim.search rules };

    fn length(&self) -> u8 {
        self.code.length()
    }

    fn reach(&self) -> u8 {
        self.reach.min(self.code.reach())
    }

    fn decodings(&self) -> u64 {
        self.code.decodings()
    }

    fn check(&self, line: &[u8]) -> Result<bool, Refusal> {
        self.code.check(line)
    }

    // The code below decodes; where it changed more places than the cautious reach, the old bytes are put back.
    fn decode(&mut self, line: &mut [u8]) -> Result<Decoded, Refusal> {
        if line.len() != self.length() as usize {
            return Err(Refusal::LineLength);
        }
        let reach = self.reach();
        let mut room = [0u8; 255];
        let before = &mut room[..line.len()];
        before.copy_from_slice(line);
        let answer = self.code.decode(line)?;
        if let Some(places) = answer {
            if places > reach {
                line.copy_from_slice(before);
                return Ok(None);
            }
        }
        Ok(answer)
    }
}
