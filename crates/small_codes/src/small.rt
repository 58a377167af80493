// Small line codes: one code for each length from 1 to 255, all by one rule.
ghost use Rattle.std.specs.Prelude.{◌≡◌, ℕ, ◌-◌, ◌/◌, ◌≤◌, true, length, MatchOption, MatchResult};
ghost use Rattle.codes.specs.Meaning.{Meaning, Word, Lawful};
ghost use Rattle.codes.specs.Answers.{number, Decodes};

use codes::{Decoded, LineCode, Refusal};
use std::marker::PhantomData;

// Which lines are codewords, and which codeword is in reach of a line. Lines of any length have an answer;
// codes have lengths from 1 to 255.
pub trait Rule {
    // The code of each length.
    ghost meaning: { ℕ → Meaning };

    // Is the line a codeword of the code of its length?
    fn is_codeword(line: &[u8]) -> bool
        ensures sound { result ≡ true → Word (meaning (length line.now)) line.now }
        ensures complete { Word (meaning (length line.now)) line.now → result ≡ true };

    // The line becomes the codeword in reach; where there is none it is stuck, and stays as it is.
    fn mend(line: &mut [u8]) -> Decoded
        ensures { 1 ≤ length line.old → length line.old ≤ 255 → Decodes (meaning (length line.old)) line.old line.new result };

    ghost sizes: { (n : ℕ) → (meaning n).size ≡ n };

    ghost reaches: { (n : ℕ) → (meaning n).reach ≡ (n - 1) / 2 };

    ghost lawful: { (n : ℕ) → 1 ≤ n → n ≤ 255 → Lawful (meaning n) };
}

// A code of 1 to 255 bytes by a rule, with its count of decodings.
#[derive(Drop)]
pub struct Small<R> {
    length: u8,
    count: u64,
    rule: PhantomData<R>,
    ghost some: { 1 ≤ length },
    ghost short: { length ≤ 255 },
}

impl<R: Rule> Small<R> {
    // The code of a length from 1 to 255.
    pub fn new(length: u64) -> Option<Small<R>>
        ensures { MatchOption result (1 ≤ length → length ≤ 255 → ⊥) (λ x. (x.length ≡ length) × (x.count ≡ 0)) }
    {
        if length < 1 || length > 255 {
            return None;
        }
        Some(Small {
            length: length as u8,
            count: 0,
            rule: PhantomData,
        })
    }

    // A line of another length is refused.
    fn expect_length(&self, line: &[u8]) -> Result<(), Refusal>
        ensures { MatchResult result (λ _. length line.now ≡ self.now.length)
            (λ why. (number why ≡ 3) × (length line.now ≡ self.now.length → ⊥)) }
    {
        if line.len() == self.length as usize {
            Ok(())
        } else {
            Err(Refusal::LineLength)
        }
    }
}

impl<R: Rule> LineCode for Small<R> {
    ghost meaning = { λ x. R.Rule.meaning x.length };

    ghost count = { λ x. x.count };

    ghost lawful = { λ code. R.Rule.lawful code.length code.some code.short };

    fn length(&self) -> u8 {
        self.length
    }

    fn reach(&self) -> u8 {
        (self.length - 1) / 2
    }

    fn decodings(&self) -> u64 {
        self.count
    }

    fn check(&self, line: &[u8]) -> Result<bool, Refusal> {
        self.expect_length(line)?;
        Ok(R::is_codeword(line))
    }

    fn decode(&mut self, line: &mut [u8]) -> Result<Decoded, Refusal> {
        self.expect_length(line)?;
        self.count = self.count.wrapping_add(1);
        Ok(R::mend(line))
    }
}
