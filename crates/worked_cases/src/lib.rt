// The table of worked cases: small examples, each proved from the definitions.

#![tactic(auto)]

ghost use Rattle.std.specs.Prelude.{◌≡◌, ℕ};
ghost use Rattle.fields.specs.Binary.{disc};
ghost use Rattle.codes.specs.Meaning.{Word};
ghost use Rattle.codes.specs.Answers.{Mends, Sticks};
ghost use Rattle.codes.specs.Cautious.{cautious};
ghost use Rattle.reed_solomon.specs.Disc.{disc_header_code};
ghost use Rattle.coding.specs.Coding.{Codes};
ghost use Rattle.worked_cases.specs.Cases.{line};

// 2 × 128 = 29 and 3 × 3 = 5 in the disc field. Under the header code (6, 4) the line 00 00 00 01 03 02 is a codeword,
// and the message 00 00 01 00 is coded 00 00 01 00 07 06, whatever stood in the last two places.
// With last byte 12 the codeword is mended at one place, and under a cautious line of reach 0 it is stuck.
// 00 00 00 00 01 01 is stuck, and so is 00 00 00 00 3F 3E, whose only wrong place would be -1.
pub fn worked_cases()
    ensures product_with_reduction { disc.mul 2 128 ≡ 29 }
    ensures product_without { disc.mul 3 3 ≡ 5 }
    ensures codeword { Word disc_header_code (line 0 0 0 1 3 2) }
    ensures coded { (a b : ℕ) → Codes disc_header_code 4 (line 0 0 1 0 a b) (line 0 0 1 0 7 6) }
    ensures mended { Mends disc_header_code (line 0 0 0 1 3 18) (line 0 0 0 1 3 2) 1 }
    ensures stuck_by_caution { Sticks (cautious disc_header_code 0) (line 0 0 0 1 3 18) (line 0 0 0 1 3 18) }
    ensures stuck { Sticks disc_header_code (line 0 0 0 0 1 1) (line 0 0 0 0 1 1) }
    ensures stuck_outside { Sticks disc_header_code (line 0 0 0 0 63 62) (line 0 0 0 0 63 62) }
{}
