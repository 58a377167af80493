// Tests of fields, code numbers, checking and coding on examples. Nothing here is used by other crates.

#![tactic(auto)]

use coding::Coder;
use fields::{DiscField, DiscShifts, DiscTables, Field, Gf64};
use reed_solomon::{CodeNumbers, Line, Refusal};

// The numbers of a code, before its field is named.
#[derive(Clone, Copy)]
struct Code {
    length: u64,
    dimension: u64,
    root: u64,
}

impl Code {
    // The code numbers over the field F.
    fn over<F: Field>(self) -> Result<CodeNumbers, Refusal> {
        CodeNumbers::new(
            self.length,
            self.dimension,
            self.root,
            u64::from(F::ELEMENTS),
        )
    }
}

// The number of the refusal that these code numbers get.
fn refused(length: u64, dimension: u64, root: u64, order: u64) -> Option<u8> {
    CodeNumbers::new(length, dimension, root, order)
        .err()
        .map(u8::from)
}

// The numbers of the refusals that a line over F and a coder get from the code numbers of a field of `order` elements.
fn refused_for<F: DiscField>(code: Code, order: u64) -> Result<(Option<u8>, Option<u8>), Refusal> {
    let numbers = CodeNumbers::new(code.length, code.dimension, code.root, order)?;
    let by_line = Line::<F>::new(numbers).err().map(u8::from);
    let by_coder = Coder::<F>::new(numbers).err().map(u8::from);
    Ok((by_line, by_coder))
}

// Is the line a codeword over F? `None` where something was refused.
fn judged<F: Field>(code: Code, line: &[u8]) -> Option<bool> {
    let code = Line::<F>::new(code.over::<F>().ok()?).ok()?;
    code.check(line).ok()
}

// Codes a line in both ways that the disc field computes, and tells whether they agree. `None` where something was refused.
fn coded(code: Code, line: &mut [u8], again: &mut [u8]) -> Option<bool> {
    let tables = Coder::<DiscTables>::new(code.over::<DiscTables>().ok()?).ok()?;
    let shifts = Coder::<DiscShifts>::new(code.over::<DiscShifts>().ok()?).ok()?;
    tables.code(line).ok()?;
    shifts.code(again).ok()?;
    Some(&*line == &*again)
}

// Bytes that look random.
fn scatter(line: &mut [u8], start: u32) {
    let mut state = start;
    for byte in line.iter_mut() {
        state = state.wrapping_mul(1_664_525).wrapping_add(1_013_904_223);
        *byte = (state >> 24) as u8;
    }
}

// How many of the lines that differ from this one at one place are codewords of the disc field.
fn near(code: Code, line: &mut [u8]) -> Option<u32> {
    let mut found = 0u32;
    // By index: the whole line is judged while one of its places differs.
    for p in 0..line.len() {
        let old = line[p];
        line[p] = old ^ 0x5a;
        if judged::<DiscTables>(code, line)? {
            found = found.saturating_add(1);
        }
        line[p] = old;
    }
    Some(found)
}

#[cfg(test)]
mod tests {
    use super::*;

    const SHORT: Code = Code {
        length: 6,
        dimension: 4,
        root: 0,
    };

    const COLUMN: Code = Code {
        length: 208,
        dimension: 192,
        root: 0,
    };

    const MANY_CHECKS: Code = Code {
        length: 208,
        dimension: 176,
        root: 254,
    };

    const FEW_CHECKS: Code = Code {
        length: 208,
        dimension: 205,
        root: 17,
    };

    #[test]
    fn disc_fields_agree(rt: HostRuntime) {
        for a in 0..=255u8 {
            assert!(rt; DiscTables::inverse(a) == DiscShifts::inverse(a));
            for b in 0..=255u8 {
                assert!(rt; DiscTables::product(a, b) == DiscShifts::product(a, b));
            }
        }
    }

    #[test]
    fn numbers_outside_a_field_answer_0(rt: HostRuntime) {
        assert_eq!(rt; Gf64::sum(64, 1), 0);
        assert_eq!(rt; Gf64::product(2, 200), 0);
        assert_eq!(rt; Gf64::inverse(255), 0);
        assert_eq!(rt; Gf64::inverse(0), 0);
        assert_eq!(rt; Gf64::product(2, 32), 3);
    }

    #[test]
    fn limits_of_code_numbers(rt: HostRuntime) {
        assert_eq!(rt; refused(182, 172, 0, 256), None);
        assert_eq!(rt; refused(255, 223, 254, 256), None);
        assert_eq!(rt; refused(255, 222, 0, 256), Some(6));
        assert_eq!(rt; refused(33, 1, 0, 256), None);
        assert_eq!(rt; refused(34, 1, 0, 256), Some(6));
        assert_eq!(rt; refused(6, 0, 0, 256), Some(6));
        assert_eq!(rt; refused(6, 6, 0, 256), Some(6));
        assert_eq!(rt; refused(6, 4, 255, 256), Some(6));
        assert_eq!(rt; refused(63, 60, 0, 64), None);
        assert_eq!(rt; refused(64, 60, 0, 64), Some(6));
        assert_eq!(rt; refused(2, 1, 0, 3), None);
        assert_eq!(rt; refused(2, 1, 0, 2), Some(6));
        assert_eq!(rt; refused(300, 290, 0, 65_536), Some(6));
        assert_eq!(rt; refused(6, 4, 0, 257), Some(6));
        assert_eq!(rt; refused(262, 260, 256, 512), Some(6));
    }

    #[test]
    fn another_field_or_length_is_refused(rt: HostRuntime) {
        assert_eq!(rt;
            refused_for::<DiscTables>(SHORT, 64),
            Ok((Some(6), Some(6)))
        );
        assert_eq!(rt;
            refused_for::<DiscShifts>(SHORT, 64),
            Ok((Some(6), Some(6)))
        );
        assert_eq!(rt; refused_for::<DiscShifts>(SHORT, 256), Ok((None, None)));
        assert_eq!(rt; judged::<DiscTables>(SHORT, &[0, 0, 0, 1, 3]), None);
        assert_eq!(rt;
            judged::<DiscTables>(SHORT, &[0, 0, 0, 1, 3, 2]),
            Some(true)
        );
        assert_eq!(rt;
            judged::<DiscShifts>(SHORT, &[0, 0, 0, 1, 3, 3]),
            Some(false)
        );
    }

    #[test]
    fn symbols_outside_the_alphabet_make_no_codeword(rt: HostRuntime) {
        assert_eq!(rt; judged::<Gf64>(SHORT, &[0, 0, 0, 1, 3, 2]), Some(true));
        assert_eq!(rt; judged::<Gf64>(SHORT, &[0, 0, 0, 0, 0, 0]), Some(true));
        assert_eq!(rt; judged::<Gf64>(SHORT, &[64, 0, 0, 0, 0, 0]), Some(false));
    }

    #[test]
    fn coded_lines_are_codewords(rt: HostRuntime) {
        let mut line = [0u8; 208];
        let mut again = [0u8; 208];
        scatter(&mut line, 1);
        scatter(&mut again, 1);
        assert_eq!(rt; coded(COLUMN, &mut line, &mut again), Some(true));
        assert_eq!(rt; judged::<DiscTables>(COLUMN, &line), Some(true));
        assert_eq!(rt; judged::<DiscShifts>(COLUMN, &line), Some(true));
        assert_eq!(rt; near(COLUMN, &mut line), Some(0));
        assert_eq!(rt; coded(MANY_CHECKS, &mut line, &mut again), Some(true));
        assert_eq!(rt; judged::<DiscTables>(MANY_CHECKS, &line), Some(true));
        assert_eq!(rt; coded(FEW_CHECKS, &mut line, &mut again), Some(true));
        assert_eq!(rt; judged::<DiscTables>(FEW_CHECKS, &line), Some(true));
        assert_eq!(rt; near(FEW_CHECKS, &mut line), Some(0));
    }
}
