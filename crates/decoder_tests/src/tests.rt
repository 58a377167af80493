// The tests.
use crate::peterson::peterson;
use crate::samples::{Checks, Dice, codeword, differ, spoil};
use arrayvec::ArrayVec;
use codes::{Cautious, Decoded, LineCode};
use decoder::ReedSolomon;
use fields::{DiscShifts, DiscTables, Field, Gf64};
use reed_solomon::CodeNumbers;
use small_codes::{Repetition, Wordless};
use solving::BerlekampMassey;
use std::alloc::Global;
use std::test::Fail;

// Decodes one line by both decoders: they agree on the answer and on every byte, and one decoding is counted.
fn agree<F: Field>(heap: Global, line: &mut [u8], checks: Checks) -> Option<Decoded> {
    let n = line.len() as u64;
    let numbers = CodeNumbers::new(
        n,
        n.saturating_sub(u64::from(checks.count)),
        u64::from(checks.root),
        u64::from(F::ELEMENTS),
    )
    .ok()?;
    let mut again = ArrayVec::<u8, 255>::try_from(&*line).ok()?;
    let mut code = ReedSolomon::<F, BerlekampMassey>::new(heap, numbers).ok()?;
    let answer = code.decode(line).ok()?;
    let expected = peterson::<F>(again.as_mut_slice(), checks);
    let same = code.decodings() == 1 && answer == expected && again.as_slice() == line;
    same.then_some(answer)
}

// Spoils as many places as `errors` says, or fewer where one comes twice: the first place, the last one, and others.
fn spoil_places<F: Field>(line: &mut [u8], errors: u8, dice: &mut Dice) {
    for i in 0..errors {
        let place = match i {
            0 => 0,
            1 => line.len().saturating_sub(1),
            _ => dice.below(255) as usize % line.len().max(1),
        };
        spoil::<F>(line, place, dice);
    }
}

// One received line: within reach the codeword sent comes back, and beyond it both decoders still agree.
// A yes or no, since nobody reads the line afterwards.
fn trial<F: Field>(heap: Global, sent: &[u8], line: &mut [u8], checks: Checks) -> bool {
    let wrong = differ(sent, line);
    let beyond = wrong > checks.count as usize / 2;
    match agree::<F>(heap, line, checks) {
        None => false,
        Some(None) => beyond,
        Some(Some(places)) => beyond || (places as usize == wrong && sent == line),
    }
}

// Lines of n symbols with 0 to t + 1 errors, and a few more.
fn sweep<F: Field>(heap: Global, n: u8, checks: Checks) -> bool {
    let mut dice = Dice::new(u32::from(n) * 256 + u32::from(checks.root));
    let mut sent = [0; 255];
    let mut line = [0; 255];
    let sent = &mut sent[..n as usize];
    let line = &mut line[..n as usize];
    for errors in 0..checks.count / 2 + 4 {
        codeword::<F>(sent, checks, &mut dice);
        line.copy_from_slice(sent);
        spoil_places::<F>(line, errors, &mut dice);
        if !trial::<F>(heap, sent, line, checks) {
            return false;
        }
    }
    true
}

#[test]
fn disc_codes(rt: HostRuntime) {
    assert!(rt;
        sweep::<DiscTables>(rt.alloc(), 182, Checks { count: 10, root: 0 }),
        "rows"
    );
    assert!(rt;
        sweep::<DiscTables>(rt.alloc(), 208, Checks { count: 16, root: 0 }),
        "columns"
    );
    assert!(rt;
        sweep::<DiscTables>(rt.alloc(), 6, Checks { count: 2, root: 0 }),
        "header"
    );
    assert!(rt;
        sweep::<DiscShifts>(rt.alloc(), 182, Checks { count: 10, root: 0 }),
        "rows, by shifting"
    );
}

#[test]
fn other_first_roots_and_odd_checks(rt: HostRuntime) {
    assert!(rt;
        sweep::<DiscTables>(
            rt.alloc(),
            255,
            Checks {
                count: 16,
                root: 112
            }
        ),
        "first root 112"
    );
    assert!(rt;
        sweep::<DiscTables>(
            rt.alloc(),
            255,
            Checks {
                count: 32,
                root: 254
            }
        ),
        "32 checks, first root 254"
    );
    assert!(rt;
        sweep::<DiscTables>(rt.alloc(), 33, Checks { count: 32, root: 5 }),
        "one message symbol"
    );
    assert!(rt;
        sweep::<DiscTables>(rt.alloc(), 100, Checks { count: 9, root: 3 }),
        "9 checks"
    );
    assert!(rt;
        sweep::<DiscTables>(rt.alloc(), 10, Checks { count: 1, root: 1 }),
        "one check"
    );
}

#[test]
fn field_of_64_elements(rt: HostRuntime) {
    assert!(rt; sweep::<Gf64>(rt.alloc(), 63, Checks { count: 10, root: 1 }));
    assert!(rt; sweep::<Gf64>(rt.alloc(), 24, Checks { count: 4, root: 62 }));
    assert!(rt;
        sweep::<Gf64>(
            rt.alloc(),
            40,
            Checks {
                count: 7,
                root: 254
            }
        )
    );
}

#[test]
fn bytes_outside_the_alphabet(rt: HostRuntime) {
    let mut line = [0; 24];
    line[3] = 64;
    assert!(rt; sweep::<Gf64>(rt.alloc(), 24, Checks { count: 4, root: 1 }));
    assert_eq!(rt;
        agree::<Gf64>(rt.alloc(), &mut line, Checks { count: 4, root: 1 }),
        Some(None)
    );
    assert_eq!(rt; line[3], 64);
}

// What a header line of reach s answers to a line, or the number of its refusal.
fn cautious_header(heap: Global, reach: u64, line: &mut [u8]) -> Result<Decoded, Option<u8>> {
    let numbers = CodeNumbers::new(6, 4, 0, 256).map_err(|why| Some(u8::from(why)))?;
    let code = ReedSolomon::<DiscTables, BerlekampMassey>::new(heap, numbers).map_err(
        |why| Option::from(&why),
    )?;
    let mut code = Cautious::new(code, reach).map_err(|why| Some(u8::from(&why)))?;
    code.decode(line).map_err(|why| Some(u8::from(why)))
}

#[test]
fn header_lines(rt: HostRuntime) {
    let mut line = [0, 0, 0, 1, 3, 0x12];
    assert_eq!(rt;
        cautious_header(rt.alloc(), 0, &mut line),
        Ok(None),
        "beyond the cautious reach"
    );
    assert_eq!(rt; line[5], 0x12);
    assert_eq!(rt; cautious_header(rt.alloc(), 1, &mut line), Ok(Some(1)));
    assert_eq!(rt; line[5], 2);
    assert_eq!(rt;
        cautious_header(rt.alloc(), 0, &mut line),
        Ok(Some(0)),
        "a codeword"
    );
    assert_eq!(rt;
        cautious_header(rt.alloc(), 1, &mut [0, 0, 0, 0, 1, 1]),
        Ok(None)
    );
    assert_eq!(rt;
        cautious_header(rt.alloc(), 1, &mut [0, 0, 0, 0, 0x3f, 0x3e]),
        Ok(None),
        "its wrong place would be -1"
    );
    assert_eq!(rt;
        cautious_header(rt.alloc(), 1, &mut [0, 0, 0, 0, 1]),
        Err(Some(3)),
        "five bytes"
    );
    assert_eq!(rt; cautious_header(rt.alloc(), 2, &mut line), Err(Some(7)));
    assert_eq!(rt;
        cautious_header(rt.alloc(), 18_446_744_073_709_551_615, &mut line),
        Err(Some(7))
    );
}

#[test]
fn repetition(rt: HostRuntime) -> Result<(), Fail> {
    let mut code = Repetition::new(5).ok_or_else(|| Fail::new("length"))?;
    let mut line = [7, 7, 9, 7, 8];
    assert_eq!(rt; code.decode(&mut line), Ok(Some(2)));
    assert_eq!(rt; line[2], 7);
    let mut line = [7, 7, 9, 9, 8];
    assert_eq!(rt; code.decode(&mut line), Ok(None));
    assert_eq!(rt; line[4], 8);
    assert_eq!(rt; code.decodings(), 2);
    Ok(())
}

#[test]
fn no_codewords(rt: HostRuntime) -> Result<(), Fail> {
    let mut code = Wordless::new(2).ok_or_else(|| Fail::new("length"))?;
    assert_eq!(rt; code.decode(&mut [0, 0]), Ok(None));
    assert_eq!(rt; code.decodings(), 1);
    Ok(())
}
