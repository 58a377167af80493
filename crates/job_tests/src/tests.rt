// Lists of calls, replayed.
use job_rules::{Answer, Call, Effort, Ending, Entry, Kind, Outcome, RunAnswer};
use jobs::replay;
use small_codes::{Repetition, Wordless};

// Replays the list over triple repetition both ways; is the frame called whole? None where a code is not made.
fn whole_over_triples(frame: &mut [u8], list: &mut [Entry]) -> Option<bool> {
    let rows = Repetition::new(3)?;
    let columns = Repetition::new(3)?;
    Some(replay(rows, columns, frame, list).is_whole())
}

// Replays the list over rows of one byte, all codewords, and columns of three bytes, none a codeword; is the frame
// called whole? None where a code is not made.
fn whole_over_wordless(frame: &mut [u8], list: &mut [Entry]) -> Option<bool> {
    let rows = Repetition::new(1)?;
    let columns = Wordless::new(3)?;
    Some(replay(rows, columns, frame, list).is_whole())
}

// The number of the refusal in an entry whose call was refused.
fn refused(entry: &Entry) -> Option<u8> {
    entry.answer?.err().map(u8::from)
}

// What an entry holds after a run that ended so.
fn ran(ending: Ending, passes: u64, decodings: u64, changes: u64) -> Option<Answer> {
    let effort = Effort { decodings, changes };
    Some(Ok(Outcome::Ran(RunAnswer {
        ending,
        passes,
        effort,
    })))
}

#[test]
fn one_wrong_byte_and_a_row_delivered_again(rt: HostRuntime) {
    let mut frame = [0u8, 0, 0, 0, 7, 0, 0, 0, 0];
    let mut list = [
        Entry::from(Call::Run { limit: 8 }),
        Entry::from(Call::Redeliver {
            row: 1,
            bytes: b"\x00\x05\x00",
        }),
        Entry::from(Call::Run { limit: 8 }),
    ];
    assert_eq!(rt; whole_over_triples(&mut frame, &mut list), Some(true));
    assert_eq!(rt; list[0].answer, ran(Ending::Whole, 2, 6, 1));
    assert_eq!(rt; list[2].answer, ran(Ending::Whole, 2, 2, 1));
}

#[test]
fn columns_without_codewords_stay_stuck(rt: HostRuntime) {
    let mut frame = [1u8, 2, 3];
    let mut list = [
        Entry::from(Call::Run { limit: 64 }),
        Entry::from(Call::Redeliver {
            row: 0,
            bytes: b"\x01",
        }),
        Entry::from(Call::Run { limit: 1 }),
    ];
    assert_eq!(rt; whole_over_wordless(&mut frame, &mut list), Some(false));
    assert_eq!(rt; list[0].answer, ran(Ending::Quiet, 2, 4, 0));
    assert_eq!(rt; list[2].answer, ran(Ending::Quiet, 0, 0, 0));
}

#[test]
fn refusals_come_in_their_order(rt: HostRuntime) {
    let mut frame = [0u8; 9];
    let mut list = [
        Entry::from(Call::Run { limit: 0 }),
        Entry::from(Call::Run { limit: 65 }),
        Entry::from(Call::Run { limit: 300 }),
        Entry::from(Call::Run { limit: 64 }),
        Entry::from(Call::Redeliver {
            row: 70000,
            bytes: b"\x00\x00",
        }),
        Entry::from(Call::Redeliver {
            row: 2,
            bytes: b"\x00\x00",
        }),
    ];
    assert_eq!(rt; whole_over_triples(&mut frame, &mut list), Some(true));
    assert_eq!(rt;
        [refused(&list[0]), refused(&list[1]), refused(&list[2])],
        [Some(4), Some(4), Some(4)]
    );
    assert_eq!(rt;
        [refused(&list[3]), refused(&list[4]), refused(&list[5])],
        [None, Some(2), Some(3)]
    );
}

#[test]
fn a_short_frame_comes_first(rt: HostRuntime) {
    let mut frame = [0u8; 8];
    let mut list = [
        Entry::from(Call::Run { limit: 300 }),
        Entry::from(Call::Redeliver {
            row: 3,
            bytes: b"\x00\x00",
        }),
        Entry::from(Call::Pass(Kind::Row)),
    ];
    assert_eq!(rt; whole_over_triples(&mut frame, &mut list), Some(false));
    assert_eq!(rt;
        [refused(&list[0]), refused(&list[1]), refused(&list[2])],
        [Some(1), Some(1), Some(1)]
    );
}
