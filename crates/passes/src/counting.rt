// Counts over lines and their records.
ghost use Rattle.std.specs.Prelude.{◌≡◌, ◌^◌, ◌<◌, ◌≤◌, length};
ghost use Rattle.codes.specs.Meaning.{differ};
ghost use Rattle.job_rules.specs.Records.{how_many, tallies};

use job_rules::{Record, Standing};

// How many of the records have this standing.
pub fn count_standing(records: &[Record], standing: Standing) -> u64
    ensures count { result ≡ how_many standing records.now }
    ensures few { result ≤ length records.now }
{
    records
        .iter()
        .filter(|record| record.standing == standing)
        .count() as u64
}

// The sum of the tallies of the records.
pub fn sum_tallies(records: &[Record]) -> u64
    requires { tallies records.now < 2 ^ 63 }
    ensures { result ≡ tallies records.now }
{
    records.iter().map(|record| record.tally).sum()
}

// At how many places two lines, or two frames, of one length differ. With the place, and not by pairs: a zip
// asks at each pair whether either of the two has ended.
pub fn differences(one: &[u8], two: &[u8]) -> u64
    requires { length one.now ≡ length two.now }
    ensures { result ≡ differ one.now two.now }
{
    let mut n = 0;
    for (i, a) in one.iter().enumerate() {
        if *a != two[i] {
            n += 1;
        }
    }
    n
}
