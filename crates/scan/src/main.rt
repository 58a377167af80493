// Reads a block of a disc from standard input, judges every row and every column of it, decodes each row once, and
// prints the work done.

#![tactic(auto)]

mod listing;

use crate::listing::Unmarked;
use anyhow::Context;
use discs::{DiscCodes, disc_codes};
use job_rules::Kind;
use jobs::Job;
use scanning::{COLUMNS, Judgement, ROWS, count, judge, judging_work};
use std::io::Read;

// A block and one byte more, by which a longer input is told.
const ENOUGH: u64 = (ROWS * COLUMNS + 1) as u64;

fn show(rt: &HostRuntime, judgement: &Judgement) -> anyhow::Result<()> {
    let sound_rows = count(&judgement.rows);
    let other_rows = Unmarked(&judgement.rows);
    println!(rt; "rows: {sound_rows} of {ROWS} are codewords; not: {other_rows}")?;
    let sound_columns = count(&judgement.columns);
    let other_columns = Unmarked(&judgement.columns);
    println!(rt; "columns: {sound_columns} of {COLUMNS} are codewords; not: {other_columns}")?;
    let done = judging_work();
    let symbols = done.symbols;
    let by_rows = done.row_syndromes;
    let by_columns = done.column_syndromes;
    println!(rt;
        "work: {symbols} symbols through {by_rows} syndromes by rows and through {by_columns} by columns"
    )?;
    Ok(())
}

// Decodes each row by itself once, and prints what that came to.
fn mend_rows(rt: &HostRuntime, block: &mut [u8], codewords: usize) -> anyhow::Result<()> {
    let DiscCodes { rows, columns } = disc_codes(rt.alloc()).context("no memory for the codes")?;
    let mut job = Job::new(rows, columns);
    match job.pass(block, Kind::Row) {
        Ok(pass) => {
            let stuck = pass.stuck;
            let bytes = pass.effort.changes;
            let mended = pass
                .effort
                .decodings
                .saturating_sub(codewords as u64)
                .saturating_sub(stuck);
            println!(rt;
                "rows decoded: {codewords} were codewords, {mended} mended at {bytes} bytes, {stuck} stuck"
            )?;
        }
        Err(why) => {
            let number = u8::from(why);
            println!(rt; "refused {number}: the row pass")?;
        }
    }
    Ok(())
}

fn run(rt: &HostRuntime) -> anyhow::Result<()> {
    let mut block = Vec::new(rt.alloc());
    let _ = rt.stdin().take(ENOUGH).read_to_end(&mut block)?;
    match judge(&block) {
        Ok(judgement) => {
            show(rt, &judgement)?;
            mend_rows(rt, &mut block, count(&judgement.rows))
        }
        Err(why) => {
            let number = u8::from(why);
            println!(rt; "refused {number}: {why}")?;
            Ok(())
        }
    }
}

fn main(rt: HostRuntime) -> anyhow::Result<()> {
    run(&rt)
}
