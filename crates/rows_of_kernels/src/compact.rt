//! Items to the front of another list, which has room for more.

use std::alloc::Global;
use std::test::Fail;
use vx_filter::{compact_runs, compact_words};

/// Appends two rows for a word of single bits, and two for one with a run up to its last bit.
pub(crate) fn add_rows(alloc: Global, rows: &mut Vec<String>) -> Result<(), Fail> {
    for n in 0..4 {
        rows.push(row(alloc, n)?)?;
    }
    Ok(())
}

fn row(alloc: Global, n: usize) -> Result<String, Fail> {
    match n {
        0 => by_words(alloc),
        1 => by_runs(alloc),
        2 => long_run(alloc),
        _ => full_word(alloc),
    }
}

const FIVE: [u16; 5] = [10, 20, 30, 40, 50];

fn by_words(alloc: Global) -> Result<String, Fail> {
    let mut front = [9; 4];
    let count = compact_words(&FIVE, &[0b01101], &mut front);
    Ok(format!(in alloc; "to the front by words: {count}, {front:?}")?)
}

fn by_runs(alloc: Global) -> Result<String, Fail> {
    let mut front = [9; 4];
    let count = compact_runs(&FIVE, &[0b01101], &mut front);
    Ok(format!(in alloc; "by runs: {count}, {front:?}")?)
}

/// The numbers below 64.
fn numbers() -> [u8; 64] {
    let mut numbers = [0; 64];
    for n in 0..64u8 {
        numbers[n as usize] = n;
    }
    numbers
}

fn long_run(alloc: Global) -> Result<String, Fail> {
    let mut front = [99; 66];
    let count = compact_runs(&numbers(), &[0xffff_c000_0000_0000], &mut front);
    let front = front[..20].to_vec(alloc)?;
    Ok(format!(in alloc; "0 to 63, the last 18: {count}, {:?}", front.as_slice())?)
}

fn full_word(alloc: Global) -> Result<String, Fail> {
    let mut front = [99; 66];
    let count = compact_words(&numbers(), &[u64::MAX], &mut front);
    let [first, last, behind] = [front[0], front[63], front[64]];
    Ok(format!(in alloc; "all of them: {count}, {first} to {last}, then {behind}")?)
}
