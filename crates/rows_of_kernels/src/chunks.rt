//! Filters of numbers that are decoded by chunks, and the calls that they make.
use crate::needs::needs_of;
use rows_common::{mask_of_run, numbers, print_calls};
use std::alloc::Global;
use std::test::Fail;
use vx_bits::NoMemory;
use vx_chunked::{Call, CallLog, Logged, asked_law, filter_chunked_mask};
use vx_mask::{Mask, Policy};
use vx_take::{Picks, gather};

/// A row for each filter.
pub(crate) fn print_rows(rt: &impl Print, alloc: Global) -> Result<(), Fail> {
    print_new_log(rt)?;
    print_bit(rt, alloc, "bit 1500 of 3000", 3000, 1500)?;
    print_bit(rt, alloc, "the first of 3072", 3072, 0)?;
    print_masked(rt, alloc, "all of 1088", &Mask::AllTrue(1088))?;
    print_masked(rt, alloc, "all of 1089", &Mask::AllTrue(1089))?;
    let list = [Some(2047), Some(0), None, Some(2047), Some(1024)];
    print_picked(rt, alloc, 0, 3000, &list)?;
    print_picked(rt, alloc, 1000, 30, &[Some(23), Some(24)])
}

fn print_new_log(rt: &impl Print) -> Result<(), Fail> {
    println!(rt;
        "a log from the start: {} calls",
        CallLog::new().calls().len()
    )?;
    asked_law();
    Ok(())
}

/// Numbers that are kept, and the calls that were made for them.
#[derive(Drop)]
struct Kept {
    numbers: Vec<[u8; 4]>,
    log: CallLog,
}

/// What a filter of the numbers from `offset` on keeps.
fn kept_numbers(alloc: Global, offset: usize, mask: &Mask) -> Result<Kept, Fail> {
    if offset >= 1024 || mask.len() > 3072 - offset {
        return Err("rows past the numbers".into());
    }
    let mut decoder = Logged::new(alloc, numbers(alloc)?, 3)?;
    let numbers = filter_chunked_mask(alloc, &mut decoder, offset, mask, &Policy::vortex())?;
    Ok(Kept {
        numbers,
        log: decoder.into_log(),
    })
}

/// What a filter of the numbers keeps.
fn print_masked(rt: &impl Print, alloc: Global, name: &str, mask: &Mask) -> Result<(), Fail> {
    let kept = kept_numbers(alloc, 0, mask)?;
    let numbers = numbers_in(alloc, kept.numbers.as_slice())?;
    print_kept(rt, name, numbers.as_slice(), kept.log.calls())
}

fn print_kept(rt: &impl Print, name: &str, kept: &[u32], calls: &[Call]) -> Result<(), Fail> {
    let (rows, first) = (kept.len(), kept.first());
    print!(rt; "{name}: {rows} rows, {first:?} first")?;
    print_calls(rt, calls)
}

/// What a filter of the numbers keeps by a single bit.
fn print_bit(
    rt: &impl Print,
    alloc: Global,
    name: &str,
    len: usize,
    bit: usize,
) -> Result<(), Fail> {
    print_masked(rt, alloc, name, &mask_of_run(alloc, len, bit, 1)?)
}

/// The numbers that records are.
fn numbers_in(alloc: Global, records: &[[u8; 4]]) -> Result<Vec<u32>, NoMemory> {
    let mut numbers = Vec::new(alloc);
    for record in records {
        numbers.push(u32::from_le_bytes(*record))?;
    }
    Ok(numbers)
}

/// The numbers at picks, by a filter of those that are needed, with 9 at a null.
fn print_picked(
    rt: &impl Print,
    alloc: Global,
    offset: usize,
    len: usize,
    list: &[Option<usize>],
) -> Result<(), Fail> {
    let needs = needs_of(alloc, len, list)?;
    let kept = kept_numbers(alloc, offset, &needs.mask)?;
    let items = at_ranks(alloc, kept.numbers.as_slice(), &needs.ranks)?;
    print_ranked(rt, list, offset, items.as_slice(), kept.log.calls())
}

fn print_ranked(
    rt: &impl Print,
    list: &[Option<usize>],
    offset: usize,
    items: &[u32],
    calls: &[Call],
) -> Result<(), Fail> {
    print!(rt; "{list:?} from {offset} on: {items:?}")?;
    print_calls(rt, calls)
}

fn at_ranks(alloc: Global, kept: &[[u8; 4]], ranks: &Picks) -> Result<Vec<u32>, Fail> {
    if ranks.bound() > kept.len() {
        return Err("a rank past what was kept".into());
    }
    let records = gather(alloc, kept, ranks, 9u32.to_le_bytes())?;
    Ok(numbers_in(alloc, records.as_slice())?)
}
