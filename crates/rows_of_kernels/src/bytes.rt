//! Lists that are long enough to be filtered by the bytes of their mask.

use crate::masks::multiples;
use std::alloc::Global;
use std::test::Fail;
use vx_filter::{CompressTable, byte_compress, filter_slice};
use vx_mask::{Mask, Policy};

/// Appends a row for the table, and one for each filter that goes by bytes.
pub(crate) fn add_rows(alloc: Global, rows: &mut Vec<String>) -> Result<(), Fail> {
    rows.push(places(alloc)?)?;
    for (offset, all_bytes) in [(0, false), (0, true), (5, false), (5, true)] {
        rows.push(row(alloc, offset, all_bytes)?)?;
    }
    Ok(())
}

fn row(alloc: Global, offset: usize, all_bytes: bool) -> Result<String, Fail> {
    let mask = Mask::from_buffer(multiples(alloc, offset, 20_000, 7, false)?);
    by_mask(alloc, &mask, all_bytes)
}

fn by_mask(alloc: Global, mask: &Mask, all_bytes: bool) -> Result<String, Fail> {
    let mask = mask.values().ok_or("all rows or none")?;
    let items = numbers(alloc, mask.len())?;
    if items.len() != mask.len() {
        return Err("another length".into());
    }
    if all_bytes {
        let kept = byte_compress(alloc, items.as_slice(), mask)?;
        return kept_row(alloc, "the same by bytes", kept.as_slice());
    }
    let kept = filter_slice(alloc, items.as_slice(), mask, &Policy::vortex())?;
    kept_row(alloc, "20000 by all but each seventh", kept.as_slice())
}

fn places(alloc: Global) -> Result<String, Fail> {
    let table = CompressTable::new(alloc)?;
    let first = table.positions(0b1100_1010);
    let second = table.positions(0b1000_0110);
    Ok(format!(in alloc; "places of two bytes: {first:?} {second:?}")?)
}

/// The numbers from 0 on, each modulo 251.
fn numbers(alloc: Global, count: usize) -> Result<Vec<u8>, Fail> {
    let mut numbers = Vec::with_capacity(alloc, count)?;
    for i in 0..count {
        numbers.push((i % 251) as u8)?;
    }
    Ok(numbers)
}

/// How many of the items stand as the numbers that are no multiples of 7 do, modulo 251.
fn in_their_places(kept: &[u8]) -> usize {
    let mut count = 0;
    for (k, item) in kept.iter().enumerate() {
        let position = k / 6 * 7 + k % 6 + 1;
        if *item == (position % 251) as u8 {
            count += 1;
        }
    }
    count
}

fn kept_row(alloc: Global, name: &str, kept: &[u8]) -> Result<String, Fail> {
    let right = in_their_places(kept);
    Ok(format!(in alloc; "{name}: {} kept, {right} right", kept.len())?)
}
