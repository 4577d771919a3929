//! Bits by a mask of other bits, at two offsets.

use crate::masks::{multiples, runs};
use rows_common::text_of;
use std::alloc::Global;
use std::test::Fail;
use vx_bitfilter::{filter_bitbuffer_by_mask, filter_sparse};
use vx_bits::{BitBuffer, NoMemory};
use vx_mask::{Mask, MaskValues};

/// Appends a row for each filter of bits.
pub(crate) fn add_rows(alloc: Global, rows: &mut Vec<String>) -> Result<(), Fail> {
    for n in 0..5 {
        rows.push(row(alloc, n)?)?;
    }
    Ok(())
}

fn row(alloc: Global, n: usize) -> Result<String, Fail> {
    match n {
        0 => without_two(alloc),
        1 => without_fifths(alloc, 5_000),
        2 => without_fifths(alloc, 40_000),
        3 => five(alloc, false),
        _ => five(alloc, true),
    }
}

// A row for a filter by the bits 01011, which may keep their indices.
fn five(alloc: Global, listed: bool) -> Result<String, Fail> {
    let bits = BitBuffer::from_bools(alloc, &[false, true, false, true, true])?;
    let mask = Mask::from_buffer(bits);
    if listed {
        return few(alloc, &mask.with_indices(alloc)?);
    }
    few(alloc, &mask)
}

/// The bits that the mask selects, or else all.
fn filtered(alloc: Global, src: &BitBuffer, mask: &BitBuffer) -> Result<BitBuffer, NoMemory> {
    if src.len() != mask.len() {
        return Ok(src.share());
    }
    filter_bitbuffer_by_mask(alloc, src, mask, mask.true_count())
}

/// The bits from `start` up to `end`, or all.
fn part(bits: &BitBuffer, start: usize, end: usize) -> BitBuffer {
    if start <= end && end <= bits.len() {
        bits.slice(start, end)
    } else {
        bits.share()
    }
}

// 130 bits at offset 3, each third of them set, by all but bits 63 and 64, at offset 5.
fn without_two(alloc: Global) -> Result<String, Fail> {
    let src = multiples(alloc, 3, 130, 3, true)?;
    let mask = runs(alloc, 5, &[(true, 68), (false, 2), (true, 65)])?;
    let name = "130 thirds without 63 and 64";
    seam(alloc, name, &filtered(alloc, &src, &mask)?)
}

fn seam(alloc: Global, name: &str, kept: &BitBuffer) -> Result<String, Fail> {
    let text = text_of(alloc, &part(kept, 62, 65))?;
    let [len, set] = [kept.len(), kept.true_count()];
    Ok(format!(in alloc; "{name}: {len} bits, {set} set, from 62 {text}")?)
}

// So many bits at offset 3, each third of them set, by all but each fifth, at offset 6.
fn without_fifths(alloc: Global, count: usize) -> Result<String, Fail> {
    let src = multiples(alloc, 3, count, 3, true)?;
    let mask = multiples(alloc, 6, count, 5, false)?;
    front(alloc, count, &filtered(alloc, &src, &mask)?)
}

fn front(alloc: Global, count: usize, kept: &BitBuffer) -> Result<String, Fail> {
    let text = text_of(alloc, &part(kept, 0, 12))?;
    let [len, set] = [kept.len(), kept.true_count()];
    Ok(format!(in alloc; "{count} thirds without each fifth: {len} bits, {set} set, {text}")?)
}

// Bits by a mask with few set bits.
fn few(alloc: Global, mask: &Mask) -> Result<String, Fail> {
    let mask = mask.values().ok_or("all rows or none")?;
    let src = BitBuffer::from_bools(alloc, &[true, false, true, true, false])?;
    sparse(alloc, &src, mask)
}

fn sparse(alloc: Global, src: &BitBuffer, mask: &MaskValues) -> Result<String, Fail> {
    if src.len() != mask.len() {
        return Err("another length".into());
    }
    let kept = filter_sparse(alloc, src, mask)?;
    sparse_row(alloc, mask.cached_indices(), &kept)
}

fn sparse_row(alloc: Global, list: Option<&[usize]>, kept: &BitBuffer) -> Result<String, Fail> {
    let text = text_of(alloc, kept)?;
    Ok(format!(in alloc; "10110 by 01011, indices {list:?}: {text}")?)
}
