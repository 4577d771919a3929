//! 200 records of every width, of which each seventh is left out: by every list that a mask keeps,
//! and by three policies.

use crate::masks::multiples;
use std::alloc::Global;
use std::test::Fail;
use vx_bits::NoMemory;
use vx_filter::{filter_slice, filter_vec};
use vx_mask::{Mask, MaskValues, Policy, Ratio};

/// Appends three rows for each of two offsets and three policies.
pub(crate) fn add_rows(alloc: Global, rows: &mut Vec<String>) -> Result<(), Fail> {
    for offset in [0, 3] {
        for ratio in [None, Some(0), Some(2)] {
            for list in ["no list", "indices", "slices"] {
                rows.push(listed(alloc, offset, ratio, list)?)?;
            }
        }
    }
    Ok(())
}

/// A row for the mask with that list, and the policy with that ratio.
fn listed(alloc: Global, offset: usize, ratio: Option<u64>, list: &str) -> Result<String, Fail> {
    let mask = Mask::from_buffer(multiples(alloc, offset, 200, 7, false)?);
    by_ratio(alloc, &mask, ratio, list)
}

fn by_ratio(alloc: Global, mask: &Mask, ratio: Option<u64>, list: &str) -> Result<String, Fail> {
    let policy = policy_of(ratio).ok_or("a fault")?;
    match list {
        "indices" => row(alloc, list, &mask.with_indices(alloc)?, &policy),
        "slices" => row(alloc, list, &mask.with_slices(alloc)?, &policy),
        _ => row(alloc, list, mask, &policy),
    }
}

/// The crate's own policy, or that whose ratios are all this one.
fn policy_of(ratio: Option<u64>) -> Option<Policy> {
    let Some(num) = ratio else {
        return Some(Policy::vortex());
    };
    let mut fields = *Policy::vortex().fields();
    let ratio = Ratio { num, den: 1 };
    fields.dense_w1 = ratio;
    fields.dense_w2 = ratio;
    fields.dense_w4 = ratio;
    fields.dense_w8 = ratio;
    fields.dense_other = ratio;
    fields.cached_indices_max = ratio;
    fields.in_place_min = ratio;
    Policy::try_new(fields).ok()
}

fn row(alloc: Global, name: &str, mask: &Mask, policy: &Policy) -> Result<String, Fail> {
    let mask = mask.values().ok_or("all rows or none")?;
    let ends = ends(alloc, mask, policy)?;
    let counts = counts(alloc, mask, policy)?;
    Ok(format!(in alloc;
        "200 by all but each seventh, {name}: {ends:?}, {:?}",
        counts.as_slice()
    )?)
}

/// How many of 200 records of 1, 2, 4, 8, 16 and 32 bytes are kept, out of place and in a list.
fn counts(
    alloc: Global,
    mask: &MaskValues,
    policy: &Policy,
) -> Result<Vec<(usize, usize)>, NoMemory> {
    let mut counts = Vec::new(alloc);
    for width in [1, 2, 4, 8, 16, 32] {
        counts.push(count_of(alloc, width, mask, policy)?)?;
    }
    Ok(counts)
}

/// How many of 200 records of one width are kept, out of place and in a list.
fn count_of(
    alloc: Global,
    width: usize,
    mask: &MaskValues,
    policy: &Policy,
) -> Result<(usize, usize), NoMemory> {
    match width {
        1 => count(alloc, [0u8; 1], mask, policy),
        2 => count(alloc, [0u8; 2], mask, policy),
        4 => count(alloc, [0u8; 4], mask, policy),
        8 => count(alloc, [0u8; 8], mask, policy),
        16 => count(alloc, [0u8; 16], mask, policy),
        _ => count(alloc, [0u8; 32], mask, policy),
    }
}

/// How many of 200 such items are kept, out of place and in a list.
fn count<T: Copy>(
    alloc: Global,
    item: T,
    mask: &MaskValues,
    policy: &Policy,
) -> Result<(usize, usize), NoMemory> {
    let items = vec![in alloc; item; 200]?;
    if items.len() != mask.len() {
        return Ok((0, 0));
    }
    let kept = filter_slice(alloc, items.as_slice(), mask, policy)?.len();
    Ok((kept, filter_vec(alloc, items, mask, policy)?.len()))
}

/// The first and the last of the numbers below 200 that are kept.
fn ends(alloc: Global, mask: &MaskValues, policy: &Policy) -> Result<Option<(u8, u8)>, NoMemory> {
    let mut items = Vec::new(alloc);
    for i in 0..200u8 {
        items.push(i)?;
    }
    if items.len() != mask.len() {
        return Ok(None);
    }
    let kept = filter_vec(alloc, items, mask, policy)?;
    let first = kept.first().copied();
    Ok(first.zip(kept.last().copied()))
}
