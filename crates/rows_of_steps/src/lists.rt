//! Masks of elements, and filters and takes of lists by plain offsets.

use crate::lines::{push_mask, push_part};
use rows_common::{mask_of, picks_of};
use std::alloc::Global;
use std::test::Fail;
use vx_lists::{element_mask_from_offsets, filter_lists, take_lists};
use vx_mask::{Mask, Policy};

// Where three lists begin, the second of which is empty, and where the last one ends.
const OFFSETS: [u64; 4] = [0, 2, 2, 5];

fn first_list(alloc: Global) -> Result<Mask, Fail> {
    let lists = mask_of(alloc, &[true, false, false])?;
    match lists.values() {
        Some(lists) => Ok(element_mask_from_offsets(alloc, &OFFSETS, lists, (0, 5))?),
        None => Err("no list, or each".into()),
    }
}

fn last_list(alloc: Global) -> Result<Mask, Fail> {
    let lists = mask_of(alloc, &[false, false, true])?;
    match lists.values() {
        Some(lists) => Ok(element_mask_from_offsets(alloc, &OFFSETS, lists, (2, 5))?),
        None => Err("no list, or each".into()),
    }
}

fn push_filter(lines: &mut String, alloc: Global) -> Result<(), Fail> {
    let lists = mask_of(alloc, &[false, false, true])?;
    match lists.values() {
        Some(mask) => {
            let filter = filter_lists(alloc, &OFFSETS, mask, &Policy::vortex())?;
            push_part(lines, "offsets", &filter.offsets)?;
            push_part(lines, "elements", &filter.range)?;
            push_mask(lines, "= ", &filter.mask)
        }
        None => Err("no list, or each".into()),
    }
}

fn push_take(lines: &mut String, alloc: Global) -> Result<(), Fail> {
    let picks = picks_of(alloc, 3, &[Some(2), None, Some(0)])?;
    if picks.bound() > 3 {
        return Err("a pick past the lists".into());
    }
    let take = take_lists(alloc, &OFFSETS, &picks, &Mask::AllTrue(picks.len()))?;
    push_part(lines, "offsets", &take.offsets)?;
    push_part(lines, "runs", &take.runs.as_slice())
}

/// Appends what a call gives of the lists of offsets 0, 2, 2 and 5.
pub(crate) fn push_lists(
    lines: &mut String,
    alloc: Global,
    call: (&str, &str),
) -> Result<(), Fail> {
    match call {
        ("element_mask", "100 of 0..5") => push_mask(lines, "= ", &first_list(alloc)?),
        ("element_mask", "001 of 2..5") => push_mask(lines, "= ", &last_list(alloc)?),
        ("filter_lists", "001") => push_filter(lines, alloc),
        ("take_lists", "2 null 0") => push_take(lines, alloc),
        _ => Err("no such lists".into()),
    }
}
