//! The lists that a mask keeps beside its bits, as a lazy filter holds it.

use crate::arguments::mask_at;
use serde_json::Value;
use std::alloc::Global;
use std::test::Fail;
use vx_bits::NoMemory;
use vx_column::{Array, FilterArray, Layout, NullArray};
use vx_mask::Mask;

/// The mask with its set positions, its runs and its block counts kept beside its bits.
fn keeping(alloc: Global, mask: &Mask) -> Result<Mask, NoMemory> {
    let mask = mask.with_indices(alloc)?;
    mask.with_slices(alloc)?.with_blocks(alloc)
}

/// A lazy filter of nulls by a mask.
fn filter_by(alloc: Global, mask: Mask) -> Result<FilterArray, Fail> {
    let child = NullArray::new(mask.len()).into_array().into_ref(alloc)?;
    Ok(FilterArray::try_new(child, mask)?)
}

/// Appends the set positions, the runs and the block counts, where the mask keeps them.
fn push_cached(lines: &mut String, name: &str, mask: &Mask) -> Result<(), Fail> {
    let (indices, slices) = (mask.cached_indices(), mask.cached_slices());
    writeln!(
        lines,
        "= {name}: {indices:?} {slices:?} {:?}",
        mask.cached_blocks()
    )?;
    Ok(())
}

/// Appends what the mask of a lazy filter keeps.
fn push_column(lines: &mut String, name: &str, column: &Array) -> Result<(), Fail> {
    match column.layout() {
        Layout::Filter(filter) => push_cached(lines, name, filter.mask()),
        _ => Err("another layout".into()),
    }
}

/// Appends what the mask of a lazy filter keeps: of the filter, shared, and as a column.
fn push_filter(lines: &mut String, alloc: Global, filter: FilterArray) -> Result<(), Fail> {
    push_cached(lines, "of the filter", filter.mask())?;
    push_cached(lines, "of the same shared", filter.share().mask())?;
    let column = filter.into_array();
    push_column(lines, "of the column", &column)?;
    push_column(lines, "of the shared column", &*column.into_ref(alloc)?)
}

/// Appends what a mask keeps, and a lazy filter by it.
pub(crate) fn push_kept(lines: &mut String, alloc: Global, row: &Value) -> Result<(), Fail> {
    let mask = keeping(alloc, &mask_at(alloc, row)?)?;
    push_cached(lines, "mask", &mask)?;
    push_filter(lines, alloc, filter_by(alloc, mask)?)
}
