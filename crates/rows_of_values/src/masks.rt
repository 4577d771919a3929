//! Masks from positions, from runs and from bits.

use crate::text::{kept, rows_of, shown};
use std::alloc::Global;
use std::test::Fail;
use vx_bits::{BitBuffer, NoMemory};
use vx_mask::{Mask, MaskError, indices_law, slices_law};

/// A row for a way to make a mask, for a refusal, or for what masks keep.
pub(crate) fn row(alloc: Global, n: usize) -> Result<String, Fail> {
    match n {
        0 => by_positions(alloc),
        1 => by_runs(alloc, "5 rows in [(1, 2), (3, 5)]: ", &[(1, 2), (3, 5)]),
        2 => by_runs(
            alloc,
            "5 rows in [(1, 2), (3, 4), (4, 5)]: ",
            &[(1, 2), (3, 4), (4, 5)],
        ),
        3 => wrong_positions(alloc, "5 rows at [3, 3]", &[3, 3]),
        4 => wrong_positions(alloc, "5 rows at [4, 3]", &[4, 3]),
        5 => wrong_positions(alloc, "5 rows at [4, 5]", &[4, 5]),
        6 => wrong_runs(alloc, "5 rows in [(0, 1), (1, 1)]", &[(0, 1), (1, 1)]),
        7 => wrong_runs(alloc, "5 rows in [(0, 2), (1, 3)]", &[(0, 2), (1, 3)]),
        8 => wrong_runs(alloc, "5 rows in [(0, 1), (4, 6)]", &[(0, 1), (4, 6)]),
        9 => with_all(alloc),
        _ => intersected(alloc),
    }
}

/// The mask of rows at these positions.
pub(crate) fn at(alloc: Global, len: usize, indices: &[usize]) -> Result<Mask, MaskError> {
    Mask::from_indices(alloc, len, owned(alloc, indices)?)
}

/// The mask of rows in these runs.
pub(crate) fn within(
    alloc: Global,
    len: usize,
    runs: &[(usize, usize)],
) -> Result<Mask, MaskError> {
    Mask::from_slices(alloc, len, owned(alloc, runs)?)
}

fn owned<T: Copy>(alloc: Global, items: &[T]) -> Result<Vec<T>, NoMemory> {
    Ok(Vec::from_slice(alloc, items)?)
}

fn by_positions(alloc: Global) -> Result<String, Fail> {
    indices_law();
    described(alloc, "5 rows at 1 3 4: ", &at(alloc, 5, &[1, 3, 4])?)
}

fn by_runs(alloc: Global, name: &str, runs: &[(usize, usize)]) -> Result<String, Fail> {
    slices_law();
    with_slices(alloc, name, &within(alloc, 5, runs)?)
}

fn with_slices(alloc: Global, name: &str, mask: &Mask) -> Result<String, Fail> {
    described(alloc, name, &mask.with_slices(alloc)?)
}

/// A row for a mask of five rows.
fn described(alloc: Global, name: &str, mask: &Mask) -> Result<String, Fail> {
    let mut start = rows_of(alloc, name, mask)?;
    start.push_str(", ")?;
    kept(alloc, start.as_str(), mask)
}

fn wrong_positions(alloc: Global, name: &str, indices: &[usize]) -> Result<String, Fail> {
    shown(alloc, name, &at(alloc, 5, indices).err())
}

fn wrong_runs(alloc: Global, name: &str, runs: &[(usize, usize)]) -> Result<String, Fail> {
    shown(alloc, name, &within(alloc, 5, runs).err())
}

/// A row for the bits 01011 with each list.
fn with_all(alloc: Global) -> Result<String, Fail> {
    let bits = BitBuffer::from_bools(alloc, &[false, true, false, true, true])?;
    let mask = with_two(alloc, &Mask::from_buffer(bits))?;
    with_blocks(alloc, &mask)
}

/// The mask with its indices and its slices.
fn with_two(alloc: Global, mask: &Mask) -> Result<Mask, NoMemory> {
    mask.with_indices(alloc)?.with_slices(alloc)
}

fn with_blocks(alloc: Global, mask: &Mask) -> Result<String, Fail> {
    kept(alloc, "01011 with all lists: ", &mask.with_blocks(alloc)?)
}

fn intersected(alloc: Global) -> Result<String, Fail> {
    let mask = at(alloc, 5, &[1, 3, 4])?;
    by_rank(alloc, &mask, &at(alloc, 3, &[0, 2])?)
}

fn by_rank(alloc: Global, mask: &Mask, other: &Mask) -> Result<String, Fail> {
    if other.len() != mask.true_count() {
        return Err("not a bit for each selected row".into());
    }
    let both = mask.intersect_by_rank(alloc, other)?;
    rows_of(alloc, "01011 by rank with 101: ", &both)
}
