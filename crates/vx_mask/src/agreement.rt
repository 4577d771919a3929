//! Whether lists beside bits agree with them.
ghost use Rattle.std.specs.Prelude.{◌≡◌, ◌≤◌, length, true};
ghost use Rattle.std.specs.Bool.{Decides};
ghost use Rattle.vx_mask.specs.Positions.{BeginsWithRun};
ghost use Rattle.vx_mask.specs.MaskValues.{are_set_positions, are_set_runs, parts_fault, passes};

use crate::error::MaskError;
use crate::runs::next_with;
use vx_bits::{BitBuffer, Buffer};

/// Why the parts are no mask that selects some rows and not all, if they are none.
pub(crate) fn fault_of(
    bits: &BitBuffer,
    true_count: usize,
    indices: &Option<Buffer<usize>>,
    slices: &Option<Buffer<(usize, usize)>>,
) -> Option<MaskError>
    ensures { result ≡ parts_fault bits.now.bits true_count indices.now slices.now }
{
    if true_count != bits.true_count() {
        return Some(MaskError::Count);
    }
    if true_count == 0 || true_count == bits.len() {
        return Some(MaskError::NotSelective);
    }
    if !indices_agree(bits, indices) {
        return Some(MaskError::Indices);
    }
    if !slices_agree(bits, slices) {
        return Some(MaskError::Slices);
    }
    None
}

/// Whether the indices, where there are any, are just the set positions.
pub(crate) fn indices_agree(bits: &BitBuffer, indices: &Option<Buffer<usize>>) -> bool
    ensures { result ≡ passes (are_set_positions bits.now.bits) indices.now }
{
    match indices {
        Some(indices) => are_set_positions(bits, indices.as_slice()),
        None => true,
    }
}

/// Whether the slices, where there are any, cover just the set positions, and none is empty.
pub(crate) fn slices_agree(bits: &BitBuffer, slices: &Option<Buffer<(usize, usize)>>) -> bool
    ensures { result ≡ passes (are_set_runs bits.now.bits) slices.now }
{
    match slices {
        Some(slices) => are_set_runs(bits, slices.as_slice()),
        None => true,
    }
}

// Whether each index is the next set position, and none is left.
fn are_set_positions(bits: &BitBuffer, indices: &[usize]) -> bool
    ensures { result ≡ are_set_positions bits.now.bits indices.now }
{
    let mut low = 0;
    for index in indices {
        let next = next_with(bits, low, true);
        if next != *index {
            return false;
        }
        if next == bits.len() {
            return false;
        }
        low = next + 1;
    }
    next_with(bits, low, true) == bits.len()
}

// Whether each run begins with the next set position and has set bits alone, and none is left.
fn are_set_runs(bits: &BitBuffer, slices: &[(usize, usize)]) -> bool
    ensures { result ≡ are_set_runs bits.now.bits slices.now }
{
    let mut low = 0;
    for run in slices {
        if !is_next_run(bits, low, run.0, run.1) {
            return false;
        }
        low = run.1;
    }
    next_with(bits, low, true) == bits.len()
}

// Whether the run is not empty, begins with the first set bit from `low` on, and has set bits
// alone.
fn is_next_run(bits: &BitBuffer, low: usize, start: usize, end: usize) -> bool
    requires { low ≤ length bits.now.bits }
    ensures { Decides result (BeginsWithRun bits.now.bits low start end) }
{
    if start < low || end <= start || end > bits.len() {
        return false;
    }
    if next_with(bits, low, true) != start {
        return false;
    }
    bits.count_range(start, end) == end - start
}
