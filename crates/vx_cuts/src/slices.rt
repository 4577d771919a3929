//! A slice of the whole, cut into each part's own.
ghost use Rattle.std.specs.Prelude.{◌≡◌, ◌-◌, ◌≤◌, ◌==◌, length, map, nat_le};
ghost use Rattle.std.specs.List.{range_with_len, sum};
ghost use Rattle.vx_cuts.specs.Slices.{IsSliceCut, left_in, row_in, slice_fault};

use crate::answer::{RANGE, untold};
use vx_words::{Answer, DONE, LENGTHS};

// Whether parts of these lengths have so many rows.
fn reaches(lengths: &[usize], end: usize) -> bool
    ensures { result ≡ nat_le end (sum lengths.now) }
{
    let mut left = end;
    for n in lengths {
        left = left.saturating_sub(*n);
    }
    left == 0
}

// Why rows from `start` up to `end` are no slice of the whole, or `DONE`.
fn fault_of_range(lengths: &[usize], start: usize, end: usize) -> u64
    ensures { result ≡ slice_fault lengths.now start end }
{
    if start > end {
        return RANGE;
    }
    if reaches(lengths, end) { DONE } else { RANGE }
}

// Writes for each part its row that row `row` of the whole is, as far as the part goes.
fn put_rows(lengths: &[usize], row: usize, dst: &mut [usize])
    requires { length dst.old ≡ length lengths.now }
    ensures { dst.new ≡ map (row_in lengths.now row) (range_with_len 0 (length lengths.now)) }
{
    let mut left = row;
    for k in 0..lengths.len() {
        dst[k] = left.min(lengths[k]);
        left = left.saturating_sub(lengths[k]);
    }
}

// Writes how far each row lies behind the other.
fn put_left(starts: &[usize], ends: &[usize], left: &mut [usize])
    requires starts { length starts.now ≡ length left.old }
    requires ends { length ends.now ≡ length left.old }
    ensures { left.new ≡ map (left_in starts.now ends.now) (range_with_len 0 (length left.old)) }
{
    for k in 0..left.len() {
        left[k] = ends[k].saturating_sub(starts[k]);
    }
}

/// Cuts the rows from `start` up to `end` of the whole, whose parts have these lengths, into each
/// part's own: part k keeps its rows from `starts[k]` up to `ends[k]`, and has `left[k]` of them
/// left.
///
/// 1: the lists are not all of one length. 5: `start` is past `end`, or `end` past the rows.
pub fn cut_slice(
    lengths: &[usize],
    start: usize,
    end: usize,
    starts: &mut [usize],
    ends: &mut [usize],
    left: &mut [usize],
) -> Answer
    ensures { IsSliceCut lengths.now start end starts.old starts.new ends.old ends.new left.old
        left.new result.status result.value }
{
    if starts.len() != lengths.len() {
        return untold(LENGTHS);
    }
    if ends.len() != lengths.len() {
        return untold(LENGTHS);
    }
    if left.len() != lengths.len() {
        return untold(LENGTHS);
    }
    let fault = fault_of_range(lengths, start, end);
    if fault != DONE {
        return untold(fault);
    }
    put_rows(lengths, start, starts);
    put_rows(lengths, end, ends);
    put_left(starts, ends, left);
    untold(DONE)
}
