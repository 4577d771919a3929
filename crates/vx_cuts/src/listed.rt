//! The bounds of parts, written to a list of the caller's.
ghost use Rattle.std.specs.Prelude.{◌≡◌, ◌≢◌, ◌+◌, ◌^◌, ◌<◌, length};
ghost use Rattle.std.specs.List.{sum};
ghost use Rattle.vx_cuts.specs.Bounds.{bounds_of};
ghost use Rattle.vx_cuts.specs.Listed.{AreBoundsListed, bounds_fault};

use crate::answer::{TOO_MANY, untold};
use crate::bounds::total_len;
use vx_words::{Answer, DONE, LENGTHS};

// Why the bounds of parts of these lengths do not fill a list of so many, or `DONE`.
fn fault_of(lengths: &[usize], room: usize) -> u64
    ensures { result ≡ bounds_fault lengths.now room }
{
    if room == 0 {
        return LENGTHS;
    }
    if room - 1 != lengths.len() {
        return LENGTHS;
    }
    match total_len(lengths) {
        Some(_) => DONE,
        None => TOO_MANY,
    }
}

// Writes where each part begins, and where the last one ends.
fn put_bounds(lengths: &[usize], bounds: &mut [usize])
    requires counted { sum lengths.now < 2 ^ 64 }
    requires room { length bounds.old ≡ length lengths.now + 1 }
    ensures { bounds.new ≡ bounds_of lengths.now }
{
    let mut end = 0;
    bounds[0] = 0;
    for k in 0..lengths.len() {
        end += lengths[k];
        bounds[k + 1] = end;
    }
}

/// Writes where each part of these lengths begins, and where the last one ends, to `bounds`. The
/// answer is how many rows they have.
///
/// 1: `bounds` is not one longer than `lengths`. 7: the parts have more rows than 64 bits count.
pub fn list_bounds(lengths: &[usize], bounds: &mut [usize]) -> Answer
    ensures { AreBoundsListed lengths.now bounds.old bounds.new result.status result.value }
{
    let fault = fault_of(lengths, bounds.len());
    if fault != DONE {
        return untold(fault);
    }
    put_bounds(lengths, bounds);
    Answer {
        status: DONE,
        value: bounds[lengths.len()] as u64,
    }
}
