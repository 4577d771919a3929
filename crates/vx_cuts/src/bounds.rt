//! Where each part of a column begins.
ghost use Rattle.std.specs.Prelude.{◌≡◌, ◌+◌, ◌<◌, ◌≤◌, ◌^◌, IfOk, SomeIff, length, slice_index};
ghost use Rattle.std.specs.List.{sum};
ghost use Rattle.vx_cuts.specs.Bounds.{AreBounds, bounds_of, end_of};

use std::alloc::Global;
use vx_bits::NoMemory;

/// The part in which a position of the whole lies, where parts begin and the last one ends at these
/// bounds: of parts that begin together the one that has rows.
pub fn part_of(bounds: &[usize], position: usize) -> usize
    requires bounds { AreBounds bounds.now }
    requires below { position < end_of bounds.now }
    ensures within { result + 1 < length bounds.now }
    ensures low { slice_index bounds.now result ≤ position }
    ensures high { position < slice_index bounds.now (result + 1) }
{
    let mut low = 0;
    let mut high = bounds.len() - 1;
    while low + 1 < high {
        let middle = low + (high - low) / 2;
        if bounds[middle] <= position {
            low = middle;
        } else {
            high = middle;
        }
    }
    low
}

/// Where parts of these lengths begin, and where the last one ends. Fails only with `NoMemory`.
pub fn bounds_of(alloc: Global, lengths: &[usize]) -> Result<Vec<usize>, NoMemory>
    requires { sum lengths.now < 2 ^ 64 }
    ensures { IfOk result (λ bounds. bounds.items ≡ bounds_of lengths.now) }
{
    let mut bounds = Vec::new(alloc);
    let mut end = 0;
    for n in lengths {
        bounds.push(end)?;
        end += *n;
    }
    bounds.push(end)?;
    Ok(bounds)
}

/// How many rows parts of these lengths have; none where a `usize` doesn't count them.
pub fn total_len(lengths: &[usize]) -> Option<usize>
    ensures { SomeIff result (sum lengths.now < 2 ^ 64) (sum lengths.now) }
{
    let mut total: usize = 0;
    for n in lengths {
        match total.checked_add(*n) {
            Some(more) => total = more,
            None => return None,
        }
    }
    Some(total)
}
