//! Runs of places that follow one another.
ghost use Rattle.std.specs.Prelude.{◌≡◌, ◌-◌, ◌^◌, ◌≤◌, ◌++◌, ◌∷◌, [], IfNone, IfSome, OnOk, length};
ghost use Rattle.std.specs.List.{range_with_len};
ghost use Rattle.vx_runs.specs.Runs.{run_places};

use std::alloc::{AllocError, Global};

/// Places that follow one another.
#[derive(Clone, Copy)]
pub struct Run {
    /// The first one.
    pub start: u64,
    /// How many they are.
    pub len: u64,
}

/// Returns how many places runs have together; none past 64 bits.
#[inline(never)]
pub fn run_len(runs: &[Run]) -> Option<u64>
    ensures len { IfSome result (λ n. n ≡ length (run_places runs.now)) }
    ensures long { IfNone result (2 ^ 64 ≤ length (run_places runs.now)) }
{
    let mut len = 0u64;
    for k in 0..runs.len() {
        len = len.checked_add(runs[k].len)?;
    }
    Some(len)
}

/// Pushes the places from `start` to `end`. Fails only if memory runs out.
#[inline(always)]
pub fn push_range(places: &mut Vec<u64>, start: u64, end: u64) -> Result<(), AllocError>
    requires { start ≤ end }
    ensures { OnOk result
        (places.new.items ≡ places.old.items ++ range_with_len start (end - start)) }
{
    places.reserve((end - start) as usize)?;
    for place in start..end {
        places.push_reserved(place);
    }
    Ok(())
}

/// Returns the places of runs. Fails if memory runs out or a run doesn't end below 2^64.
pub fn places_of(alloc: Global, runs: &[Run]) -> Option<Vec<u64>>
    ensures { IfSome result (λ v. v.items ≡ run_places runs.now) }
{
    let mut places = Vec::new(alloc);
    for k in 0..runs.len() {
        let run = runs[k];
        let end = run.start.checked_add(run.len)?;
        if push_range(&mut places, run.start, end).is_err() {
            return None;
        }
    }
    Some(places)
}

/// Returns the run that the places are, if each follows the one before it. `None` if there are no
/// places.
pub fn run_of(places: &[u64]) -> Option<Run>
    ensures { IfSome result (λ run. run_places (run ∷ []) ≡ places.now) }
{
    let last = places.len().checked_sub(1)?;
    let start = places[0];
    // Most lists that aren't a run have another last place.
    if start.checked_add(last as u64)? != places[last] {
        return None;
    }
    for k in 0..places.len() {
        if places[k] != start + k as u64 {
            return None;
        }
    }
    Some(Run {
        start,
        len: places.len() as u64,
    })
}
