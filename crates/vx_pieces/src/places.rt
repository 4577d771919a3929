//! The positions in runs.
ghost use Rattle.std.specs.Prelude.{◌≡◌, ◌+◌, ◌-◌, ◌++◌, ◌<◌, ◌≤◌, ◌^◌, All, IfOk, OnOk, Some, map, min, sum_by};
ghost use Rattle.std.specs.List.{range_with_len};
ghost use Rattle.vx_take.specs.Picks.{run_places};

use std::alloc::Global;
use vx_bits::NoMemory;
use vx_column::Runs;
use vx_take::Picks;

/// How many positions the runs have, each its start and its length; `usize::MAX` where they have
/// more.
pub fn total_len(runs: &[(usize, usize)]) -> usize
    ensures { result ≡ min (sum_by (λ run. run.1) runs.now) (2 ^ 64 - 1) }
{
    let mut total: usize = 0;
    for run in runs {
        total = total.saturating_add(run.1);
    }
    total
}

// Appends the positions in a run. Fails only with `NoMemory`.
#[tactic(auto, using(crate::proofs::RunPlaces::places_in_runs))]
fn push_places(places: &mut Vec<usize>, start: usize, len: usize) -> Result<(), NoMemory>
    requires { start + len < 2 ^ 64 }
    ensures { OnOk result (places.new.items ≡ places.old.items ++ range_with_len start len) }
{
    for k in 0..len {
        places.push(start + k)?;
    }
    Ok(())
}

// The positions in the runs, one run after another, of `len` rows. Fails only with `NoMemory`.
#[tactic(auto, using(crate::proofs::RunPlaces::places_in_runs))]
fn places_in(alloc: Global, runs: &[(usize, usize)], len: usize) -> Result<Vec<usize>, NoMemory>
    requires { All (λ run. run.0 + run.1 ≤ len) runs.now }
    ensures { IfOk result (λ places. places.items ≡ run_places runs.now) }
{
    // Only the contract speaks of it.
    let _ = len;
    let mut places = Vec::with_capacity(alloc, total_len(runs))?;
    for run in runs {
        push_places(&mut places, run.0, run.1)?;
    }
    Ok(places)
}

/// The positions in the runs, one run after another, as picks from `len` rows. Fails only with
/// `NoMemory`.
#[tactic(auto, using(crate::proofs::RunPlaces::places_below))]
pub fn run_picks(alloc: Global, runs: &Runs, len: usize) -> Result<Picks, NoMemory>
    requires { All (λ run. run.0 + run.1 ≤ len) runs.now }
    ensures { IfOk result
        (λ p. p ≡ record { picks = map Some (run_places runs.now); bound = len }) }
{
    let places = places_in(alloc, runs.as_slice(), len)?;
    Ok(Picks::from_vec(places, len))
}
