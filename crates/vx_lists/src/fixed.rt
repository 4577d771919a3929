//! Lists of one size, filtered and taken: which elements stay.
ghost use Rattle.std.specs.Prelude.{◌≡◌, ◌+◌, ◌*◌, ◌^◌, ◌<◌, ◌≤◌, [], None, IfOk, IfSome, IsSome, length, map, true, vec_len, vec_capacity};
ghost use Rattle.std.specs.List.{All, sum_by};
ghost use Rattle.vx_mask.specs.Mask.{mask_bits, partial_of, slices_fault};
ghost use Rattle.vx_mask.specs.Positions.{run_positions, set_of};
ghost use Rattle.vx_take.specs.Picks.{run_places};
ghost use Rattle.vx_lists.specs.Fixed.{FiltersFixed, TakesFixed, fixed_run, repeat_bits, scaled_run};

use crate::element_mask::runs_of;
use crate::take::{push_last, push_run};
use std::alloc::Global;
use vx_bits::NoMemory;
use vx_mask::{Mask, MaskError, MaskValues, Policy};
use vx_take::Picks;
use vx_types::Runs;

/// The mask of the elements of lists of `size` elements each: each bit of the selection `size`
/// times.
///
/// It keeps the runs of selected elements where `size` is at least `cached_list_size`. More
/// elements than `usize::MAX` give `NoMemory`. Fails only with `NoMemory`.
pub(crate) fn repeated_mask(
    alloc: Global,
    selection: &MaskValues,
    size: usize,
    policy: &Policy,
) -> Result<Mask, NoMemory>
    ensures bits { IfOk result (λ m. mask_bits m ≡ repeat_bits size selection.now.bits.bits) }
    ensures lists { IfOk result
        (λ m. FiltersFixed size selection.now.bits.bits (mask_bits m)) }
    ensures slices { policy.now.cached_list_size ≤ size
        → IfOk result (λ m. IfSome (partial_of m) (λ p. IsSome p.slices)) }
{
    let cached = policy.fields().cached_list_size;
    let len = selection.len().checked_mul(size).ok_or(NoMemory)?;
    element_mask(alloc, selection, size, len, cached)
}

// The mask of the `len` elements of lists of `size` elements each: each bit of the selection `size`
// times. It keeps the runs of selected elements where `size` is at least `cached`.
fn element_mask(
    alloc: Global,
    selection: &MaskValues,
    size: usize,
    len: usize,
    cached: usize,
) -> Result<Mask, NoMemory>
    requires { len ≡ length selection.now.bits.bits * size }
    ensures bits { IfOk result (λ m. mask_bits m ≡ repeat_bits size selection.now.bits.bits) }
    ensures slices { cached ≤ size
        → IfOk result (λ m. IfSome (partial_of m) (λ p. IsSome p.slices)) }
{
    if size == 0 {
        return Ok(Mask::AllFalse(0));
    }
    if size >= cached {
        return by_runs(alloc, selection, size, len);
    }
    if size == 1 {
        return Ok(Mask::Values(selection.share()));
    }
    let mask = by_runs(alloc, selection, size, len)?;
    Ok(bits_alone(mask))
}

// The mask of the `len` elements of lists of `size` elements each, by the runs of the selection. It
// keeps the runs of selected elements.
fn by_runs(alloc: Global, selection: &MaskValues, size: usize, len: usize) -> Result<Mask, NoMemory>
    requires some { 0 < size }
    requires len { len ≡ length selection.now.bits.bits * size }
    ensures bits { IfOk result (λ m. mask_bits m ≡ repeat_bits size selection.now.bits.bits) }
    ensures slices { IfOk result (λ m. IfSome (partial_of m) (λ p. IsSome p.slices)) }
{
    let mask = Mask::Values(selection.share()).with_slices(alloc)?;
    let runs = scaled(alloc, runs_of(&mask), size, selection.len())?;
    mask_of_runs(alloc, len, runs)
}

// The elements of runs of lists, which lie among the first `rows` lists.
fn scaled(
    alloc: Global,
    runs: &[(usize, usize)],
    size: usize,
    rows: usize,
) -> Result<Vec<(usize, usize)>, NoMemory>
    requires none_empty { All (λ run. run.0 < run.1) runs.now }
    requires inside { All (λ run. run.1 ≤ rows) runs.now }
    requires fits { rows * size < 2 ^ 64 }
    ensures { IfOk result (λ scaled. scaled.items ≡ map (scaled_run size) runs.now) }
{
    let mut scaled = Vec::with_capacity(alloc, runs.len())?;
    for run in runs {
        scaled.push_reserved((run.0 * size, run.1 * size));
    }
    Ok(scaled)
}

// The mask of runs that ascend, which it keeps.
fn mask_of_runs(alloc: Global, len: usize, runs: Vec<(usize, usize)>) -> Result<Mask, NoMemory>
    requires { slices_fault len runs.items ≡ None }
    ensures set { IfOk result (λ m. set_of (mask_bits m) ≡ run_positions runs.items) }
    ensures len { IfOk result (λ m. length (mask_bits m) ≡ len) }
    ensures slices { IfOk result (λ m. IfSome (partial_of m) (λ p. IsSome p.slices)) }
{
    match Mask::from_slices(alloc, len, runs) {
        Ok(mask) => Ok(mask),
        Err(MaskError::NoMemory) => Err(NoMemory),
        Err(_) => unreachable!(),
    }
}

// The mask of the same bits, which keeps nothing beside them.
fn bits_alone(mask: Mask) -> Mask
    ensures { mask_bits result ≡ mask_bits mask }
{
    match mask {
        Mask::Values(values) => Mask::from_buffer(values.bits().share()),
        other => other,
    }
}

/// What a take of lists of one size leaves: the runs of old elements that are the new ones, or so
/// many elements of any value where there is no old list.
#[derive(Drop)]
pub(crate) struct FixedTake {
    /// The new elements, as runs of old ones, each its start and its length.
    pub runs: Runs,
    /// The number of elements that stand in their place.
    pub filler: usize,
}

/// The lists of `size` elements each at the picks of `rows` such lists, in order, and list 0 at a
/// null.
///
/// Where there is no list, each pick is a null, and has `size` elements of filler. Runs that lie
/// one behind the other are joined, and there is none of lists of size 0. More elements than
/// `usize::MAX` give `NoMemory`. Fails only with `NoMemory`.
pub(crate) fn take_fixed(
    alloc: Global,
    size: usize,
    rows: usize,
    picks: &Picks,
) -> Result<FixedTake, NoMemory>
    requires bound { picks.now.bound ≤ rows }
    requires fits { rows * size < 2 ^ 64 }
    ensures lists { 0 < rows
        → IfOk result (λ take. TakesFixed size rows picks.now.picks take.runs) }
    ensures elements { IfOk result
        (λ take. sum_by (λ run. run.1) take.runs + take.filler ≡ length picks.now.picks * size) }
    ensures filler { 0 < rows → IfOk result (λ take. take.filler ≡ 0) }
    ensures none { rows ≡ 0 → IfOk result (λ take. take.runs ≡ []) }
    ensures inside { IfOk result (λ take. All (λ run. run.0 + run.1 ≤ rows * size) take.runs) }
{
    // Each pick is a list.
    let _ = picks.bound();
    let total = picks.len().checked_mul(size).ok_or(NoMemory)?;
    if rows == 0 {
        return Ok(FixedTake {
            runs: Runs::from_vec(Vec::new(alloc)),
            filler: total,
        });
    }
    let runs = fixed_runs(alloc, size, rows, picks)?;
    Ok(FixedTake { runs, filler: 0 })
}

// The runs of the picked lists, of which there are some.
fn fixed_runs(alloc: Global, size: usize, rows: usize, picks: &Picks) -> Result<Runs, NoMemory>
    requires some { 0 < rows }
    requires bound { picks.now.bound ≤ rows }
    requires fits { rows * size < 2 ^ 64 }
    ensures places { IfOk result
        (λ runs. run_places runs ≡ run_places (map (fixed_run size) picks.now.picks)) }
    ensures inside { IfOk result (λ runs. All (λ run. run.0 + run.1 ≤ rows * size) runs) }
{
    let len = picks.len();
    let mut runs = Vec::with_capacity(alloc, len.checked_add(1).ok_or(NoMemory)?)?;
    let mut last = (0, 0);
    for k in 0..len {
        let run = fixed_run(picks.get(k), size, rows);
        last = push_run(&mut runs, last, run, true);
    }
    push_last(&mut runs, last);
    Ok(Runs::from_vec(runs))
}

// The elements of a picked list: their start, and how many they are. Those of list 0 at a null.
#[inline(always)]
fn fixed_run(pick: Option<usize>, size: usize, rows: usize) -> (usize, usize)
    requires some { 0 < rows }
    requires below { IfSome pick (λ i. i < rows) }
    requires fits { rows * size < 2 ^ 64 }
    ensures value { result ≡ fixed_run size pick }
    ensures inside { result.0 + result.1 ≤ rows * size }
{
    // Only the contract speaks of it.
    let _ = rows;
    match pick {
        None => (0, size),
        Some(i) => (i * size, size),
    }
}
