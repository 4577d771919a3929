//! A take of lists: new offsets, and the runs of the elements that they cut.
ghost use Rattle.std.specs.Prelude.{◌≡◌, ℕ, ◌+◌, ◌^◌, ◌<◌, ◌≤◌, ◌++◌, [], ◌∷◌, IfOk, IfSome, None, length, map, replicate, slice_index_or, vec_len, vec_capacity, if◌then◌else◌};
ghost use Rattle.std.specs.List.{All, range_with_len, sum_by};
ghost use Rattle.std.specs.Option.{option_copied};
ghost use Rattle.vx_mask.specs.Mask.{mask_bits};
ghost use Rattle.vx_take.specs.Picks.{run_places};
ghost use Rattle.vx_lists.specs.Lists.{AreOffsets, last_offset, row_count};
ghost use Rattle.vx_lists.specs.Sums.{offsets_of};
ghost use Rattle.vx_lists.specs.Takes.{FitsOffsets, IsListTake, TakesLists, picked_length, picked_run, shown_by, shown_picks};

use std::alloc::Global;
use vx_bits::{BitBuffer, NoMemory};
use vx_mask::Mask;
use vx_take::Picks;
use vx_types::Runs;

/// What a take of lists leaves: new offsets, and the runs of old elements that they cut.
#[derive(Drop)]
pub struct ListTake {
    /// The new offsets, from 0 on.
    pub offsets: Vec<u64>,
    /// The new elements, as runs of old ones, each its start and its length.
    pub runs: Runs,
}

/// The lists at the picks, in order, empty at a null and where `present` says that the row of a
/// pick is null.
///
/// The offsets are running sums of the lengths of the lists that are taken. The runs of picks of
/// which each is the row behind the one before are joined, and there is none of an empty list. More
/// elements than `usize::MAX` give `NoMemory`. Fails only with `NoMemory`.
pub fn take_lists(
    alloc: Global,
    offsets: &[u64],
    picks: &Picks,
    present: &Mask,
) -> Result<ListTake, NoMemory>
    requires { FitsOffsets offsets.now picks.now (mask_bits present.now) }
    ensures lists { IfOk result (λ take. TakesLists offsets.now
        (shown_picks (mask_bits present.now) picks.now.picks) take.offsets.items take.runs) }
    ensures sums { IfOk result (λ take. take.offsets.items ≡ offsets_of
        (map (picked_length offsets.now) (shown_picks (mask_bits present.now) picks.now.picks))) }
    ensures elements { IfOk result
        (λ take. sum_by (λ run. run.1) take.runs ≡ last_offset take.offsets.items) }
    ensures inside { IfOk result
        (λ take. All (λ run. run.0 + run.1 ≤ last_offset offsets.now) take.runs) }
{
    // Each pick is a row.
    let _ = picks.bound();
    taken_where(alloc, offsets, picks, present)
}

/// The lists at the picks, as [`take_lists`] returns them, with a loop of its own for rows that are
/// all there.
pub(crate) fn taken_where(
    alloc: Global,
    offsets: &[u64],
    picks: &Picks,
    present: &Mask,
) -> Result<ListTake, NoMemory>
    requires { FitsOffsets offsets.now picks.now (mask_bits present.now) }
    ensures { IfOk result (λ take. IsListTake offsets.now
        (shown_picks (mask_bits present.now) picks.now.picks) take.offsets.items take.runs) }
{
    match present {
        Mask::AllTrue(_) => taken(alloc, offsets, picks, None),
        Mask::AllFalse(len) => all_empty(alloc, *len),
        Mask::Values(values) => taken(alloc, offsets, picks, Some(values.bits())),
    }
}

// So many empty lists.
fn all_empty(alloc: Global, len: usize) -> Result<ListTake, NoMemory>
    ensures offsets { IfOk result (λ take. take.offsets.items ≡ replicate (len + 1) 0) }
    ensures runs { IfOk result (λ take. take.runs ≡ []) }
{
    let count = len.checked_add(1).ok_or(NoMemory)?;
    Ok(ListTake {
        offsets: vec![in alloc; 0; count]?,
        runs: Runs::from_vec(Vec::new(alloc)),
    })
}

// The lists at the picks, empty at a null and where there are bits and that of the pick is clear.
#[inline(always)]
fn taken(
    alloc: Global,
    offsets: &[u64],
    picks: &Picks,
    present: Option<&BitBuffer>,
) -> Result<ListTake, NoMemory>
    requires offsets { AreOffsets offsets.now }
    requires bound { picks.now.bound ≤ row_count offsets.now }
    requires long { IfSome (option_copied present)
        (λ b. length b.bits ≡ length picks.now.picks) }
    ensures { IfOk result (λ take. IsListTake offsets.now
        (shown_by (option_copied present.entry) picks.now.picks) take.offsets.items take.runs) }
{
    // Each pick is a row.
    let _ = picks.bound();
    let len = picks.len();
    let room = len.checked_add(1).ok_or(NoMemory)?;
    let mut sums = Vec::with_capacity(alloc, room)?;
    let mut runs = Vec::with_capacity(alloc, room)?;
    let mut total = 0;
    let mut last = (0, 0);
    let mut next = 0;
    sums.push_reserved(0);
    for k in 0..len {
        let pick = shown_pick(picks, present, k);
        let run = picked_run(offsets, pick);
        total = sum_of(total, run.1)?;
        last = push_run(&mut runs, last, run, pick == Some(next));
        next = row_behind(pick, next);
        sums.push_reserved(total);
    }
    push_last(&mut runs, last);
    Ok(ListTake {
        offsets: sums,
        runs: Runs::from_vec(runs),
    })
}

// The sum, where it is at most `usize::MAX`.
#[inline(always)]
fn sum_of(total: u64, length: usize) -> Result<u64, NoMemory>
    ensures { IfOk result (λ sum. sum ≡ total + length) }
{
    total.checked_add(length as u64).ok_or(NoMemory)
}

// Pick `k`, and none where its bit is clear.
#[inline(always)]
fn shown_pick(picks: &Picks, present: Option<&BitBuffer>, k: usize) -> Option<usize>
    requires within { k < length picks.now.picks }
    requires long { IfSome (option_copied present)
        (λ b. length b.bits ≡ length picks.now.picks) }
    ensures value { result
        ≡ slice_index_or (shown_by (option_copied present.entry) picks.now.picks) k None }
    ensures below { IfSome result (λ i. i < picks.now.bound) }
{
    match present {
        None => picks.get(k),
        Some(bits) => { if bits.value(k) { picks.get(k) } else { None } }
    }
}

// The row behind a pick; at a null the one that it was before.
#[inline(always)]
fn row_behind(pick: Option<usize>, before: usize) -> usize {
    match pick {
        Some(row) => row.saturating_add(1),
        None => before,
    }
}

// The elements of a picked list: their start, and how many they are. None at a null.
#[inline(always)]
fn picked_run(offsets: &[u64], pick: Option<usize>) -> (usize, usize)
    requires offsets { AreOffsets offsets.now }
    requires below { IfSome pick (λ i. i < row_count offsets.now) }
    ensures value { result ≡ picked_run offsets.now pick }
    ensures length { result.1 ≡ picked_length offsets.now pick }
    ensures inside { result.0 + result.1 ≤ last_offset offsets.now }
{
    match pick {
        None => (0, 0),
        Some(i) => {
            let start = offsets[i];
            (start as usize, (offsets[i + 1] - start) as usize)
        }
    }
}

/// Puts a run behind the last one: joined with it where it begins at its end and may be, else the
/// last one goes to the runs before it, for which there is room. Gives the run that is the last one
/// then.
#[inline(always)]
pub(crate) fn push_run(
    runs: &mut Vec<(usize, usize)>,
    last: (usize, usize),
    run: (usize, usize),
    may_join: bool,
) -> (usize, usize)
    requires room { vec_len runs.old < vec_capacity runs.old }
    requires end { last.0 + last.1 < 2 ^ 64 }
    requires next_end { run.0 + run.1 < 2 ^ 64 }
    ensures places { run_places (runs.new.items ++ result ∷ [])
        ≡ run_places (runs.old.items ++ last ∷ []) ++ range_with_len run.0 run.1 }
    ensures inside { (n : ℕ) → run.0 + run.1 ≤ n
        → All (λ r. r.0 + r.1 ≤ n) (runs.old.items ++ last ∷ [])
        → All (λ r. r.0 + r.1 ≤ n) (runs.new.items ++ result ∷ []) }
    ensures count { vec_len runs.new ≤ vec_len runs.old + 1 }
    ensures capacity { vec_capacity runs.new ≡ vec_capacity runs.old }
{
    if may_join {
        if last.0 + last.1 == run.0 {
            return (last.0, last.1 + run.1);
        }
    }
    put_if(runs, last, run.1 != 0 && last.1 != 0);
    if run.1 == 0 { last } else { run }
}

// Puts a run behind others, or not. It is written in any case and then cut off, since which lists
// are empty is nothing that a processor foretells.
#[inline(always)]
fn put_if(runs: &mut Vec<(usize, usize)>, run: (usize, usize), stays: bool)
    requires { vec_len runs.old < vec_capacity runs.old }
    ensures items { runs.new.items
        ≡ (if stays then runs.old.items ++ run ∷ [] else runs.old.items) }
    ensures count { vec_len runs.new ≤ vec_len runs.old + 1 }
    ensures capacity { vec_capacity runs.new ≡ vec_capacity runs.old }
{
    let count = runs.len();
    runs.push_reserved(run);
    runs.truncate(count + usize::from(stays));
}

/// Puts the last run behind the runs before it, where it has elements.
#[inline(always)]
pub(crate) fn push_last(runs: &mut Vec<(usize, usize)>, last: (usize, usize))
    requires { vec_len runs.old < vec_capacity runs.old }
    ensures places { run_places runs.new.items ≡ run_places (runs.old.items ++ last ∷ []) }
    ensures inside { (n : ℕ) → All (λ r. r.0 + r.1 ≤ n) (runs.old.items ++ last ∷ [])
        → All (λ r. r.0 + r.1 ≤ n) runs.new.items }
    ensures count { vec_len runs.new ≤ vec_len runs.old + 1 }
    ensures capacity { vec_capacity runs.new ≡ vec_capacity runs.old }
{
    if last.1 != 0 {
        runs.push_reserved(last);
    }
}
