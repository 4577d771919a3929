//! Ranks among the set positions of a mask, and the positions that they name.
ghost use Rattle.std.specs.Prelude.{◌≡◌, ◌+◌, ◌-◌, ◌/◌, ◌^◌, ◌<◌, ◌≤◌, ◌↔◌, IfOk, IsTrue, length, max, min};
ghost use Rattle.std.specs.List.{range_with_len};
ghost use Rattle.vx_bits.specs.BitBuffer.{true_count_of};
ghost use Rattle.vx_mask.specs.Mask.{mask_bits};
ghost use Rattle.vx_mask.specs.Positions.{set_of};
ghost use Rattle.vx_take.specs.Picks.{at, null_place};
ghost use Rattle.vx_take.specs.Ranks.{positions_by_rank};

use crate::listed::{ItemOf, listed};
use crate::picks::{NULL_PLACE, Picks};
use crate::slices::gather;
use std::alloc::Global;
use vx_bits::NoMemory;
use vx_mask::{Mask, Policy};

/// The set positions of `filter` that the ranks name, in order. Null stays null, and the bound is
/// the length of `filter`. Fails only with `NoMemory`.
///
/// The picks do not depend on the policy: where the set positions are one run its start is added,
/// few ranks are looked up one by one, and for others the set positions are listed once.
pub fn translate_ranks(
    alloc: Global,
    filter: &Mask,
    ranks: &Picks,
    policy: &Policy,
) -> Result<Picks, NoMemory>
    requires { ranks.now.bound ≤ true_count_of (mask_bits filter.now) }
    ensures picks { IfOk result (λ p. p.picks
        ≡ positions_by_rank (mask_bits filter.now) ranks.now.picks) }
    ensures bound { IfOk result (λ p. p.bound ≡ length (mask_bits filter.now)) }
{
    // Each rank is below the bound.
    let _ = ranks.bound();
    let places = set_places(alloc, filter, ranks, policy)?;
    Ok(Picks::from_places(places, filter.len()))
}

// The places of the set positions that the ranks name, in one of three ways.
fn set_places(
    alloc: Global,
    filter: &Mask,
    ranks: &Picks,
    policy: &Policy,
) -> Result<Vec<usize>, NoMemory>
    requires { ranks.now.bound ≤ true_count_of (mask_bits filter.now) }
    ensures { IfOk result (λ places. places.items
        ≡ at null_place (set_of (mask_bits filter.now)) ranks.now.picks) }
{
    let true_count = filter.true_count();
    match filter.contiguous() {
        Some(run) => in_one_run(alloc, run, ranks),
        None if are_few(ranks.len(), true_count, policy) => one_by_one(alloc, filter, ranks),
        None => by_list(alloc, filter, ranks),
    }
}

// Whether so few ranks are looked up one by one.
fn are_few(ranks: usize, true_count: usize, policy: &Policy) -> bool
    ensures { IsTrue result ↔ (ranks ≤ min (max (true_count / policy.now.rank_lookup_divisor) 1)
        policy.now.rank_lookup_cap) }
{
    let fields = policy.fields();
    let share = true_count / fields.rank_lookup_divisor;
    ranks <= share.max(1).min(fields.rank_lookup_cap)
}

// The places of ranks in a run from its start up to its end.
fn in_one_run(alloc: Global, run: (usize, usize), ranks: &Picks) -> Result<Vec<usize>, NoMemory>
    requires ordered { run.0 < run.1 }
    requires within { ranks.now.bound ≤ run.1 - run.0 }
    ensures { IfOk result (λ places. places.items
        ≡ at null_place (range_with_len run.0 (run.1 - run.0)) ranks.now.picks) }
{
    let (start, end) = run;
    listed(alloc, &BehindStart { start, end }, ranks.places())
}

// The place of a rank in a run from its start up to its end.
#[derive(Clone, Copy)]
struct BehindStart {
    start: usize,
    end: usize,
    ghost ordered: { start < end },
}

impl ItemOf<usize> for BehindStart {
    ghost use Rattle.std.specs.Prelude.{◌-◌};
    ghost use Rattle.std.specs.List.{range_with_len};
    ghost use Rattle.vx_take.specs.Picks.{IsPlace, item_at, null_place};

    ghost item = { λ r. item_at null_place (range_with_len r.start (r.end - r.start)) };

    ghost has = { λ r rank. IsPlace rank (r.end - r.start) };

    #[inline(always)]
    fn item_of(&self, rank: usize) -> usize {
        if rank == NULL_PLACE {
            NULL_PLACE
        } else {
            self.start + rank
        }
    }
}

// The places of ranks, each looked up by itself: by the list of set positions where the mask keeps
// one, else by block counts, so that no look-up walks all words.
fn one_by_one(alloc: Global, filter: &Mask, ranks: &Picks) -> Result<Vec<usize>, NoMemory>
    requires { ranks.now.bound ≤ true_count_of (mask_bits filter.now) }
    ensures { IfOk result (λ places. places.items
        ≡ at null_place (set_of (mask_bits filter.now)) ranks.now.picks) }
{
    if filter.cached_indices().is_some() {
        return by_rank(alloc, filter, ranks);
    }
    let counted = filter.with_blocks(alloc)?;
    by_rank(alloc, &counted, ranks)
}

// The places of ranks, each looked up by what the mask keeps.
fn by_rank(alloc: Global, filter: &Mask, ranks: &Picks) -> Result<Vec<usize>, NoMemory>
    requires { ranks.now.bound ≤ true_count_of (mask_bits filter.now) }
    ensures { IfOk result (λ places. places.items
        ≡ at null_place (set_of (mask_bits filter.now)) ranks.now.picks) }
{
    listed(alloc, &SetPosition { filter }, ranks.places())
}

// The set position of a mask that a rank names.
#[derive(Clone, Copy)]
struct SetPosition<'a> {
    filter: &'a Mask,
}

impl ItemOf<usize> for SetPosition<'_> {
    ghost use Rattle.vx_bits.specs.BitBuffer.{true_count_of};
    ghost use Rattle.vx_mask.specs.Mask.{mask_bits};
    ghost use Rattle.vx_mask.specs.Positions.{set_of};
    ghost use Rattle.vx_take.specs.Picks.{IsPlace, item_at, null_place};

    ghost item = { λ s. item_at null_place (set_of (mask_bits s.filter.now)) };

    ghost has = { λ s rank. IsPlace rank (true_count_of (mask_bits s.filter.now)) };

    fn item_of(&self, rank: usize) -> usize {
        if rank == NULL_PLACE {
            NULL_PLACE
        } else {
            self.filter.rank(rank)
        }
    }
}

// The places of ranks by the list of all set positions. A mask that keeps none selects all rows,
// which are one run, or none.
fn by_list(alloc: Global, filter: &Mask, ranks: &Picks) -> Result<Vec<usize>, NoMemory>
    requires { ranks.now.bound ≤ true_count_of (mask_bits filter.now) }
    ensures { IfOk result (λ places. places.items
        ≡ at null_place (set_of (mask_bits filter.now)) ranks.now.picks) }
{
    let kept = filter.with_indices(alloc)?;
    match kept.cached_indices() {
        Some(indices) => gather(alloc, indices, ranks, NULL_PLACE),
        None => by_rank(alloc, &kept, ranks),
    }
}
