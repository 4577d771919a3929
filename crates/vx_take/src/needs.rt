//! Which positions picks need, and the picks among just these.
ghost use Rattle.std.specs.Prelude.{◌≡◌, ◌<◌, ◌≤◌, IfOk, IfSome, length, slice_set, true, if◌then◌else◌, ◌==◌, map};
ghost use Rattle.vx_bits.specs.BitBuffer.{true_count_of};
ghost use Rattle.vx_mask.specs.Mask.{mask_bits};
ghost use Rattle.vx_take.specs.Picks.{AreBelow, IsPlace, null_place, pick_of};
ghost use Rattle.vx_take.specs.Ranks.{AreJustSet, AreSet, place_before, ranks_of_picks, positions_by_rank, word_counts};

use crate::listed::{ItemOf, listed};
use crate::picks::{NULL_PLACE, Picks};
use std::alloc::Global;
use vx_bits::{BitBuffer, BitBuilder, NoMemory, Words};
use vx_mask::Mask;

/// The mask of the bound's length whose set positions are just the non-null picks. Fails only with
/// `NoMemory`.
pub fn needed(alloc: Global, picks: &Picks) -> Result<Mask, NoMemory>
    ensures set { IfOk result (λ m. AreJustSet (mask_bits m) picks.now.picks) }
    ensures each { IfOk result (λ m. AreSet (mask_bits m) picks.now.picks) }
    ensures len { IfOk result (λ m. length (mask_bits m) ≡ picks.now.bound) }
{
    let len = picks.bound();
    let mut bits = BitBuilder::with_capacity(alloc, len)?;
    bits.append_n(false, len)?;
    for place in picks.places() {
        set_there(&mut bits, *place);
    }
    Ok(Mask::from_buffer(bits.finish()?))
}

// Turns the bit at a place on, if it stands for no null.
#[inline(always)]
fn set_there(bits: &mut BitBuilder, place: usize)
    requires { IsPlace place (length bits.old) }
    ensures { bits.new
        ≡ (if place == null_place then bits.old else slice_set bits.old place true) }
{
    if place != NULL_PLACE {
        bits.set(place);
    }
}

/// For each pick its rank among the set positions of `mask`. Null stays null, and the bound is the
/// number of set positions. Fails only with `NoMemory`.
pub fn ranks_in(alloc: Global, picks: &Picks, mask: &Mask) -> Result<Picks, NoMemory>
    requires { AreSet (mask_bits mask.now) picks.now.picks }
    ensures ranks { IfOk result
        (λ r. r.picks ≡ ranks_of_picks (mask_bits mask.now) picks.now.picks) }
    ensures inverse { IfOk result (λ r. positions_by_rank (mask_bits mask.now) r.picks
        ≡ picks.now.picks) }
    ensures bound { IfOk result (λ r. r.bound ≡ true_count_of (mask_bits mask.now)) }
{
    // The number of rows fits a place.
    let _ = mask.len();
    let places = rank_places(alloc, picks, mask)?;
    Ok(Picks::from_places(places, mask.true_count()))
}

// The places of the ranks of picks.
fn rank_places(alloc: Global, picks: &Picks, mask: &Mask) -> Result<Vec<usize>, NoMemory>
    requires { AreSet (mask_bits mask.now) picks.now.picks }
    ensures { IfOk result (λ places. places.items
        ≡ map (place_before (mask_bits mask.now)) picks.now.picks) }
{
    match mask.values() {
        Some(values) => by_counts(alloc, picks, values.bits()),
        None => one_by_one(alloc, picks, mask),
    }
}

// The places of the ranks of picks, where a mask selects all rows or none.
fn one_by_one(alloc: Global, picks: &Picks, mask: &Mask) -> Result<Vec<usize>, NoMemory>
    requires { AreSet (mask_bits mask.now) picks.now.picks }
    ensures { IfOk result (λ places. places.items
        ≡ map (place_before (mask_bits mask.now)) picks.now.picks) }
{
    listed(alloc, &RankIn { mask }, picks.places())
}

// The rank of a place among the set positions of a mask.
#[derive(Clone, Copy)]
struct RankIn<'a> {
    mask: &'a Mask,
}

impl ItemOf<usize> for RankIn<'_> {
    ghost use Rattle.std.specs.Prelude.{◌<◌, IfSome, length};
    ghost use Rattle.vx_mask.specs.Mask.{mask_bits};
    ghost use Rattle.vx_take.specs.Picks.{pick_of};
    ghost use Rattle.vx_take.specs.Ranks.{place_before};

    ghost item = { λ r. place_before (mask_bits r.mask.now) };

    ghost has = { λ r place. IfSome (pick_of place) (λ p. p < length (mask_bits r.mask.now)) };

    #[inline(always)]
    fn item_of(&self, place: usize) -> usize {
        if place == NULL_PLACE {
            NULL_PLACE
        } else {
            self.mask.true_before(place)
        }
    }
}

// The places of the ranks of picks, by the set bits before each word, counted once.
fn by_counts(alloc: Global, picks: &Picks, bits: &BitBuffer) -> Result<Vec<usize>, NoMemory>
    requires { AreSet bits.now.bits picks.now.picks }
    ensures { IfOk result (λ places. places.items
        ≡ map (place_before bits.now.bits) picks.now.picks) }
{
    let counts = counts_before(alloc, bits)?;
    let ranks = CountedRank {
        words: bits.words(),
        counts: counts.as_slice(),
    };
    listed(alloc, &ranks, picks.places())
}

// For each word the number of set bits before it.
fn counts_before(alloc: Global, bits: &BitBuffer) -> Result<Vec<usize>, NoMemory>
    ensures { IfOk result (λ counts. counts.items ≡ word_counts bits.now.bits) }
{
    let words = bits.len() / 64 + 1;
    let view = bits.words();
    let mut counts = Vec::with_capacity(alloc, words)?;
    let mut count = 0;
    for w in 0..words {
        counts.push_reserved(count);
        count += view.word(w).count_ones() as usize;
    }
    Ok(counts)
}

// The rank of a place: the set bits before its word, and those of its word before it.
#[derive(Drop)]
struct CountedRank<'a> {
    words: Words<'a>,
    counts: &'a [usize],
    ghost counted: { counts.now ≡ word_counts words },
}

impl ItemOf<usize> for CountedRank<'_> {
    ghost use Rattle.std.specs.Prelude.{◌<◌, IfSome, length};
    ghost use Rattle.vx_take.specs.Picks.{pick_of};
    ghost use Rattle.vx_take.specs.Ranks.{place_before};

    ghost item = { λ r. place_before r.words };

    ghost has = { λ r place. IfSome (pick_of place) (λ p. p < length r.words) };

    #[inline(always)]
    fn item_of(&self, place: usize) -> usize {
        if place == NULL_PLACE {
            NULL_PLACE
        } else {
            let before = self.words.word(place / 64) & ((1 << (place % 64)) - 1);
            self.counts[place / 64] + before.count_ones() as usize
        }
    }
}
