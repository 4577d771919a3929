//! Places of rows.
ghost use Rattle.std.specs.Prelude.{◌≡◌, ◌+◌, ◌<◌, ◌≤◌, ℕ, IfSome, length, slice_index, true, false};
ghost use Rattle.std.specs.Option.{option_map};
ghost use Rattle.vx_arrow_image.specs.Image.{is_placed, part_of};
ghost use Rattle.vx_arrow_columns.specs.Asked.{the_picks};
ghost use Rattle.vx_arrow_columns.specs.Picks.{pick_at, picks_of, place_of};
ghost use Rattle.vx_arrow_columns.specs.Taken.{AreFull, AreWithin};

use vx_arrow_image::{Node, is_there};
use vx_runs::{Run, are_all_below};

/// Picks of a column's rows: places, each `add` further on, and a bit for each, clear at a null
/// one; without bits none is null.
#[derive(Clone, Copy)]
pub(crate) struct Picks<'a> {
    pub(crate) places: &'a [u64],
    pub(crate) valid: &'a [u8],
    pub(crate) add: u64,
}

/// Such lists of the crate's own.
#[derive(Drop)]
pub(crate) struct PlaceList {
    pub(crate) places: Vec<u64>,
    pub(crate) valid: Vec<u8>,
}

/// The picks of a child.
#[derive(Drop)]
pub(crate) enum Places {
    // Each place, with bits of validity.
    Each(PlaceList),
    // Runs of places; none is null.
    Runs(Vec<Run>),
}

/// Runs of places, each `add` further on; none is null.
#[derive(Clone, Copy)]
pub(crate) struct RunPicks<'a> {
    pub(crate) runs: &'a [Run],
    pub(crate) add: u64,
}

/// Where the row of pick `k` stands, if the pick is there.
#[inline(always)]
pub(crate) fn row(node: &Node, picks: &Picks, k: usize) -> Option<usize>
    requires index { k < length picks.now.places.now }
    requires placed { is_placed (part_of node.now) ≡ true }
    requires within { AreWithin (the_picks picks.now) node.now.len }
    ensures row { result ≡ option_map (λ i. node.now.offset + i)
        (pick_at picks.now.places.now picks.now.valid.now picks.now.add k) }
    ensures below { IfSome result (λ i. i < node.now.offset + node.now.len) }
    ensures from { IfSome result (λ i. node.now.offset ≤ i) }
{
    if !is_there(picks.valid, k) {
        return None;
    }
    Some((node.offset + (picks.add + picks.places[k])) as usize)
}

/// Where the row of pick `k` stands, or would stand were the pick there.
#[inline(always)]
pub(crate) fn row_at(node: &Node, picks: &Picks, k: usize) -> usize
    requires index { k < length picks.now.places.now }
    requires placed { is_placed (part_of node.now) ≡ true }
    requires below { picks.now.add + slice_index picks.now.places.now k < node.now.len }
    ensures row { result
        ≡ node.now.offset + (picks.now.add + slice_index picks.now.places.now k) }
    ensures below { result < node.now.offset + node.now.len }
{
    (node.offset + picks.add + picks.places[k]) as usize
}

/// Whether all places are seen to be below the length, those under a null pick too.
pub(crate) fn are_rows(picks: &Picks, len: u64) -> bool
    requires { AreWithin (the_picks picks.now) len }
    ensures { result ≡ true → (k : ℕ) → k < length picks.now.places.now
        → picks.now.add + slice_index picks.now.places.now k < len }
{
    if picks.valid.is_empty() {
        return true;
    }
    if picks.add == 0 {
        return are_all_below(picks.places, len);
    }
    false
}

/// Where the row of pick `k` stands, if pick and row are there.
#[inline(always)]
pub(crate) fn place(node: &Node, picks: &Picks, k: usize) -> Option<usize>
    requires index { k < length picks.now.places.now }
    requires placed { is_placed (part_of node.now) ≡ true }
    requires within { AreWithin (the_picks picks.now) node.now.len }
    ensures place { result ≡ place_of (part_of node.now)
        (pick_at picks.now.places.now picks.now.valid.now picks.now.add k) }
    ensures below { IfSome result (λ i. i < node.now.offset + node.now.len) }
    ensures from { IfSome result (λ i. node.now.offset ≤ i) }
{
    if !is_there(picks.valid, k) {
        return None;
    }
    let row = node.offset + (picks.add + picks.places[k]);
    if is_there(node.valid, row as usize) {
        Some(row as usize)
    } else {
        None
    }
}

/// Whether each pick is null or below the length.
pub(crate) fn are_within(picks: &Picks, len: u64) -> bool
    ensures within { result ≡ true → AreWithin (the_picks picks.now) len }
    ensures beyond { result ≡ false → AreWithin (the_picks picks.now) len → ⊥ }
{
    if picks.add == 0 {
        if are_all_below(picks.places, len) {
            return true;
        }
    }
    are_below_or_null(picks, len)
}

// Whether each pick is null or below the length, where they have a bit each, or are further on.
fn are_below_or_null(picks: &Picks, len: u64) -> bool
    ensures within { result ≡ true → AreWithin (the_picks picks.now) len }
    ensures beyond { result ≡ false → AreWithin (the_picks picks.now) len → ⊥ }
{
    for k in 0..picks.places.len() {
        if is_there(picks.valid, k) {
            let Some(row) = picks.add.checked_add(picks.places[k]) else {
                return false;
            };
            if row >= len {
                return false;
            }
        }
    }
    true
}

/// Whether no pick is null.
pub(crate) fn are_full(picks: &Picks) -> bool
    ensures full { result ≡ true → AreFull (the_picks picks.now) }
    ensures some { result ≡ false → AreFull (the_picks picks.now) → ⊥ }
{
    for k in 0..picks.places.len() {
        if !is_there(picks.valid, k) {
            return false;
        }
    }
    true
}
