//! Picks of the whole, cut into each part's own, in lists of the caller's.
ghost use Rattle.std.specs.Prelude.{◌≡◌, ◌≢◌, ◌+◌, ◌<◌, ◌≤◌, ℕ, MatchOption, length, map, slice_index, true};
ghost use Rattle.vx_take.specs.Picks.{ArePlaces};
ghost use Rattle.vx_cuts.specs.Bounds.{AreBounds, end_of};
ghost use Rattle.vx_cuts.specs.Picks.{ArePicksCut, IsFirstBeyond, are_rooms};

use crate::answer::{BOUNDS, untold};
use crate::own::{NULL, add_up, place_picks, put_own};
use vx_words::{Answer, DONE, INDEX, LENGTHS};

// Whether these are bounds of parts.
fn are_bounds(bounds: &[usize]) -> bool
    ensures sound { result ≡ true → AreBounds bounds.now }
    ensures exact { AreBounds bounds.now → result ≡ true }
{
    if bounds.is_empty() {
        return false;
    }
    if bounds[0] != 0 {
        return false;
    }
    for k in 1..bounds.len() {
        if bounds[k] < bounds[k - 1] {
            return false;
        }
    }
    true
}

// The first place that is neither below `end` nor a null.
fn first_beyond(places: &[u64], end: usize) -> Option<usize>
    ensures { MatchOption result (ArePlaces places.now end) (IsFirstBeyond places.now end) }
{
    for (k, place) in places.iter().enumerate() {
        if *place >= end as u64 && *place != NULL {
            return Some(k);
        }
    }
    None
}

// Whether lists are as long as so many picks and bounds ask for.
fn are_rooms(
    picks: usize,
    bounds: usize,
    own: usize,
    ends: usize,
    parts: usize,
    rows: usize,
) -> bool
    ensures { result ≡ are_rooms picks bounds own ends parts rows }
{
    let are_long = own == picks && parts == picks && rows == picks;
    are_long && bounds != 0 && bounds - 1 == ends
}

/// Cuts picks of the whole into each part's own, where the parts begin and the last one ends at
/// these bounds. A place is a row of the whole, or all ones for a null, which goes to no part.
///
/// Each part's picks are written to `own`, counted from its first row, in their order and one part
/// behind another: those of part k end at `ends[k]`. What stands behind the last is not said. For
/// each pick `parts` and `rows` say in which part it lies and which of that part's picks it is, and
/// are all ones at a null.
///
/// 1: `own`, `parts` and `rows` are not as long as `places`, or `bounds` is not one longer than
/// `ends`. 4: a pick is past the rows, and the number is the first one's. 6: the bounds do not
/// begin at 0 and ascend.
pub fn cut_places(
    places: &[u64],
    bounds: &[usize],
    own: &mut [usize],
    ends: &mut [usize],
    parts: &mut [u64],
    rows: &mut [u64],
) -> Answer
    ensures { ArePicksCut places.now bounds.now own.old own.new ends.old ends.new parts.old
        parts.new rows.old rows.new result.status result.value }
{
    if !are_rooms(
        places.len(),
        bounds.len(),
        own.len(),
        ends.len(),
        parts.len(),
        rows.len(),
    ) {
        return untold(LENGTHS);
    }
    if !are_bounds(bounds) {
        return untold(BOUNDS);
    }
    if let Some(k) = first_beyond(places, bounds[bounds.len() - 1]) {
        return Answer {
            status: INDEX,
            value: k as u64,
        };
    }
    place_picks(places, bounds, ends, parts, rows);
    add_up(ends);
    put_own(places, bounds, ends, parts, rows, own);
    untold(DONE)
}
