//! Slices, masks and picks, cut into parts.
ghost use Rattle.vx_cuts.specs.Listed.{AreBoundsListed};
ghost use Rattle.vx_cuts.specs.Masks.{IsMaskCut};
ghost use Rattle.vx_cuts.specs.Picks.{ArePicksCut};
ghost use Rattle.vx_cuts.specs.Slices.{IsSliceCut};

use vx_cuts::{Answer, cut_mask, cut_places, cut_slice, list_bounds};

/// Writes where each part of these lengths begins, and where the last one ends, to `bounds`. The
/// answer is how many rows they have.
///
/// 1: `bounds` is not one longer than `lengths`. 7: the parts have more rows than 64 bits count.
#[unsafe(no_mangle)]
pub extern "C" fn vortex_cut_bounds(lengths: &[usize], bounds: &mut [usize]) -> Answer
    ensures { AreBoundsListed lengths.now bounds.old bounds.new result.status result.value }
{
    list_bounds(lengths, bounds)
}

/// Cuts the rows from `start` up to `end` of the whole, whose parts have these lengths, into each
/// part's own: part k keeps its rows from `starts[k]` up to `ends[k]`, and has `left[k]` of them
/// left.
///
/// 1: the lists are not all of one length. 5: `start` is past `end`, or `end` past the rows.
#[unsafe(no_mangle)]
pub extern "C" fn vortex_cut_slice(
    lengths: &[usize],
    start: usize,
    end: usize,
    starts: &mut [usize],
    ends: &mut [usize],
    left: &mut [usize],
) -> Answer
    ensures { IsSliceCut lengths.now start end starts.old starts.new ends.old ends.new
        left.old left.new result.status result.value }
{
    cut_slice(lengths, start, end, starts, ends, left)
}

/// Counts for each part the rows that a mask of the whole keeps of it. The parts have these
/// lengths, and the mask's bits are as many as they have rows, from bit `mask_at` of the words on.
///
/// 1: `left` is not as long as `lengths`, or the words do not hold so many bits.
#[unsafe(no_mangle)]
pub extern "C" fn vortex_cut_mask(
    words: &[u64],
    mask_at: usize,
    lengths: &[usize],
    left: &mut [usize],
) -> Answer
    ensures { IsMaskCut words.now mask_at lengths.now left.old left.new result.status
        result.value }
{
    cut_mask(words, mask_at, lengths, left)
}

/// Cuts picks of the whole into each part's own, where the parts begin and the last one ends at
/// these bounds. A place is a row of the whole, or all ones for a null, which goes to no part.
///
/// Each part's picks are written to `own`, counted from its first row, in their order and one part
/// behind another: those of part k end at `ends[k]`. What stands behind the last is not said. For
/// each pick `parts` and `rows` say in which part it lies and which of that part's picks it is, and
/// are all ones at a null.
///
/// 1: `own`, `parts` and `rows` are not as long as `places`, or `bounds` is not one longer than
/// `ends`. 4: a pick is past the rows, and the number is the first one's. 6: the bounds do not
/// begin at 0 and ascend.
#[unsafe(no_mangle)]
pub extern "C" fn vortex_cut_picks(
    places: &[u64],
    bounds: &[usize],
    own: &mut [usize],
    ends: &mut [usize],
    parts: &mut [u64],
    rows: &mut [u64],
) -> Answer
    ensures { ArePicksCut places.now bounds.now own.old own.new ends.old ends.new
        parts.old parts.new rows.old rows.new result.status result.value }
{
    cut_places(places, bounds, own, ends, parts, rows)
}
