//! Records of several lists, in any order.
ghost use Rattle.std.specs.Prelude.{◌≡◌, ◌≢◌, ◌<◌, ℕ, MatchOption, length, map, slice_index, true};
ghost use Rattle.std.specs.List.{range_with_len};
ghost use Rattle.vx_cuts.specs.Interleaving.{AreInterleaved, AreInside, IsFirstOutside, is_inside, item_in, items_at, lists_in};

use crate::answer::untold;
use crate::own::NULL;
use vx_words::{Answer, DONE, INDEX, LENGTHS};

// Whether a place is a row of the lists, or a null's.
fn is_inside<T: Copy>(lists: &[&[T]], part: u64, row: u64) -> bool
    ensures { result ≡ is_inside (lists_in lists.now) part row }
{
    if part == NULL {
        return true;
    }
    match lists.get(part as usize) {
        Some(items) => row < items.len() as u64,
        None => false,
    }
}

// The first place that is not.
fn first_outside<T: Copy>(lists: &[&[T]], parts: &[u64], rows: &[u64]) -> Option<usize>
    requires { length rows.now ≡ length parts.now }
    ensures { MatchOption result (AreInside (lists_in lists.now) parts.now rows.now)
        (IsFirstOutside (lists_in lists.now) parts.now rows.now) }
{
    for k in 0..parts.len() {
        if !is_inside(lists, parts[k], rows[k]) {
            return Some(k);
        }
    }
    None
}

// The item at a place, and `fill` at a null's.
#[inline(always)]
fn item_in<T: Copy>(lists: &[&[T]], part: u64, row: u64, fill: T) -> T
    requires { is_inside (lists_in lists.now) part row ≡ true }
    ensures { result ≡ item_in fill (lists_in lists.now) part row }
{
    if part == NULL {
        return fill;
    }
    let items = lists[part as usize];
    items[row as usize]
}

// Writes the items at the places.
fn put_items<T: Copy>(lists: &[&[T]], parts: &[u64], rows: &[u64], fill: T, dst: &mut [T])
    requires rows { length rows.now ≡ length parts.now }
    requires room { length dst.old ≡ length parts.now }
    requires inside { AreInside (lists_in lists.now) parts.now rows.now }
    ensures { dst.new ≡ items_at fill (lists_in lists.now) parts.now rows.now }
{
    for k in 0..parts.len() {
        dst[k] = item_in(lists, parts[k], rows[k], fill);
    }
}

/// Writes for each place that item of that list to `dst`, and `fill` at each place that is a
/// null's. Place k is row `rows[k]` of list `parts[k]`, or a null's where that is all ones.
///
/// 1: `rows` and `dst` are not as long as `parts`. 4: a place is no row of the lists, and the
/// number is the first one's.
pub fn interleave_records<T: Copy>(
    lists: &[&[T]],
    parts: &[u64],
    rows: &[u64],
    fill: T,
    dst: &mut [T],
) -> Answer
    ensures { AreInterleaved fill (lists_in lists.now) parts.now rows.now dst.old dst.new
        result.status result.value }
{
    if rows.len() != parts.len() {
        return untold(LENGTHS);
    }
    if dst.len() != parts.len() {
        return untold(LENGTHS);
    }
    if let Some(k) = first_outside(lists, parts, rows) {
        return Answer {
            status: INDEX,
            value: k as u64,
        };
    }
    put_items(lists, parts, rows, fill, dst);
    untold(DONE)
}
