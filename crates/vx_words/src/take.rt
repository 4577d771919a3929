//! Takes of records.
ghost use Rattle.std.specs.Prelude.{◌≡◌, ◌≢◌, ◌/◌, ◌^◌, ◌<◌, ℕ, MatchOption, length, slice_index, true};
ghost use Rattle.vx_words.specs.Takes.{IsFirstPast, IsPast, IsTaken, is_there, take_fault, valid_fault};

use crate::answer::{Answer, DONE, INDEX, ROOM};
use crate::gather::gather;
use crate::masks::fault_of;

// Whether bit `k` of the words is set.
#[inline(always)]
fn is_set(words: &[u64], k: usize) -> bool
    requires { k / 64 < length words.now }
    ensures { result ≡ is_there words.now k }
{
    (words[k / 64] >> (k % 64)) & 1 == 1
}

/// Whether pick `k` is not null.
#[inline(always)]
pub(crate) fn there(valid: &[u64], k: usize) -> bool
    requires { (length valid.now ≢ 0) → k / 64 < length valid.now }
    ensures { result ≡ is_there valid.now k }
{
    valid.is_empty() || is_set(valid, k)
}

/// Why the words do not say which of so many picks are there, or `DONE`.
pub(crate) fn fault_of_valid(valid: &[u64], picks: usize) -> u64
    ensures { result ≡ valid_fault picks valid.now }
{
    if valid.is_empty() {
        DONE
    } else {
        fault_of(valid, picks)
    }
}

/// Why so many picks do not fit into so much room, or `DONE`.
pub(crate) fn fault_of_take(picks: usize, valid: &[u64], room: usize) -> u64
    ensures { result ≡ take_fault picks valid.now room }
{
    let fault = fault_of_valid(valid, picks);
    if fault == DONE && picks > room {
        ROOM
    } else {
        fault
    }
}

// A number below 2^63 shows that the index is below the bound.
#[inline(always)]
fn sign_of(index: u64, bound: u64) -> u64
    ensures { result < 2 ^ 63 → index < bound }
{
    bound.wrapping_sub(1).wrapping_sub(index) | index
}

// Whether all indices are below the bound, the null ones too. It may miss that they are where the
// bound is past 2^63.
fn are_below(indices: &[u64], bound: usize) -> bool
    ensures { result ≡ true
        → (k : ℕ) → k < length indices.now → slice_index indices.now k < bound }
{
    let mut signs: u64 = 0;
    for index in indices {
        signs |= sign_of(*index, bound as u64);
    }
    signs < 1 << 63
}

/// The first pick that is there and whose index is not below the bound.
pub(crate) fn first_past(indices: &[u64], valid: &[u64], bound: usize) -> Option<usize>
    requires { valid_fault (length indices.now) valid.now ≡ 0 }
    ensures { MatchOption result
        ((k : ℕ) → IsPast bound indices.now valid.now k → ⊥)
        (IsFirstPast bound indices.now valid.now) }
{
    if are_below(indices, bound) {
        return None;
    }
    search_past(indices, valid, bound)
}

// The first pick that is there and whose index is not below the bound, searched one pick after
// another.
fn search_past(indices: &[u64], valid: &[u64], bound: usize) -> Option<usize>
    requires { valid_fault (length indices.now) valid.now ≡ 0 }
    ensures { MatchOption result
        ((k : ℕ) → IsPast bound indices.now valid.now k → ⊥)
        (IsFirstPast bound indices.now valid.now) }
{
    for (k, index) in indices.iter().enumerate() {
        if *index >= bound as u64 && there(valid, k) {
            return Some(k);
        }
    }
    None
}

/// Writes the items at the indices to the front of `dst`, in order, and `fill` at each null. The
/// answer is how many they are. Pick k is null where bit k of `valid` is clear; without words none
/// is.
///
/// 1: `valid` has words, but not as many as hold a bit for each index. 2: a bit past the indices is
/// set. 3: `dst` is too small, and the number is how many indices there are. 4: an index that is
/// not null is out of bounds, and the number is the first one's place.
pub fn take_records<T: Copy>(
    src: &[T],
    indices: &[u64],
    valid: &[u64],
    fill: T,
    dst: &mut [T],
) -> Answer
    ensures { IsTaken fill src.now indices.now valid.now dst.old dst.new result.status
        result.value }
{
    let value = indices.len() as u64;
    let fault = fault_of_take(indices.len(), valid, dst.len());
    if fault != DONE {
        return Answer::refused_for(fault, value);
    }
    match first_past(indices, valid, src.len()) {
        Some(k) => Answer {
            status: INDEX,
            value: k as u64,
        },
        None => {
            gather(src, indices, valid, fill, dst);
            Answer {
                status: DONE,
                value,
            }
        }
    }
}
