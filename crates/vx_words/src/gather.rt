//! The items at picks, as far as their indices are below the bound.
ghost use Rattle.std.specs.Prelude.{◌≡◌, ◌+◌, ◌<◌, ◌≤◌, ℕ, MatchOption, length, take, drop, true, false};
ghost use Rattle.vx_take.specs.Picks.{item_at};
ghost use Rattle.vx_words.specs.Takes.{IsFront, IsPast, front_at, pick_at, valid_fault};

use crate::take::there;

// The item at pick `k`, or `fill` where it is null; none where its index is out of bounds.
#[inline(always)]
fn item_inside<T: Copy>(src: &[T], indices: &[u64], valid: &[u64], fill: T, k: usize) -> Option<T>
    requires valid { valid_fault (length indices.now) valid.now ≡ 0 }
    requires place { k < length indices.now }
    ensures { MatchOption result
        (IsPast (length src.now) indices.now valid.now k)
        (λ item. (IsPast (length src.now) indices.now valid.now k → ⊥)
        × (item ≡ item_at fill src.now (pick_at indices.now valid.now k))) }
{
    let index = indices[k];
    if !there(valid, k) {
        return Some(fill);
    }
    if index >= src.len() as u64 {
        return None;
    }
    Some(src[index as usize])
}

// Writes the items at four picks from `k` on, where no index of theirs is out of bounds.
#[inline(always)]
fn put_four<T: Copy>(
    src: &[T],
    indices: &[u64],
    valid: &[u64],
    fill: T,
    k: usize,
    dst: &mut [T],
) -> bool
    requires valid { valid_fault (length indices.now) valid.now ≡ 0 }
    requires place { k + 4 ≤ length indices.now }
    requires room { length indices.now ≤ length dst.old }
    ensures inside { result ≡ true
        → (j : ℕ) → k ≤ j → j < k + 4 → IsPast (length src.now) indices.now valid.now j → ⊥ }
    ensures items { result ≡ true
        → take k dst.old ≡ front_at fill src.now indices.now valid.now k
        → take (k + 4) dst.new ≡ front_at fill src.now indices.now valid.now (k + 4) }
    ensures rest { drop (k + 4) dst.new ≡ drop (k + 4) dst.old }
    ensures same { result ≡ false → dst.new ≡ dst.old }
{
    let Some(first) = item_inside(src, indices, valid, fill, k) else {
        return false;
    };
    let Some(second) = item_inside(src, indices, valid, fill, k + 1) else {
        return false;
    };
    let Some(third) = item_inside(src, indices, valid, fill, k + 2) else {
        return false;
    };
    let Some(fourth) = item_inside(src, indices, valid, fill, k + 3) else {
        return false;
    };
    dst[k] = first;
    dst[k + 1] = second;
    dst[k + 2] = third;
    dst[k + 3] = fourth;
    true
}

// Writes four items at a time, up to the last four picks or the first ones of which an index is out
// of bounds, and answers how many they are.
#[inline(always)]
fn put_fours<T: Copy>(src: &[T], indices: &[u64], valid: &[u64], fill: T, dst: &mut [T]) -> usize
    requires valid { valid_fault (length indices.now) valid.now ≡ 0 }
    requires room { length indices.now ≤ length dst.old }
    ensures { IsFront fill src.now indices.now valid.now dst.old dst.new result }
{
    for four in 0..indices.len() / 4 {
        if !put_four(src, indices, valid, fill, 4 * four, dst) {
            return 4 * four;
        }
    }
    indices.len() / 4 * 4
}

// Writes the items at the picks, up to the first whose index is out of bounds, and answers the
// place of that one.
#[inline(always)]
fn put_front<T: Copy>(src: &[T], indices: &[u64], valid: &[u64], fill: T, dst: &mut [T]) -> usize
    requires valid { valid_fault (length indices.now) valid.now ≡ 0 }
    requires room { length indices.now ≤ length dst.old }
    ensures front { IsFront fill src.now indices.now valid.now dst.old dst.new result }
    ensures past { result < length indices.now
        → IsPast (length src.now) indices.now valid.now result }
{
    let from = put_fours(src, indices, valid, fill, dst);
    for k in from..indices.len() {
        let Some(item) = item_inside(src, indices, valid, fill, k) else {
            return k;
        };
        dst[k] = item;
    }
    indices.len()
}

/// Writes the items at the picks, and `fill` at each null, up to the first pick whose index is out
/// of bounds, and answers how many they are. Where no pick is null, none is asked for.
pub(crate) fn gather<T: Copy>(
    src: &[T],
    indices: &[u64],
    valid: &[u64],
    fill: T,
    dst: &mut [T],
) -> usize
    requires valid { valid_fault (length indices.now) valid.now ≡ 0 }
    requires room { length indices.now ≤ length dst.old }
    ensures front { IsFront fill src.now indices.now valid.now dst.old dst.new result }
    ensures past { result < length indices.now
        → IsPast (length src.now) indices.now valid.now result }
{
    if valid.is_empty() {
        put_front(src, indices, &[], fill, dst)
    } else {
        put_front(src, indices, valid, fill, dst)
    }
}
