//! Filtering by the words of a mask.
ghost use Rattle.std.specs.Prelude.{◌≡◌, ◌+◌, ◌^◌, ◌<◌, ◌≤◌, ◌++◌, [], IfOk, OnOk, length, vec_len, vec_capacity};
ghost use Rattle.std.specs.List.{items_where_true};
ghost use Rattle.std.specs.Int.RustNames.{count_ones};
ghost use Rattle.vx_bits.specs.BitBuffer.{true_count_of};
ghost use Rattle.vx_bits.specs.Words.{word_bits};

use std::alloc::Global;
use vx_bits::NoMemory;
use vx_mask::MaskValues;

/// The items of `src` at the set positions of `mask`, in order, by one walk over its words:
/// Vortex's `filter_slice_by_bitmap`. Fails only with `NoMemory`.
///
/// A word without a set bit is passed over, and the items of a full word are copied whole.
pub fn filter_slice_by_bitmap<T: Copy>(
    alloc: Global,
    src: &[T],
    mask: &MaskValues,
) -> Result<Vec<T>, NoMemory>
    requires { length mask.now.bits.bits ≡ length src.now }
    ensures { IfOk result (λ kept. kept.items ≡ items_where_true mask.now.bits.bits src.now) }
{
    let mut kept = Vec::with_capacity(alloc, mask.true_count())?;
    push_words(&mut kept, src, mask)?;
    Ok(kept)
}

// Appends the items at the set positions to an empty list, which has room for them.
#[inline(always)]
fn push_words<T: Copy>(kept: &mut Vec<T>, src: &[T], mask: &MaskValues) -> Result<(), NoMemory>
    requires all_there { length mask.now.bits.bits ≡ length src.now }
    requires empty { kept.old.items ≡ [] }
    requires room { true_count_of mask.now.bits.bits ≤ vec_capacity kept.old }
    ensures { OnOk result (kept.new.items ≡ items_where_true mask.now.bits.bits src.now) }
{
    let words = mask.bits().words();
    for w in 0..mask.len().div_ceil(64) {
        push_picked(kept, &src[64 * w..], words.word(w))?;
    }
    Ok(())
}

/// Appends the items that a word picks. There is room for them, and no bit is set past the items.
#[inline(always)]
pub(crate) fn push_picked<T: Copy>(
    kept: &mut Vec<T>,
    items: &[T],
    word: u64,
) -> Result<(), NoMemory>
    requires within { word < 2 ^ length items.now }
    requires room { vec_len kept.old + count_ones word ≤ vec_capacity kept.old }
    ensures items { OnOk result (kept.new.items
        ≡ kept.old.items ++ items_where_true (word_bits word 64) items.now) }
    ensures capacity { OnOk result (vec_capacity kept.old ≤ vec_capacity kept.new) }
{
    if word == u64::MAX {
        kept.extend_from_slice(&items[..64])?;
    } else if word != 0 {
        push_word(kept, items, word);
    }
    Ok(())
}

// Appends the items that a word picks, one after another, the lowest set bit first. There is room
// for them, and no bit is set past the items.
#[inline(always)]
fn push_word<T: Copy>(kept: &mut Vec<T>, items: &[T], word: u64)
    requires within { word < 2 ^ length items.now }
    requires room { vec_len kept.old + count_ones word ≤ vec_capacity kept.old }
    ensures items { kept.new.items
        ≡ kept.old.items ++ items_where_true (word_bits word 64) items.now }
    ensures capacity { vec_capacity kept.new ≡ vec_capacity kept.old }
{
    let mut left = word;
    for k in 0..word.count_ones() {
        // Only the loop's invariant speaks of it.
        let _ = k;
        kept.push_reserved(items[left.trailing_zeros() as usize]);
        left &= left - 1;
    }
}
