//! Filters of records in place.
ghost use Rattle.std.specs.Prelude.{◌≡◌, length, take};
ghost use Rattle.std.specs.List.{items_where_true};
ghost use Rattle.vx_bits.specs.BitBuffer.{true_count_of};
ghost use Rattle.vx_words.specs.Filters.{IsKept};

use crate::answer::{Answer, DONE, LENGTHS};
use crate::bits::{Bits, hold};
use vx_filter::keep_picked;

/// Moves the items at the set bits of `words` to the front, in order. The answer is how many they
/// are. The mask's bits are as many as there are items, from bit `mask_at` on.
///
/// 1: `words` do not hold so many bits.
pub fn filter_in_place<T: Copy>(values: &mut [T], words: &[u64], mask_at: usize) -> Answer
    ensures { IsKept words.now mask_at values.old values.new result.status result.value }
{
    let items = values.len();
    if !hold(words, mask_at, items) {
        return Answer::refused(LENGTHS);
    }
    let mask = Bits::new(words, mask_at, items);
    let kept = keep_rows(values, &mask);
    Answer {
        status: DONE,
        value: kept as u64,
    }
}

// Moves the values at the mask's set bits to the front, and answers their number. Masks from their
// first word on are the most common.
fn keep_rows<T: Copy>(values: &mut [T], mask: &Bits) -> usize
    requires { length mask.now ≡ length values.old }
    ensures count { result ≡ true_count_of mask.now }
    ensures front { take result values.new ≡ items_where_true mask.now values.old }
{
    if let Some(mask) = mask.from_first() {
        return keep_words(values, &mask);
    }
    keep_words(values, mask)
}

// Moves the values at the mask's set bits to the front, a word of the mask after another, and
// returns their number.
#[inline(always)]
fn keep_words<T: Copy>(values: &mut [T], mask: &Bits) -> usize
    requires { length mask.now ≡ length values.old }
    ensures count { result ≡ true_count_of mask.now }
    ensures front { take result values.new ≡ items_where_true mask.now values.old }
{
    let mut kept = 0;
    for i in 0..mask.len().div_ceil(64) {
        let word = mask.word(i);
        kept = keep_picked(values, kept, 64 * i, word);
    }
    kept
}
