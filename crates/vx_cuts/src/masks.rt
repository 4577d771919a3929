//! How many rows of each part a mask of the whole keeps.
ghost use Rattle.std.specs.Prelude.{◌≡◌, ◌+◌, ◌*◌, ◌^◌, ◌<◌, ◌≤◌, length, map};
ghost use Rattle.std.specs.List.{range_with_len, sum};
ghost use Rattle.vx_bits.specs.BitBuffer.{true_count_of};
ghost use Rattle.vx_words.specs.Bits.{bits_at};
ghost use Rattle.vx_cuts.specs.Masks.{IsMaskCut, kept_in, mask_fault};

use crate::answer::untold;
use crate::bounds::total_len;
use vx_words::{Answer, DONE, LENGTHS, filter_bit_words};

// How many of so many bits from bit `at` of the words on are set: as many as a filter of these bits
// by themselves keeps, which tells it where it has no room.
fn count_bits(words: &[u64], at: usize, len: usize) -> usize
    requires { at + len ≤ 64 * length words.now }
    ensures { result ≡ true_count_of (bits_at words.now at len) }
{
    filter_bit_words(words, at, words, at, len, &mut []).value as usize
}

// Why the words hold no mask of parts of these lengths, or `DONE`.
fn fault_of(words: &[u64], at: usize, lengths: &[usize]) -> u64
    ensures { result ≡ mask_fault words.now at lengths.now }
{
    let Some(len) = total_len(lengths) else {
        return LENGTHS;
    };
    let Some(end) = at.checked_add(len) else {
        return LENGTHS;
    };
    if end as u128 <= 64 * words.len() as u128 {
        DONE
    } else {
        LENGTHS
    }
}

// Writes how many bits of each part are set.
fn put_kept(words: &[u64], at: usize, lengths: &[usize], left: &mut [usize])
    requires held { at + sum lengths.now ≤ 64 * length words.now }
    requires counted { at + sum lengths.now < 2 ^ 64 }
    requires room { length left.old ≡ length lengths.now }
    ensures { left.new
        ≡ map (kept_in words.now at lengths.now) (range_with_len 0 (length lengths.now)) }
{
    let mut first = at;
    for k in 0..lengths.len() {
        left[k] = count_bits(words, first, lengths[k]);
        first += lengths[k];
    }
}

/// Counts for each part the rows that a mask of the whole keeps of it. The parts have these
/// lengths, and the mask's bits are as many as they have rows, from bit `mask_at` of the words on.
///
/// 1: `left` is not as long as `lengths`, or the words do not hold so many bits.
pub fn cut_mask(words: &[u64], mask_at: usize, lengths: &[usize], left: &mut [usize]) -> Answer
    ensures { IsMaskCut words.now mask_at lengths.now left.old left.new result.status
        result.value }
{
    if left.len() != lengths.len() {
        return untold(LENGTHS);
    }
    let fault = fault_of(words, mask_at, lengths);
    if fault != DONE {
        return untold(fault);
    }
    put_kept(words, mask_at, lengths, left);
    untold(DONE)
}
