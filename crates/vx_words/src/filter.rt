//! Filters of records.
ghost use Rattle.std.specs.Prelude.{◌≡◌, ◌+◌, ◌*◌, ◌≤◌, false, length, take, drop};
ghost use Rattle.std.specs.List.{items_where_true};
ghost use Rattle.vx_bits.specs.BitBuffer.{true_count_of};
ghost use Rattle.vx_bits.specs.Words.{word_count};
ghost use Rattle.vx_filter.specs.Compact.{AreCompacted, bits_of_words};
ghost use Rattle.vx_mask.specs.Positions.{AllBits};
ghost use Rattle.vx_words.specs.Filters.{IsFiltered};
ghost use Rattle.vx_words.specs.Masks.{mask_fault};

use crate::answer::{Answer, DONE, LENGTHS, ROOM};
use crate::bits::{Bits, hold};
use crate::filter_bits::count_bits;
use crate::masks::{count_set, fault_of};
use crate::rows::compact_rows;
use vx_filter::{compact_runs, compact_words, copy_picked};

// How many runs the set bits make. A run that crosses words counts in each.
fn count_runs(words: &[u64]) -> u64 {
    let mut runs: u64 = 0;
    for word in words {
        runs = runs.saturating_add(u64::from((word & !(word << 1)).count_ones()));
    }
    runs
}

// Whether the runs have four bits on average.
fn has_long_runs(words: &[u64], count: usize) -> bool {
    count_runs(words) <= (count / 4) as u64
}

// Whether a word has 40 set bits on average, in more than two runs: then its 64 rows cost less than
// a turn for each set bit or each run.
fn has_many_rows(words: &[u64], count: usize) -> bool {
    count / 40 >= words.len() && count_runs(words) / 2 > words.len() as u64
}

// Copies the items at the set bits, so many, to the front of the output: run after run where the
// runs are long.
fn compact<T: Copy>(src: &[T], words: &[u64], count: usize, dst: &mut [T]) -> usize
    requires words { length words.now ≡ word_count (length src.now) }
    requires clear { AllBits (bits_of_words words.now) (length src.now) (64 * length words.now)
        false }
    requires room { true_count_of (bits_of_words words.now) ≤ length dst.old }
    ensures { AreCompacted src.now words.now dst.old dst.new result }
{
    if has_long_runs(words, count) {
        compact_runs(src, words, dst)
    } else {
        compact_words(src, words, dst)
    }
}

// Copies the `count` items at the set bits to the front of the output: row after row where many are
// selected and an item has at most 16 bytes.
fn keep<T: Copy>(src: &[T], words: &[u64], count: usize, dst: &mut [T], size: usize) -> usize
    requires words { length words.now ≡ word_count (length src.now) }
    requires clear { AllBits (bits_of_words words.now) (length src.now) (64 * length words.now)
        false }
    requires counted { count ≡ true_count_of (bits_of_words words.now) }
    requires room { count ≤ length dst.old }
    ensures { AreCompacted src.now words.now dst.old dst.new result }
{
    if size <= 16 && has_many_rows(words, count) {
        compact_rows(src, words, count, dst)
    } else {
        compact(src, words, count, dst)
    }
}

// Copies the items, of so many bytes, at the set bits of a mask's words, all of which are its own.
fn filter_words<T: Copy>(src: &[T], words: &[u64], dst: &mut [T], size: usize) -> Answer
    requires { mask_fault (length src.now) words.now ≡ 0 }
    ensures { IsFiltered src.now words.now 0 dst.old dst.new result.status result.value }
{
    let count = count_set(words);
    if count > dst.len() {
        return Answer {
            status: ROOM,
            value: count as u64,
        };
    }
    let kept = keep(src, words, count, dst, size);
    Answer {
        status: DONE,
        value: kept as u64,
    }
}

// Copies the items at the mask's set bits to the front of the output, a word of them at a time.
fn put_picked<T: Copy>(src: &[T], mask: &Bits, dst: &mut [T]) -> usize
    requires same { length mask.now ≡ length src.now }
    requires room { true_count_of mask.now ≤ length dst.old }
    ensures count { result ≡ true_count_of mask.now }
    ensures front { take result dst.new ≡ items_where_true mask.now src.now }
    ensures rest { drop result dst.new ≡ drop result dst.old }
{
    let mut kept = 0;
    for i in 0..mask.len().div_ceil(64) {
        let word = mask.word(i);
        kept = copy_picked(dst, kept, src, 64 * i, word);
    }
    kept
}

// Copies the items at the set ones of so many bits of the words from bit `mask_at` on.
fn filter_at<T: Copy>(src: &[T], words: &[u64], mask_at: usize, dst: &mut [T]) -> Answer
    requires { mask_at + length src.now ≤ 64 * length words.now }
    ensures { IsFiltered src.now words.now mask_at dst.old dst.new result.status result.value }
{
    let mask = Bits::new(words, mask_at, src.len());
    let count = count_bits(&mask);
    if dst.len() < count {
        return Answer {
            status: ROOM,
            value: count as u64,
        };
    }
    let kept = put_picked(src, &mask, dst);
    Answer {
        status: DONE,
        value: kept as u64,
    }
}

/// Copies the items, of `size` bytes each, at the set bits of `words` to the front of `dst`, in
/// order. The answer is how many they are. The mask's bits are as many as there are items, from bit
/// `mask_at` on.
///
/// 1: `words` do not hold so many bits. 3: `dst` is too small, and the number is how many items are
/// selected.
pub fn filter_records<T: Copy>(
    src: &[T],
    words: &[u64],
    mask_at: usize,
    dst: &mut [T],
    size: usize,
) -> Answer
    ensures { IsFiltered src.now words.now mask_at dst.old dst.new result.status result.value }
{
    if !hold(words, mask_at, src.len()) {
        return Answer::refused(LENGTHS);
    }
    if mask_at == 0 && fault_of(words, src.len()) == DONE {
        filter_words(src, words, dst, size)
    } else {
        filter_at(src, words, mask_at, dst)
    }
}
