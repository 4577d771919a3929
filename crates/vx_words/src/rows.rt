//! Filters of records in which many rows are selected, in short runs.
ghost use Rattle.std.specs.Prelude.{◌≡◌, ◌+◌, ◌*◌, ◌<◌, ◌≤◌, ◌++◌, Some, false, length, take, drop, map, slice_get, slice_index_or, slice_set};
ghost use Rattle.std.specs.List.{All};
ghost use Rattle.std.specs.Int.RustNames.{count_ones};
ghost use Rattle.vx_bits.specs.BitBuffer.{true_count_of};
ghost use Rattle.vx_bits.specs.Words.{word_bits, word_count};
ghost use Rattle.vx_filter.specs.Compact.{AreCompacted, bits_of_words};
ghost use Rattle.vx_mask.specs.Positions.{AllBits, positions};
ghost use Rattle.vx_words.specs.Filters.{AreRowsPut};

use vx_filter::copy_picked;

// Copies the item at `from` to `to`.
#[inline(always)]
fn put_item<T: Copy>(dst: &mut [T], to: usize, src: &[T], from: usize)
    requires from { from < length src.now }
    requires to { to < length dst.old }
    ensures { (d : T) → dst.new ≡ slice_set dst.old to (slice_index_or src.now from d) }
{
    dst[to] = src[from];
}

// Copies the items of a word's rows, eight at a time: those at set bits stand one behind another,
// and what is written over is none of them.
#[inline(always)]
fn put_rows<T: Copy>(dst: &mut [T], to: usize, src: &[T], from: usize, word: u64) -> usize
    requires from { from + 64 ≤ length src.now }
    requires to { to + 64 ≤ length dst.old }
    ensures { AreRowsPut src.now from word 64 dst.old dst.new to result }
{
    let mut next = to;
    let mut left = word;
    for eight in 0..8 {
        next = put_eight(dst, next, src, from + 8 * eight, left);
        left >>= 8;
    }
    next
}

// Copies a row's item, and goes on behind it where the lowest bit is set: else the next item is
// written over it.
#[inline(always)]
fn put_row<T: Copy>(dst: &mut [T], to: usize, src: &[T], from: usize, bits: u64) -> usize
    requires from { from < length src.now }
    requires to { to < length dst.old }
    ensures { AreRowsPut src.now from bits 1 dst.old dst.new to result }
{
    put_item(dst, to, src, from);
    to + (bits & 1) as usize
}

// Copies the items of two rows, and goes on behind each whose bit is set: else the next item is
// written over it.
#[inline(always)]
fn put_two<T: Copy>(dst: &mut [T], to: usize, src: &[T], from: usize, bits: u64) -> usize
    requires from { from + 2 ≤ length src.now }
    requires to { to + 2 ≤ length dst.old }
    ensures { AreRowsPut src.now from bits 2 dst.old dst.new to result }
{
    let next = put_row(dst, to, src, from, bits);
    put_row(dst, next, src, from + 1, bits >> 1)
}

// Copies the items of four rows, and goes on behind each whose bit is set: else the next item is
// written over it.
#[inline(always)]
fn put_four<T: Copy>(dst: &mut [T], to: usize, src: &[T], from: usize, bits: u64) -> usize
    requires from { from + 4 ≤ length src.now }
    requires to { to + 4 ≤ length dst.old }
    ensures { AreRowsPut src.now from bits 4 dst.old dst.new to result }
{
    let next = put_two(dst, to, src, from, bits);
    put_two(dst, next, src, from + 2, bits >> 2)
}

// Copies the items of eight rows, and goes on behind each whose bit is set: else the next item is
// written over it.
#[inline(always)]
fn put_eight<T: Copy>(dst: &mut [T], to: usize, src: &[T], from: usize, bits: u64) -> usize
    requires from { from + 8 ≤ length src.now }
    requires to { to + 8 ≤ length dst.old }
    ensures { AreRowsPut src.now from bits 8 dst.old dst.new to result }
{
    let next = put_four(dst, to, src, from, bits);
    put_four(dst, next, src, from + 4, bits >> 4)
}

// Copies the items that a word picks behind those that are kept, and answers how many are kept
// then. What stands behind them up to `end` is free: where 64 rows fit there, each is written.
#[inline(always)]
fn copy_rows<T: Copy>(
    dst: &mut [T],
    kept: usize,
    end: usize,
    src: &[T],
    base: usize,
    word: u64,
) -> usize
    requires base { base ≤ length src.now }
    requires within { All (λ p. p < length src.now) (positions base (word_bits word 64)) }
    requires room { kept + count_ones word ≤ end }
    requires end { end ≤ length dst.old }
    ensures count { result ≡ kept + count_ones word }
    ensures front { map Some (take result dst.new) ≡ map Some (take kept dst.old)
        ++ map (slice_get src.now) (positions base (word_bits word 64)) }
    ensures rest { drop end dst.new ≡ drop end dst.old }
{
    if word != 0 && word != u64::MAX && end - kept >= 64 && src.len() - base >= 64 {
        put_rows(dst, kept, src, base, word)
    } else {
        copy_picked(dst, kept, src, base, word)
    }
}

/// Copies the items at the set bits, so many, to the front of the output, row after row.
pub(crate) fn compact_rows<T: Copy>(src: &[T], words: &[u64], count: usize, dst: &mut [T]) -> usize
    requires words { length words.now ≡ word_count (length src.now) }
    requires clear { AllBits (bits_of_words words.now) (length src.now) (64 * length words.now)
        false }
    requires counted { count ≡ true_count_of (bits_of_words words.now) }
    requires room { count ≤ length dst.old }
    ensures { AreCompacted src.now words.now dst.old dst.new result }
{
    let mut kept = 0;
    for (w, word) in words.iter().enumerate() {
        kept = copy_rows(dst, kept, count, src, 64 * w, *word);
    }
    kept
}
