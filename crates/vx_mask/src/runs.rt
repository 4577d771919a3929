//! The set positions, and the maximal runs of them.
ghost use Rattle.std.specs.Prelude.{◌≡◌, ◌+◌, ◌-◌, ◌^◌, ◌<◌, ◌≤◌, ◌++◌, cond, IfOk, length, slice_index_or, not, false, vec_len, vec_capacity};
ghost use Rattle.std.specs.Int.RustNames.{count_ones};
ghost use Rattle.vx_bits.specs.BitBuffer.{true_count_of};
ghost use Rattle.vx_bits.specs.Words.{word_bits};
ghost use Rattle.vx_mask.specs.Positions.{AllBits, maximal_runs, positions, set_of};

use std::alloc::Global;
use vx_bits::{BitBuffer, NoMemory};

/// The set positions, ascending.
pub(crate) fn positions_of(
    alloc: Global,
    bits: &BitBuffer,
    count: usize,
) -> Result<Vec<usize>, NoMemory>
    requires { count ≡ true_count_of bits.now.bits }
    ensures { IfOk result (λ indices. indices.items ≡ set_of bits.now.bits) }
{
    let mut indices = Vec::with_capacity(alloc, count)?;
    let words = bits.words();
    for w in 0..bits.len() / 64 + 1 {
        push_positions(&mut indices, 64 * w, words.word(w));
    }
    Ok(indices)
}

// Appends the set positions of a word whose first bit has position `base`. There is room for them.
#[inline]
fn push_positions(indices: &mut Vec<usize>, base: usize, word: u64)
    requires counted { base + 64 ≤ 2 ^ 64 }
    requires room { vec_len indices.old + count_ones word ≤ vec_capacity indices.old }
    ensures items { indices.new.items ≡ indices.old.items ++ positions base (word_bits word 64) }
    ensures capacity { vec_capacity indices.new ≡ vec_capacity indices.old }
{
    let mut left = word;
    for k in 0..word.count_ones() {
        // Only the loop's invariant speaks of it.
        let _ = k;
        indices.push_reserved(base + left.trailing_zeros() as usize);
        left &= left - 1;
    }
}

/// The maximal runs of set bits, each from its start up to its end, ascending.
pub(crate) fn runs_of(alloc: Global, bits: &BitBuffer) -> Result<Vec<(usize, usize)>, NoMemory>
    ensures { IfOk result (λ runs. runs.items ≡ maximal_runs bits.now.bits) }
{
    let len = bits.len();
    let mut runs = Vec::new(alloc);
    let mut start = next_with(bits, 0, true);
    'runs: while start < len {
        let end = next_with(bits, start, false);
        runs.push((start, end))?;
        start = next_with(bits, end, true);
    }
    Ok(runs)
}

/// The first position from `from` on whose bit is `want`, or the number of bits.
pub(crate) fn next_with(bits: &BitBuffer, from: usize, want: bool) -> usize
    requires { from ≤ length bits.now.bits }
    ensures from { from ≤ result }
    ensures within { result ≤ length bits.now.bits }
    ensures passed { AllBits bits.now.bits from result (not want) }
    ensures found { result < length bits.now.bits
        → slice_index_or bits.now.bits result false ≡ want }
{
    let len = bits.len();
    let words = bits.words();
    let mut keep = u64::MAX << (from % 64);
    for w in from / 64..len / 64 + 1 {
        let found = wanted(words.word(w), want) & keep;
        if found != 0 {
            let place = found.trailing_zeros() as usize;
            return if place < len - 64 * w {
                64 * w + place
            } else {
                len
            };
        }
        keep = u64::MAX;
    }
    len
}

// The word whose set bits are those that are `want`.
#[inline(always)]
fn wanted(word: u64, want: bool) -> u64
    ensures { result ≡ cond want word (2 ^ 64 - 1 - word) }
{
    if want { word } else { !word }
}
