//! The runs of the set positions of a mask, found word by word.
ghost use Rattle.std.specs.Prelude.{◌≡◌, ◌+◌, ◌-◌, ◌<◌, ◌≤◌, ◌++◌, IfOk, IsSome, length, vec_len, vec_capacity};
ghost use Rattle.std.specs.Int.RustNames.{count_ones};
ghost use Rattle.std.specs.List.{All};
ghost use Rattle.vx_bits.specs.BitBuffer.{true_count_of};
ghost use Rattle.vx_bits.specs.Words.{word_bits};
ghost use Rattle.vx_mask.specs.Mask.{mask_bits, partial_of};
ghost use Rattle.vx_mask.specs.Positions.{positions, run_positions, set_of};

use std::alloc::Global;
use vx_bits::{BitBuffer, NoMemory};
use vx_filter::lowest_run;
use vx_mask::Mask;

/// Runs that cover the set positions, each from its start up to its end, ascending: those that the
/// mask keeps, else the runs of each word. Fails only with `NoMemory`.
pub(crate) fn set_runs(alloc: Global, mask: &Mask) -> Result<Vec<(usize, usize)>, NoMemory>
    requires { IsSome (partial_of mask.now) }
    ensures cover { IfOk result
        (λ runs. run_positions runs.items ≡ set_of (mask_bits mask.now)) }
    ensures none_empty { IfOk result (λ runs. All (λ run. run.0 < run.1) runs.items) }
{
    match mask.values() {
        Some(values) => match values.cached_slices() {
            Some(runs) => Ok(Vec::from_slice(alloc, runs)?),
            None => runs_in(alloc, values.bits(), values.true_count()),
        },
        None => unreachable!(),
    }
}

// The runs of set bits of each word.
fn runs_in(alloc: Global, bits: &BitBuffer, count: usize) -> Result<Vec<(usize, usize)>, NoMemory>
    requires { count ≡ true_count_of bits.now.bits }
    ensures cover { IfOk result (λ runs. run_positions runs.items ≡ set_of bits.now.bits) }
    ensures none_empty { IfOk result (λ runs. All (λ run. run.0 < run.1) runs.items) }
{
    let len = bits.len();
    let words = bits.words();
    let mut runs = Vec::with_capacity(alloc, count)?;
    for w in 0..len / 64 + 1 {
        push_runs(&mut runs, len, 64 * w, words.word(w));
    }
    Ok(runs)
}

// Appends the runs of a word whose first bit has position `base`, of bits that are set below `len`
// alone. There is room for them.
#[inline(always)]
fn push_runs(runs: &mut Vec<(usize, usize)>, len: usize, base: usize, word: u64)
    requires within { All (λ p. p < len) (positions base (word_bits word 64)) }
    requires none_empty { All (λ run. run.0 < run.1) runs.old.items }
    requires room { vec_len runs.old + count_ones word ≤ vec_capacity runs.old }
    ensures places { run_positions runs.new.items
        ≡ run_positions runs.old.items ++ positions base (word_bits word 64) }
    ensures none_empty { All (λ run. run.0 < run.1) runs.new.items }
    ensures count { vec_len runs.new ≤ vec_len runs.old + count_ones word }
    ensures capacity { vec_capacity runs.new ≡ vec_capacity runs.old }
{
    let mut left = lengthen_last(runs, len, base, word);
    'run: while left != 0 {
        let run = lowest_run(left);
        let start = base + run.low;
        runs.push_reserved((start, start + run.count));
        left = run.rest;
    }
}

// Lengthens the last run by the lowest one of such a word, where that begins at its end. Gives what
// is left of the word.
#[inline(always)]
fn lengthen_last(runs: &mut Vec<(usize, usize)>, len: usize, base: usize, word: u64) -> u64
    requires within { All (λ p. p < len) (positions base (word_bits word 64)) }
    requires none_empty { All (λ run. run.0 < run.1) runs.old.items }
    ensures places { run_positions runs.new.items ++ positions base (word_bits result 64)
        ≡ run_positions runs.old.items ++ positions base (word_bits word 64) }
    ensures within { All (λ p. p < len) (positions base (word_bits result 64)) }
    ensures none_empty { All (λ run. run.0 < run.1) runs.new.items }
    ensures ones { count_ones result ≤ count_ones word }
    ensures count { vec_len runs.new ≡ vec_len runs.old }
    ensures capacity { vec_capacity runs.new ≡ vec_capacity runs.old }
{
    // Only the contract speaks of it.
    let _ = len;
    let count = runs.len();
    if count == 0 || word % 2 == 0 {
        return word;
    }
    let run = lowest_run(word);
    let last = runs[count - 1];
    if last.1 != base + run.low {
        return word;
    }
    runs[count - 1] = (last.0, last.1 + run.count);
    run.rest
}
