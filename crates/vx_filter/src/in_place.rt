//! Filtering in place.
ghost use Rattle.std.specs.Prelude.{◌≡◌, ◌+◌, ◌<◌, ◌≤◌, ◌++◌, IfOk, IsOk, Some, true, length, take, drop, map, slice_get, slice_index_or, slice_set};
ghost use Rattle.std.specs.List.{All, items_where_true};
ghost use Rattle.vx_bits.specs.BitBuffer.{true_count_of};
ghost use Rattle.vx_bits.specs.Words.{word_bits};
ghost use Rattle.vx_filter.specs.Choice.{IsDense};
ghost use Rattle.vx_filter.specs.Words.{IsWordKept};
ghost use Rattle.vx_mask.specs.Positions.{ascending, run_positions, positions, set_of};

use crate::choice::{is_dense, useful_indices, useful_slices};
use crate::ladder::filter_slice;
use std::alloc::Global;
use std::mem::size_of_val;
use vx_bits::{BitBuffer, NoMemory};
use vx_mask::{MaskValues, Policy};

/// Moves the values at the set positions of `mask` to the front, in order, and answers their
/// number. What stands behind them then is not said.
///
/// Runs that the mask keeps are moved as such where they are one or long enough, else the values
/// at the indices that it keeps where they are few enough, else those of its words. The values do
/// not depend on the policy.
pub fn filter_slice_in_place<T: Copy>(values: &mut [T], mask: &MaskValues, policy: &Policy) -> usize
    requires { length mask.now.bits.bits ≡ length values.old }
    ensures count { result ≡ true_count_of mask.now.bits.bits }
    ensures front { take result values.new
        ≡ items_where_true mask.now.bits.bits values.old }
{
    let fields = policy.fields();
    if let Some(slices) = useful_slices(mask, fields) {
        return keep_slices(values, slices);
    }
    if let Some(indices) = useful_indices(mask, fields) {
        return keep_indices(values, indices);
    }
    keep_set(values, mask.bits())
}

/// The values at the set positions of `mask`, in order: in place where the mask's density is at
/// least the policy's `in_place_min`, else a copy. Fails only with `NoMemory`, and never in place.
pub fn filter_vec<T: Copy>(
    alloc: Global,
    mut values: Vec<T>,
    mask: &MaskValues,
    policy: &Policy,
) -> Result<Vec<T>, NoMemory>
    requires { length mask.now.bits.bits ≡ length values.items }
    ensures items { IfOk result (λ kept. kept.items
        ≡ items_where_true mask.now.bits.bits values.items) }
    ensures in_place { IsDense mask.now policy.now.in_place_min → IsOk result }
{
    if is_dense(mask, policy.fields().in_place_min) {
        let count = filter_slice_in_place(values.as_mut_slice(), mask, policy);
        values.truncate(count);
        return Ok(values);
    }
    filter_slice(alloc, values.as_slice(), mask, policy)
}

// From how many values on a run is moved by calls of the C library.
const LONG: usize = 1024;

// How many bytes of the stack a block of so many values may take.
const BLOCK_BYTES: usize = 16 * LONG;

// Moves the values at the indices, which ascend, to the front, and answers their number.
fn keep_indices<T: Copy>(values: &mut [T], indices: &[usize]) -> usize
    requires { ascending 0 (length values.old) indices.now ≡ true }
    ensures count { result ≡ length indices.now }
    ensures front { map Some (take result values.new)
        ≡ map (slice_get values.old) indices.now }
{
    for (i, index) in indices.iter().enumerate() {
        move_one(values, *index, i);
    }
    indices.len()
}

// Moves the values of the runs, which ascend and are not empty, to the front, and answers their
// number.
fn keep_slices<T: Copy>(values: &mut [T], slices: &[(usize, usize)]) -> usize
    requires some { All (λ run. run.0 < run.1) slices.now }
    requires ascend { ascending 0 (length values.old) (run_positions slices.now) ≡ true }
    ensures count { result ≡ length (run_positions slices.now) }
    ensures front { map Some (take result values.new)
        ≡ map (slice_get values.old) (run_positions slices.now) }
{
    let mut kept = 0;
    for run in slices {
        let count = run.1 - run.0;
        move_down(values, run.0, kept, count);
        kept += count;
    }
    kept
}

// Moves the values where bits are set to the front, and answers their number.
fn keep_set<T: Copy>(values: &mut [T], bits: &BitBuffer) -> usize
    requires { length bits.now.bits ≡ length values.old }
    ensures count { result ≡ true_count_of bits.now.bits }
    ensures front { map Some (take result values.new)
        ≡ map (slice_get values.old) (set_of bits.now.bits) }
{
    let words = bits.words();
    let mut kept = 0;
    for w in 0..bits.len().div_ceil(64) {
        kept = keep_picked(values, kept, 64 * w, words.word(w));
    }
    kept
}

/// Moves the values that a word picks to those that are kept, and answers how many are kept then.
/// The word's first bit has position `base`. The values behind the word's stay.
///
/// The values of a full word are moved whole, those of any other word one after another.
#[inline(always)]
pub fn keep_picked<T: Copy>(values: &mut [T], kept: usize, base: usize, word: u64) -> usize
    requires behind { kept ≤ base }
    requires within { ascending base (length values.old) (positions base (word_bits word 64))
        ≡ true }
    ensures { IsWordKept values.old values.new kept base word result }
{
    if word == u64::MAX {
        move_block::<T, 64>(values, base, kept);
        kept + 64
    } else if word != 0 {
        keep_word(values, kept, base, word)
    } else {
        kept
    }
}

// Moves the values that a word picks to those that are kept, one after another, the lowest set bit
// first, and returns how many are kept then.
#[inline(always)]
fn keep_word<T: Copy>(values: &mut [T], kept: usize, base: usize, word: u64) -> usize
    requires behind { kept ≤ base }
    requires within { ascending base (length values.old) (positions base (word_bits word 64))
        ≡ true }
    ensures { IsWordKept values.old values.new kept base word result }
{
    let mut next = kept;
    let mut left = word;
    for k in 0..word.count_ones() {
        // Only the loop's invariant speaks of it.
        let _ = k;
        move_one(values, base + left.trailing_zeros() as usize, next);
        next += 1;
        left &= left - 1;
    }
    next
}

// Moves the value at `from` to `to`.
#[inline(always)]
fn move_one<T: Copy>(values: &mut [T], from: usize, to: usize)
    requires from { from < length values.old }
    requires to { to < length values.old }
    ensures { (d : T) → values.new
        ≡ slice_set values.old to (slice_index_or values.old from d) }
{
    values[to] = values[from];
}

// Moves N values from `from` on to `to` on. They are copied out first, since the two may overlap.
#[inline(always)]
fn move_block<T: Copy, const N: usize>(values: &mut [T], from: usize, to: usize)
    requires from { from + N ≤ length values.old }
    requires to { to + N ≤ length values.old }
    ensures front { take (to + N) values.new
        ≡ take to values.old ++ take N (drop from values.old) }
    ensures after { drop (to + N) values.new ≡ drop (to + N) values.old }
{
    if let Some(block) = values[from..].first_chunk::<N>() {
        let block = *block;
        values[to..to + N].copy_from_slice(&block);
    }
}

// Moves `count` values from `from` on to `to` on, where they came from below. What stands between
// is free, so up to sixteen are moved as a block of sixteen where it ends there.
#[inline(always)]
fn move_down<T: Copy>(values: &mut [T], from: usize, to: usize, count: usize)
    requires down { to ≤ from }
    requires within { from + count ≤ length values.old }
    ensures front { take (to + count) values.new
        ≡ take to values.old ++ take count (drop from values.old) }
    ensures after { drop (from + count) values.new ≡ drop (from + count) values.old }
{
    if count <= 16 && from + count - to >= 16 {
        if let Some(block) = values[from..].first_chunk::<16>() {
            let block = *block;
            values[to..to + 16].copy_from_slice(&block);
            return;
        }
    }
    if count < LONG {
        move_items(values, from, to, count);
    } else {
        move_long(values, from, to, count);
    }
}

// Moves `count` values from `from` on down to `to` on, item after item.
#[inline(always)]
fn move_items<T: Copy>(values: &mut [T], from: usize, to: usize, count: usize)
    requires down { to ≤ from }
    requires within { from + count ≤ length values.old }
    ensures front { take (to + count) values.new
        ≡ take to values.old ++ take count (drop from values.old) }
    ensures after { drop (from + count) values.new ≡ drop (from + count) values.old }
{
    values.copy_within(from..from + count, to);
}

// Moves many values from `from` on down to `to` on, by calls of the C library: in parts that don't
// overlap where they go, else, except for wide values, in blocks that are copied out first.
#[inline(never)]
fn move_long<T: Copy>(values: &mut [T], from: usize, to: usize, count: usize)
    requires down { to ≤ from }
    requires long { 1024 ≤ count }
    requires within { from + count ≤ length values.old }
    ensures front { take (to + count) values.new
        ≡ take to values.old ++ take count (drop from values.old) }
    ensures after { drop (from + count) values.new ≡ drop (from + count) values.old }
{
    let gap = from - to;
    if gap >= LONG {
        copy_parts(values, from, to, count);
    } else if gap == 0 {
        return;
    } else if size_of_val(&values[..LONG]) <= BLOCK_BYTES {
        move_blocks(values, from, to, count);
    } else {
        move_items(values, from, to, count);
    }
}

// Moves `count` values from `from` on down to `to` on in parts, each copied to where none of it
// stands.
fn copy_parts<T: Copy>(values: &mut [T], from: usize, to: usize, count: usize)
    requires down { to < from }
    requires within { from + count ≤ length values.old }
    ensures front { take (to + count) values.new
        ≡ take to values.old ++ take count (drop from values.old) }
    ensures after { drop (from + count) values.new ≡ drop (from + count) values.old }
{
    let gap = from - to;
    let mut moved = 0;
    'part: while moved < count {
        let part = gap.min(count - moved);
        copy_down(values, from + moved, to + moved, part);
        moved += part;
    }
}

// Copies `count` values from `from` on to `to` on, all of them below.
#[inline(always)]
fn copy_down<T: Copy>(values: &mut [T], from: usize, to: usize, count: usize)
    requires down { to + count ≤ from }
    requires within { from + count ≤ length values.old }
    ensures front { take (to + count) values.new
        ≡ take to values.old ++ take count (drop from values.old) }
    ensures after { drop from values.new ≡ drop from values.old }
{
    let (front, back) = values.split_at_mut(from);
    front[to..to + count].copy_from_slice(&back[..count]);
}

// Moves `count` values from `from` on down to `to` on, in blocks that are copied out first.
fn move_blocks<T: Copy>(values: &mut [T], from: usize, to: usize, count: usize)
    requires down { to ≤ from }
    requires within { from + count ≤ length values.old }
    ensures front { take (to + count) values.new
        ≡ take to values.old ++ take count (drop from values.old) }
    ensures after { drop (from + count) values.new ≡ drop (from + count) values.old }
{
    let mut moved = 0;
    'block: while count - moved >= LONG {
        move_block::<T, LONG>(values, from + moved, to + moved);
        moved += LONG;
    }
    move_items(values, from + moved, to + moved, count - moved);
}
