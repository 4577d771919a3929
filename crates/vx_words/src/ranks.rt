//! Ranks in a mask, and counts before a row.
ghost use Rattle.std.specs.Prelude.{◌≡◌, ◌+◌, ◌*◌, ◌%◌, ◌^◌, ◌<◌, ◌≤◌, length, take};
ghost use Rattle.std.specs.Int.RustNames.{count_ones};
ghost use Rattle.vx_bits.specs.BitBuffer.{true_count_of};
ghost use Rattle.vx_filter.specs.Compact.{bits_of_words};
ghost use Rattle.vx_mask.specs.Positions.{rank_of};
ghost use Rattle.vx_words.specs.Masks.{count_of};
ghost use Rattle.vx_words.specs.Positions.{IsCounted, IsRanked};

use crate::answer::{Answer, DONE, INDEX};
use crate::masks::{count_set, fault_of};
use vx_mask::place_with;

// The `k`-th set position, from 0.
fn position_of(words: &[u64], k: usize) -> usize
    requires counted { 64 * length words.now ≤ 2 ^ 64 }
    requires within { k < count_of words.now }
    ensures { result ≡ rank_of (bits_of_words words.now) k }
{
    let mut left = k;
    for (w, word) in words.iter().enumerate() {
        let count = word.count_ones() as usize;
        if left < count {
            return 64 * w + place_with(*word, left);
        }
        left -= count;
    }
    unreachable!()
}

// How many bits before `p` are set.
fn count_to(words: &[u64], p: usize) -> usize
    requires { p ≤ 64 * length words.now }
    ensures { result ≡ true_count_of (take p (bits_of_words words.now)) }
{
    let mut count = 0;
    for w in 0..p / 64 {
        count += words[w].count_ones() as usize;
    }
    if p % 64 > 0 {
        count += (words[p / 64] & ((1 << (p % 64)) - 1)).count_ones() as usize;
    }
    count
}

/// The `k`-th set position of a mask of so many rows, from 0.
///
/// 1: `words` are not as many as hold a bit for each row. 2: a bit past the rows is set. 4: not
/// more than `k` bits are set, and the number is how many are.
pub fn rank(words: &[u64], rows: usize, k: usize) -> Answer
    ensures { IsRanked rows words.now k result.status result.value }
{
    let fault = fault_of(words, rows);
    if fault != DONE {
        return Answer::refused(fault);
    }
    let count = count_set(words);
    if k >= count {
        return Answer {
            status: INDEX,
            value: count as u64,
        };
    }
    Answer {
        status: DONE,
        value: position_of(words, k) as u64,
    }
}

/// How many rows before `p` are selected, by a mask of so many rows.
///
/// 1: `words` are not as many as hold a bit for each row. 2: a bit past the rows is set. 4: `p` is
/// past the rows.
pub fn count_before(words: &[u64], rows: usize, p: usize) -> Answer
    ensures { IsCounted rows words.now p result.status result.value }
{
    let fault = fault_of(words, rows);
    if fault != DONE {
        return Answer::refused(fault);
    }
    if p > rows {
        return Answer::refused(INDEX);
    }
    Answer {
        status: DONE,
        value: count_to(words, p) as u64,
    }
}
