//! A take of bits.
ghost use Rattle.std.specs.Prelude.{◌≡◌, ◌+◌, ◌*◌, ◌%◌, ◌<◌, ◌≤◌, ◌==◌, ◌++◌, ℕ, None, Some, if◌then◌else◌, false, true, length, drop};
ghost use Rattle.vx_bits.specs.BitBuffer.{number_of};
ghost use Rattle.vx_bits.specs.Words.{word_count};
ghost use Rattle.vx_take.specs.Picks.{at, item_at};
ghost use Rattle.vx_words.specs.Bits.{AreBitsTaken, bit_take_fault, bits_taken, words_of};
ghost use Rattle.vx_words.specs.Takes.{IsPast, pick_at, picks_at, valid_fault};

use crate::answer::{Answer, DONE, INDEX, LENGTHS, ROOM};
use crate::bits::{Bits, hold};
use crate::take::{fault_of_valid, first_past, there};

// The bit at an index, or a clear one where it is not there, lowest, and what stands above it.
#[inline(always)]
fn from_bit_or_clear(src: &Bits, there: bool, index: u64) -> u64
    requires { there ≡ true → index < length src.now }
    ensures { (result % 2 == 1) ≡ item_at false src.now (if there then Some index else None) }
{
    if there { src.from_bit(index) } else { 0 }
}

// Why so many picks of bits do not fit into so many words, or `DONE`.
fn fault_of(src: &[u64], src_at: usize, len: usize, picks: usize, valid: &[u64], room: usize) -> u64
    ensures { result ≡ bit_take_fault src.now src_at len picks valid.now room }
{
    if !hold(src, src_at, len) {
        return LENGTHS;
    }
    let fault = fault_of_valid(valid, picks);
    if fault == DONE && picks.div_ceil(64) > room {
        ROOM
    } else {
        fault
    }
}

// Picks of bits, no index of which is out of bounds.
#[derive(Drop)]
struct BitPicks<'a> {
    src: Bits<'a>,
    indices: &'a [u64],
    valid: &'a [u64],
    ghost told: { valid_fault (length indices.now) valid.now ≡ 0 },
    ghost within: { (k : ℕ) → IsPast (length src) indices.now valid.now k → ⊥ },
}

impl<'a> BitPicks<'a> {
    // The bit at pick `k`, or a clear one where it is null, lowest, and what stands above it.
    #[inline(always)]
    fn from_bit(&self, k: usize) -> u64
        requires { k < length self.now.indices.now }
        ensures { (result % 2 == 1)
            ≡ item_at false self.now.src (pick_at self.now.indices.now self.now.valid.now k) }
    {
        from_bit_or_clear(&self.src, there(self.valid, k), self.indices[k])
    }

    // The bit at pick `k`, or a clear one where it is null.
    #[inline(always)]
    fn bit(&self, k: usize) -> u64
        requires { k < length self.now.indices.now }
        ensures bit { result < 2 }
        ensures value { (result == 1)
            ≡ item_at false self.now.src (pick_at self.now.indices.now self.now.valid.now k) }
    {
        self.from_bit(k) & 1
    }

    // The bits at four picks from `k` on, the first one lowest.
    #[inline(always)]
    fn four(&self, k: usize) -> u64
        requires { k + 4 ≤ length self.now.indices.now }
        ensures { result ≡ number_of
            (bits_taken self.now.src self.now.indices.now self.now.valid.now k 4) }
    {
        let first = self.bit(k);
        let second = self.bit(k + 1);
        let third = self.bit(k + 2);
        let fourth = self.bit(k + 3);
        first + 2 * second + 4 * third + 8 * fourth
    }

    // The bits at 64 picks from `start` on: four at a time come in from above.
    #[inline(always)]
    fn full_word(&self, start: usize) -> u64
        requires { start + 64 ≤ length self.now.indices.now }
        ensures { result ≡ number_of
            (bits_taken self.now.src self.now.indices.now self.now.valid.now start 64) }
    {
        let mut top: u64 = 0;
        for j in 0..16 {
            let four = self.four(start + 4 * j);
            top = (top >> 4) | (four << 60);
        }
        top
    }

    // The bits at so many picks from `start` on: each comes in from above.
    #[inline(always)]
    fn part(&self, start: usize, count: usize) -> u64
        requires place { start + count ≤ length self.now.indices.now }
        requires some { 0 < count }
        requires few { count ≤ 64 }
        ensures { result ≡ number_of
            (bits_taken self.now.src self.now.indices.now self.now.valid.now start count) }
    {
        let mut top: u64 = 0;
        for j in 0..count {
            top = (top >> 1) | (self.from_bit(start + j) << 63);
        }
        top >> (64 - count)
    }

    // The bits at so many picks from `start` on, the first one lowest, and a clear one at each
    // null.
    #[inline(always)]
    fn word(&self, start: usize, count: usize) -> u64
        requires place { start + count ≤ length self.now.indices.now }
        requires some { 0 < count }
        requires few { count ≤ 64 }
        ensures { result ≡ number_of
            (bits_taken self.now.src self.now.indices.now self.now.valid.now start count) }
    {
        if count == 64 {
            self.full_word(start)
        } else {
            self.part(start, count)
        }
    }

    // Writes the bits at the picks, and a clear one at each null: 64 fill a word, but for the last
    // one.
    #[inline(always)]
    fn put_words(&self, dst: &mut [u64])
        requires { length self.now.indices.now ≤ 64 * length dst.old }
        ensures { dst.new
            ≡ words_of (at false self.now.src (picks_at self.now.indices.now self.now.valid.now))
            ++ drop (word_count (length self.now.indices.now)) dst.old }
    {
        for i in 0..self.indices.len().div_ceil(64) {
            let count = (self.indices.len() - 64 * i).min(64);
            dst[i] = self.word(64 * i, count);
        }
    }

    // These picks from the bits `src`, where none is null.
    #[inline(always)]
    fn all_there(&self, src: Bits<'a>) -> BitPicks<'a>
        requires same { src ≡ self.now.src }
        requires none { length self.now.valid.now ≡ 0 }
        ensures bits { result.src ≡ self.now.src }
        ensures indices { result.indices.now ≡ self.now.indices.now }
        ensures valid { result.valid.now ≡ self.now.valid.now }
    {
        BitPicks {
            src,
            indices: self.indices,
            valid: &[],
        }
    }

    // Writes the bits at the picks, and a clear one at each null, by a loop of its own for picks
    // that are all there, and for those of bits that begin with their words.
    #[inline(always)]
    fn put(&self, dst: &mut [u64])
        requires { length self.now.indices.now ≤ 64 * length dst.old }
        ensures { dst.new
            ≡ words_of (at false self.now.src (picks_at self.now.indices.now self.now.valid.now))
            ++ drop (word_count (length self.now.indices.now)) dst.old }
    {
        if !self.valid.is_empty() {
            self.put_words(dst);
        } else if let Some(src) = self.src.from_first() {
            self.all_there(src).put_words(dst);
        } else {
            self.all_there(self.src.share()).put_words(dst);
        }
    }
}

/// Writes the bits of `src` at the indices to the front of `dst`, in order, a clear one at each
/// null, and clear bits to the end of their last word. The answer is how many they are. The bits of
/// `src` are the `len` ones from bit `src_at` on. Pick k is null where bit k of `valid` is clear;
/// without words none is.
///
/// 1: `src` does not hold so many bits, or `valid` has words, but not as many as hold a bit for
/// each index. 2: a bit past the indices is set. 3: `dst` is too small, and the number is how many
/// indices there are. 4: an index that is not null is out of bounds, and the number is the first
/// one's place.
pub fn take_bit_words(
    src: &[u64],
    src_at: usize,
    len: usize,
    indices: &[u64],
    valid: &[u64],
    dst: &mut [u64],
) -> Answer
    ensures { AreBitsTaken src.now src_at len indices.now valid.now dst.old dst.new
        result.status result.value }
{
    let value = indices.len() as u64;
    let fault = fault_of(src, src_at, len, indices.len(), valid, dst.len());
    if fault != DONE {
        return Answer::refused_for(fault, value);
    }
    if let Some(k) = first_past(indices, valid, len) {
        return Answer {
            status: INDEX,
            value: k as u64,
        };
    }
    let picks = BitPicks {
        src: Bits::new(src, src_at, len),
        indices,
        valid,
    };
    picks.put(dst);
    Answer {
        status: DONE,
        value,
    }
}
