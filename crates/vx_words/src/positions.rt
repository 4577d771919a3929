//! The set positions of a mask.
ghost use Rattle.std.specs.Prelude.{◌≡◌, ◌+◌, ◌*◌, ◌^◌, ◌<◌, ◌≤◌, ◌++◌, length, take, drop};
ghost use Rattle.std.specs.Int.RustNames.{count_ones};
ghost use Rattle.vx_bits.specs.Words.{word_bits};
ghost use Rattle.vx_filter.specs.Compact.{bits_of_words};
ghost use Rattle.vx_mask.specs.Positions.{positions, set_of};
ghost use Rattle.vx_words.specs.Masks.{count_of};
ghost use Rattle.vx_words.specs.Positions.{AreListed};

use crate::answer::{Answer, DONE, ROOM};
use crate::masks::{count_set, fault_of};

// Writes the set positions of a word, whose first bit has position `base`, behind those that stand
// there, and answers how many do then.
#[inline(always)]
fn put_word(dst: &mut [u64], kept: usize, base: u64, word: u64) -> usize
    requires counted { base + 64 ≤ 2 ^ 64 }
    requires room { kept + count_ones word ≤ length dst.old }
    ensures count { result ≡ kept + count_ones word }
    ensures front { take result dst.new
        ≡ take kept dst.old ++ positions base (word_bits word 64) }
    ensures rest { drop result dst.new ≡ drop result dst.old }
{
    let mut next = kept;
    let mut left = word;
    for k in 0..word.count_ones() {
        // Only the loop's invariant speaks of it.
        let _ = k;
        dst[next] = base + u64::from(left.trailing_zeros());
        next += 1;
        left &= left - 1;
    }
    next
}

// Writes the set positions of the words to the front.
fn put_positions(words: &[u64], dst: &mut [u64])
    requires counted { 64 * length words.now ≤ 2 ^ 64 }
    requires room { count_of words.now ≤ length dst.old }
    ensures { dst.new
        ≡ set_of (bits_of_words words.now) ++ drop (count_of words.now) dst.old }
{
    let mut kept = 0;
    for (w, word) in words.iter().enumerate() {
        kept = put_word(dst, kept, 64 * w as u64, *word);
    }
}

/// Writes the set positions of a mask of so many rows to the front of `dst`, ascending. The answer
/// is how many they are.
///
/// 1: `words` are not as many as hold a bit for each row. 2: a bit past the rows is set. 3: `dst`
/// is too small, and the number is how many are set.
pub fn list_positions(words: &[u64], rows: usize, dst: &mut [u64]) -> Answer
    ensures { AreListed rows words.now dst.old dst.new result.status result.value }
{
    let fault = fault_of(words, rows);
    if fault != DONE {
        return Answer::refused(fault);
    }
    let count = count_set(words);
    let value = count as u64;
    if count > dst.len() {
        return Answer {
            status: ROOM,
            value,
        };
    }
    put_positions(words, dst);
    Answer {
        status: DONE,
        value,
    }
}
