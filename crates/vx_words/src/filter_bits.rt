//! A filter of bits.
ghost use Rattle.std.specs.Prelude.{◌≡◌, ◌+◌, ◌*◌, ◌<◌, ◌≤◌, None, Some, if◌then◌else◌, length, nat_lt};
ghost use Rattle.std.specs.Int.RustNames.{count_ones};
ghost use Rattle.vx_bitfilter.specs.Pext.{pext};
ghost use Rattle.vx_bits.specs.BitBuffer.{true_count_of};
ghost use Rattle.vx_bits.specs.Words.{word_count};
ghost use Rattle.vx_words.specs.Bits.{AreBitsFiltered, AreKeptBits};

use crate::answer::{Answer, DONE, LENGTHS, ROOM};
use crate::bits::{Bits, Packed, hold};
use vx_bitfilter::pext_fallback;

/// How many bits are set.
pub(crate) fn count_bits(bits: &Bits) -> usize
    ensures { result ≡ true_count_of bits.now }
{
    let mut count = 0;
    for i in 0..bits.len().div_ceil(64) {
        count += bits.word(i).count_ones() as usize;
    }
    count
}

// The bits of a word at the set bits of another, packed from bit 0, and how many they are.
#[derive(Clone, Copy)]
struct Kept {
    bits: u64,
    count: u32,
}

// A full word takes the other one whole.
#[inline(always)]
fn picked(word: u64, picks: u64) -> Kept
    ensures bits { result.bits ≡ pext word picks }
    ensures count { result.count ≡ count_ones picks }
{
    if picks == 0 {
        return Kept { bits: 0, count: 0 };
    }
    if picks == u64::MAX {
        return Kept {
            bits: word,
            count: 64,
        };
    }
    Kept {
        bits: pext_fallback(word, picks),
        count: picks.count_ones(),
    }
}

// Writes the bits at the mask's set bits to the front, and answers how many they are.
#[inline(always)]
fn put_words(src: &Bits, mask: &Bits, dst: &mut [u64]) -> usize
    requires same { length src.now ≡ length mask.now }
    requires room { true_count_of mask.now ≤ 64 * length dst.old }
    ensures { AreKeptBits src.now mask.now dst.old dst.new result }
{
    let mut kept = Packed::new();
    for i in 0..mask.len().div_ceil(64) {
        let picks = mask.word(i);
        let word = src.word(i);
        let found = picked(word, picks);
        kept = kept.append(dst, found.bits, found.count);
    }
    kept.close(dst);
    64 * kept.full + kept.held as usize
}

// Writes the bits at the mask's set bits to the front, and returns how many they are. Bits and
// masks from their first word on are the most common.
fn put_kept(src: &Bits, mask: &Bits, dst: &mut [u64]) -> usize
    requires same { length src.now ≡ length mask.now }
    requires room { true_count_of mask.now ≤ 64 * length dst.old }
    ensures { AreKeptBits src.now mask.now dst.old dst.new result }
{
    if let Some(src) = src.from_first() {
        if let Some(mask) = mask.from_first() {
            return put_words(&src, &mask, dst);
        }
    }
    put_words(src, mask, dst)
}

// How many bits of the mask are set, if so many words have no room for as many. Where they have
// room for a bit of each row, nothing is counted.
fn too_many(mask: &Bits, room: usize) -> Option<usize>
    ensures { result ≡ (if nat_lt room (word_count (true_count_of mask.now))
        then Some (true_count_of mask.now) else None) }
{
    if mask.len().div_ceil(64) <= room {
        return None;
    }
    let count = count_bits(mask);
    if count.div_ceil(64) > room {
        Some(count)
    } else {
        None
    }
}

/// Writes the bits of `src` at the mask's set bits to the front of `dst`, in order, and clear bits
/// to the end of their last word. The answer is how many they are. The bits of `src` are the `rows`
/// ones from bit `src_at` on, and those of the mask as many from bit `mask_at` on.
///
/// 1: `src` or `mask` do not hold so many bits. 3: `dst` is too small, and the number is how many
/// bits are selected.
pub fn filter_bit_words(
    src: &[u64],
    src_at: usize,
    mask: &[u64],
    mask_at: usize,
    rows: usize,
    dst: &mut [u64],
) -> Answer
    ensures { AreBitsFiltered src.now src_at mask.now mask_at rows dst.old dst.new
        result.status result.value }
{
    if !(hold(src, src_at, rows) && hold(mask, mask_at, rows)) {
        return Answer::refused(LENGTHS);
    }
    let src = Bits::new(src, src_at, rows);
    let mask = Bits::new(mask, mask_at, rows);
    if let Some(count) = too_many(&mask, dst.len()) {
        return Answer {
            status: ROOM,
            value: count as u64,
        };
    }
    let count = put_kept(&src, &mask, dst);
    Answer {
        status: DONE,
        value: count as u64,
    }
}
