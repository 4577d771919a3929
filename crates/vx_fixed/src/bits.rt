//! Rows at the set bits of a mask.
ghost use Rattle.std.specs.Prelude.{◌≡◌, ◌+◌, ◌*◌, ◌^◌, ◌<◌, ◌≤◌, ◌++◌, ℕ, List, length};
ghost use Rattle.std.specs.List.{All, range_with_len};
ghost use Rattle.std.specs.Int.RustNames.{count_ones};
ghost use Rattle.vx_bits.specs.BitBuffer.{true_count_of};
ghost use Rattle.vx_bits.specs.Words.{word_bits};
ghost use Rattle.vx_mask.specs.Positions.{positions, set_of};
ghost use Rattle.vx_fixed.specs.Rows.{ArePut, AreWritten};

use vx_bits::BitBuffer;
use vx_runs::{put_block, put_bytes};

// Writes the rows at the set bits of a word behind the `kept` rows that are written, and returns
// how many are written then. The word's first bit is that of row `from + base`.
#[inline(always)]
fn put_word<const W: usize>(
    out: &mut [u8],
    kept: usize,
    src: &[u8],
    from: usize,
    base: usize,
    word: u64,
) -> usize
    requires wide { 0 < W }
    requires there { All (λ p. (from + p + 1) * W ≤ length src.now)
        (positions base (word_bits word 64)) }
    requires room { (kept + count_ones word) * W ≤ length out.old }
    ensures count { result ≡ kept + count_ones word }
    ensures put { (old places : List ℕ) → length places ≡ kept
        → ArePut W src.now from places old out.old
        → ArePut W src.now from (places ++ positions base (word_bits word 64)) old out.new }
{
    let mut next = kept;
    let mut left = word;
    for k in 0..word.count_ones() {
        // Only the loop's invariant speaks of it.
        let _ = k;
        let place = base + left.trailing_zeros() as usize;
        put_block::<W>(out, next * W, src, (from + place) * W);
        next += 1;
        left &= left - 1;
    }
    next
}

// Writes the 64 rows from row `from + base` on behind the `kept` rows that are written.
#[inline(always)]
fn put_rows<const W: usize>(out: &mut [u8], kept: usize, src: &[u8], from: usize, base: usize)
    requires there { (from + base + 64) * W ≤ length src.now }
    requires small { from + base < 2 ^ 64 }
    requires room { (kept + 64) * W ≤ length out.old }
    ensures { (old places : List ℕ) → length places ≡ kept
        → ArePut W src.now from places old out.old
        → ArePut W src.now from (places ++ range_with_len base 64) old out.new }
{
    let first = (from + base) * W;
    put_bytes(out, kept * W, &src[first..first + 64 * W]);
}

// Writes the rows at the set bits of a word, as `put_word` does. If all bits are set, the rows are
// copied at once.
#[inline(always)]
fn put_picked<const W: usize>(
    out: &mut [u8],
    kept: usize,
    src: &[u8],
    from: usize,
    base: usize,
    word: u64,
) -> usize
    requires wide { 0 < W }
    requires there { All (λ p. (from + p + 1) * W ≤ length src.now)
        (positions base (word_bits word 64)) }
    requires room { (kept + count_ones word) * W ≤ length out.old }
    ensures count { result ≡ kept + count_ones word }
    ensures put { (old places : List ℕ) → length places ≡ kept
        → ArePut W src.now from places old out.old
        → ArePut W src.now from (places ++ positions base (word_bits word 64)) old out.new }
{
    if word == u64::MAX {
        put_rows::<W>(out, kept, src, from, base);
        return kept + 64;
    }
    put_word::<W>(out, kept, src, from, base, word)
}

/// Writes the rows of W bytes each at the set bits of a mask, whose first bit is that of row
/// `from`.
#[inline(always)]
pub fn write_at_bits<const W: usize>(bits: &BitBuffer, src: &[u8], from: usize, out: &mut [u8])
    requires wide { 0 < W }
    requires there { (from + length bits.now.bits) * W ≤ length src.now }
    requires room { true_count_of bits.now.bits * W ≤ length out.old }
    ensures { AreWritten W src.now from (set_of bits.now.bits) out.old out.new }
{
    let words = bits.words();
    let mut kept = 0;
    for w in 0..bits.len().div_ceil(64) {
        kept = put_picked::<W>(out, kept, src, from, 64 * w, words.word(w));
    }
}
