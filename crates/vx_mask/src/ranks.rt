//! Ranks, and counts before a place, by block counts and the words of one block.
ghost use Rattle.std.specs.Prelude.{◌≡◌, ◌+◌, ◌-◌, ◌*◌, ◌/◌, ◌%◌, ◌^◌, ◌<◌, ◌≤◌, length, slice_index, take};
ghost use Rattle.std.specs.Int.RustNames.{count_ones};
ghost use Rattle.std.specs.List.{range_with_len};
ghost use Rattle.vx_bits.specs.BitBuffer.{true_count_of};
ghost use Rattle.vx_bits.specs.WordReader.{then_told};
ghost use Rattle.vx_mask.specs.Positions.{rank_of};
ghost use Rattle.vx_mask.specs.Ranks.{blocks_of, words_between};

use vx_bits::WordReader;

/// The position of the `k`-th set bit, from 0.
///
/// `blocks` are the block counts of the bits: for each multiple of 512 up to their length, the
/// number of set bits before it. The words that are read are those of one block, from its first to
/// the one that has the bit, at most eight.
pub fn rank_words<R: WordReader>(bits: &mut R, blocks: &[usize], k: usize) -> usize
    requires blocks { blocks.now ≡ blocks_of (R.bits bits.old) }
    requires within { k < true_count_of (R.bits bits.old) }
    requires spare { 8 ≤ R.spare bits.old }
    ensures value { result ≡ rank_of (R.bits bits.old) k }
    ensures inside { result < length (R.bits bits.old) }
    ensures reads { R.reads bits.new
        ≡ then_told (R.reads bits.old) (words_between (512 * (result / 512)) (result + 1)) }
    ensures same { R.bits bits.new ≡ R.bits bits.old }
    ensures cost { R.spare bits.old
        ≤ R.spare bits.new + length (words_between (512 * (result / 512)) (result + 1)) }
    ensures few { length (words_between (512 * (result / 512)) (result + 1)) ≤ 8 }
{
    let block = block_with(blocks, k);
    rank_from(bits, 8 * block, blocks[block], k)
}

/// The number of set bits below `p`.
///
/// `blocks` are the block counts of the bits: for each multiple of 512 up to their length, the
/// number of set bits before it. The words that are read are those of one block, from its first to
/// the one that has the bit before `p`, at most eight, and none where `p` is a multiple of 512.
pub fn words_before<R: WordReader>(bits: &mut R, blocks: &[usize], p: usize) -> usize
    requires blocks { blocks.now ≡ blocks_of (R.bits bits.old) }
    requires within { p ≤ length (R.bits bits.old) }
    requires spare { 8 ≤ R.spare bits.old }
    ensures value { result ≡ true_count_of (take p (R.bits bits.old)) }
    ensures reads { R.reads bits.new
        ≡ then_told (R.reads bits.old) (words_between (512 * (p / 512)) p) }
    ensures same { R.bits bits.new ≡ R.bits bits.old }
    ensures cost { R.spare bits.old
        ≤ R.spare bits.new + length (words_between (512 * (p / 512)) p) }
    ensures few { length (words_between (512 * (p / 512)) p) ≤ 8 }
{
    let block = p / 512;
    let mut count = blocks[block];
    for w in 8 * block..p / 64 {
        count += bits.word(w).count_ones() as usize;
    }
    let rest = p % 64;
    if rest > 0 {
        count += (bits.word(p / 64) & ((1 << rest) - 1)).count_ones() as usize;
    }
    count
}

/// The position of the `k`-th set bit, from 0, where `before` bits are set before word `first`. It
/// reads the words from there on, up to the one that has the bit.
pub(crate) fn rank_from<R: WordReader>(bits: &mut R, first: usize, before: usize, k: usize) -> usize
    requires counted { before ≡ true_count_of (take (64 * first) (R.bits bits.old)) }
    requires behind { before ≤ k }
    requires within { k < true_count_of (R.bits bits.old) }
    requires spare { k < true_count_of (take (64 * (first + R.spare bits.old)) (R.bits bits.old)) }
    ensures value { result ≡ rank_of (R.bits bits.old) k }
    ensures inside { result < length (R.bits bits.old) }
    ensures passed { true_count_of (take result (R.bits bits.old)) ≤ k }
    ensures from { first ≤ result / 64 }
    ensures reads { R.reads bits.new
        ≡ then_told (R.reads bits.old) (range_with_len first (result / 64 + 1 - first)) }
    ensures same { R.bits bits.new ≡ R.bits bits.old }
    ensures cost { R.spare bits.old ≤ R.spare bits.new + (result / 64 + 1 - first) }
{
    let mut left = k - before;
    let last = bits.len() / 64;
    for w in first..last + 1 {
        let word = bits.word(w);
        let count = word.count_ones() as usize;
        if left < count {
            return 64 * w + place_with(word, left);
        }
        left -= count;
    }
    unreachable!()
}

// The last block with at most `k` set bits before it, by halving.
fn block_with(blocks: &[usize], k: usize) -> usize
    requires some { 0 < length blocks.now }
    requires first { slice_index blocks.now 0 ≤ k }
    ensures within { result < length blocks.now }
    ensures before { slice_index blocks.now result ≤ k }
    ensures next { result + 1 < length blocks.now → k < slice_index blocks.now (result + 1) }
{
    let (mut low, mut high) = (0, blocks.len());
    'halving: while high - low > 1 {
        let middle = low + (high - low) / 2;
        if blocks[middle] <= k {
            low = middle;
        } else {
            high = middle;
        }
    }
    low
}

/// The place of the `k`-th set bit of the word, from 0: the lowest, once k lower ones are cleared.
pub fn place_with(word: u64, k: usize) -> usize
    requires { k < count_ones word }
    ensures within { result < 64 }
    ensures before { count_ones (word % 2 ^ result) ≤ k }
    ensures next { k < count_ones (word % 2 ^ (result + 1)) }
{
    let mut left = word;
    for i in 0..k {
        // Only the loop's invariant speaks of it.
        let _ = i;
        left &= left - 1;
    }
    left.trailing_zeros() as usize
}
