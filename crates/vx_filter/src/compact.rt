//! Copying the selected items to the front of another list.
ghost use Rattle.std.specs.Prelude.{◌≡◌, ◌+◌, ◌*◌, ◌^◌, ◌<◌, ◌≤◌, ◌++◌, true, false, length, take, drop, slice_index_or, slice_set};
ghost use Rattle.std.specs.List.{All};
ghost use Rattle.std.specs.Int.RustNames.{count_ones};
ghost use Rattle.vx_bits.specs.BitBuffer.{true_count_of};
ghost use Rattle.vx_bits.specs.Words.{word_bits, word_count};
ghost use Rattle.vx_filter.specs.Compact.{AreCompacted, IsLowestRun, bits_of_words};
ghost use Rattle.vx_filter.specs.Words.{IsWordCopied};
ghost use Rattle.vx_mask.specs.Positions.{AllBits, positions};

/// Copies the items of `src` where the bits of the words are set to the front of `dst`, in order,
/// and answers their number. The rest of `dst` stays.
///
/// The items of a full word are copied whole, those of any other word one after another.
pub fn compact_words<T: Copy>(src: &[T], words: &[u64], dst: &mut [T]) -> usize
    requires words { length words.now ≡ word_count (length src.now) }
    requires clear { AllBits (bits_of_words words.now) (length src.now) (64 * length words.now)
        false }
    requires room { true_count_of (bits_of_words words.now) ≤ length dst.old }
    ensures { AreCompacted src.now words.now dst.old dst.new result }
{
    compact::<ByItems, T>(src, words, dst)
}

/// Copies the items of `src` where the bits of the words are set to the front of `dst`, in order,
/// and returns their number. The rest of `dst` stays. Where the runs of a word are long, its items
/// are copied run after run: the carry of a sum clears the lowest run.
pub fn compact_runs<T: Copy>(src: &[T], words: &[u64], dst: &mut [T]) -> usize
    requires words { length words.now ≡ word_count (length src.now) }
    requires clear { AllBits (bits_of_words words.now) (length src.now) (64 * length words.now)
        false }
    requires room { true_count_of (bits_of_words words.now) ≤ length dst.old }
    ensures { AreCompacted src.now words.now dst.old dst.new result }
{
    compact::<ByRuns, T>(src, words, dst)
}

// Copies the items of `src` where the bits of the words are set to the front of `dst`, word after
// word, and returns their number.
#[inline(always)]
fn compact<C: CopyWord, T: Copy>(src: &[T], words: &[u64], dst: &mut [T]) -> usize
    requires words { length words.now ≡ word_count (length src.now) }
    requires clear { AllBits (bits_of_words words.now) (length src.now) (64 * length words.now)
        false }
    requires room { true_count_of (bits_of_words words.now) ≤ length dst.old }
    ensures { AreCompacted src.now words.now dst.old dst.new result }
{
    let mut kept = 0;
    for (w, word) in words.iter().enumerate() {
        kept = C::copy(dst, kept, src, 64 * w, *word);
    }
    kept
}

// Copies the items of one word.
trait CopyWord {
    // Copies the items that a word picks behind those that are kept, and answers how many are kept
    // then. The word's first bit has position `base`.
    fn copy<T: Copy>(dst: &mut [T], kept: usize, src: &[T], base: usize, word: u64) -> usize
        requires within { All (λ p. p < length src.now) (positions base (word_bits word 64)) }
        requires room { kept + count_ones word ≤ length dst.old }
        ensures { IsWordCopied src.now dst.old dst.new kept base word result };
}

// One item after another.
struct ByItems;

impl CopyWord for ByItems {
    #[inline(always)]
    fn copy<T: Copy>(dst: &mut [T], kept: usize, src: &[T], base: usize, word: u64) -> usize {
        copy_picked(dst, kept, src, base, word)
    }
}

// Run after run where they are long.
struct ByRuns;

impl CopyWord for ByRuns {
    #[inline(always)]
    fn copy<T: Copy>(dst: &mut [T], kept: usize, src: &[T], base: usize, word: u64) -> usize {
        if !has_long_runs(word) {
            return copy_picked(dst, kept, src, base, word);
        }
        let end = kept + word.count_ones() as usize;
        let mut next = kept;
        let mut left = word;
        'run: while left != 0 {
            let run = lowest_run(left);
            copy_run(dst, next, end, src, base + run.low, run.count);
            next += run.count;
            left = run.rest;
        }
        next
    }
}

/// Copies the items that a word picks behind those that are kept, and answers how many are kept
/// then. The word's first bit has position `base`.
#[inline(always)]
pub fn copy_picked<T: Copy>(dst: &mut [T], kept: usize, src: &[T], base: usize, word: u64) -> usize
    requires within { All (λ p. p < length src.now) (positions base (word_bits word 64)) }
    requires room { kept + count_ones word ≤ length dst.old }
    ensures { IsWordCopied src.now dst.old dst.new kept base word result }
{
    if word == u64::MAX {
        dst[kept..kept + 64].copy_from_slice(&src[base..base + 64]);
        kept + 64
    } else if word != 0 {
        copy_word(dst, kept, src, base, word)
    } else {
        kept
    }
}

// Copies the items that a word picks behind those that are kept, one after another, the lowest set
// bit first, and returns how many are kept then.
#[inline(always)]
fn copy_word<T: Copy>(dst: &mut [T], kept: usize, src: &[T], base: usize, word: u64) -> usize
    requires within { All (λ p. p < length src.now) (positions base (word_bits word 64)) }
    requires room { kept + count_ones word ≤ length dst.old }
    ensures { IsWordCopied src.now dst.old dst.new kept base word result }
{
    let mut next = kept;
    let mut left = word;
    for k in 0..word.count_ones() {
        // Only the loop's invariant speaks of it.
        let _ = k;
        copy_one(dst, next, src, base + left.trailing_zeros() as usize);
        next += 1;
        left &= left - 1;
    }
    next
}

// Copies the item at `from` to `to`.
#[inline(always)]
fn copy_one<T: Copy>(dst: &mut [T], to: usize, src: &[T], from: usize)
    requires from { from < length src.now }
    requires to { to < length dst.old }
    ensures { (d : T) → dst.new ≡ slice_set dst.old to (slice_index_or src.now from d) }
{
    dst[to] = src[from];
}

// Whether the runs of a word have four bits on average: else a run is more work than a turn for
// each item. A full word is copied whole.
#[inline(always)]
fn has_long_runs(word: u64) -> bool {
    let runs = (word & !(word << 1)).count_ones();
    4 * runs <= word.count_ones() && word != u64::MAX
}

/// The lowest run of set bits of a word, and the word without it.
#[derive(Clone, Copy)]
pub struct LowestRun {
    /// The run's lowest bit.
    pub low: usize,
    /// How many bits it has.
    pub count: usize,
    /// The word without it.
    pub rest: u64,
}

/// The lowest run of a word that is not 0.
///
/// The run's lowest bit is added to the word, so that the carry clears the run, and only bits that
/// the word had are kept. The sum wraps where the run ends at bit 63.
#[inline(always)]
pub fn lowest_run(word: u64) -> LowestRun
    requires { 0 < word }
    ensures { IsLowestRun word result.low result.count result.rest }
{
    let low = word.trailing_zeros();
    let count = (word >> low).trailing_ones();
    let rest = word & word.wrapping_add(1 << low);
    LowestRun {
        low: low as usize,
        count: count as usize,
        rest,
    }
}

// Copies `count` items from `from` on to `to` on. What stands behind them up to `end` is free, so
// up to sixteen are copied as a block of sixteen where it ends there: that is less than a call.
#[inline(always)]
fn copy_run<T: Copy>(dst: &mut [T], to: usize, end: usize, src: &[T], from: usize, count: usize)
    requires from { from + count ≤ length src.now }
    requires to { to + count ≤ end }
    requires end { end ≤ length dst.old }
    ensures front { take (to + count) dst.new
        ≡ take to dst.old ++ take count (drop from src.now) }
    ensures rest { drop end dst.new ≡ drop end dst.old }
{
    if count <= 16 && end - to >= 16 {
        if let Some(block) = src[from..].first_chunk::<16>() {
            dst[to..to + 16].copy_from_slice(block);
            return;
        }
    }
    dst[to..to + count].copy_from_slice(&src[from..from + count]);
}
