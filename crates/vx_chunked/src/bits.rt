//! A cursor over the bits of a mask.
ghost use Rattle.std.specs.Prelude.{◌≡◌, ◌+◌, ◌*◌, ◌^◌, ◌<◌, ◌≤◌, ◌++◌, Some, false, length, map, take, slice_get, slice_range, ◌-◌};
ghost use Rattle.std.specs.Int.RustNames.{count_ones};
ghost use Rattle.std.specs.List.{All, range_with_len};
ghost use Rattle.vx_bits.specs.Words.{word_at, word_bits, word_count};
ghost use Rattle.vx_filter.specs.Compact.{bits_of_words};
ghost use Rattle.vx_mask.specs.Positions.{AllBits, positions, set_of};
ghost use Rattle.vx_chunked.specs.Positions.{AscendFrom, places_of_words, positions_from};

use crate::cursor::Cursor;
use vx_bits::BitBuffer;
use vx_decoder::FILTER_CHUNK_LEN;
use vx_filter::{compact_runs, compact_words};
use vx_mask::MaskValues;

// The words of `len` bits that lie in one chunk, of which the first has place `from` and `count`
// are set, and zeros.
#[derive(Clone, Copy)]
struct BitFront {
    words: [u64; 16],
    from: usize,
    len: usize,
    count: usize,
    ghost fits: { from + len ≤ 1024 },
    ghost counted: { count ≡ length (places_of_words from len words) },
    ghost clear: { AllBits (bits_of_words (take (word_count len) words)) len (64 * word_count len)
        false },
}

/// Bits from `at` on, each a position that counts from value `offset` on, and those that were taken
/// last. A chunk's values are copied run after run where its runs have `long` bits on average.
#[derive(Drop)]
pub(crate) struct BitCursor<'a> {
    bits: &'a BitBuffer,
    at: usize,
    offset: usize,
    long: usize,
    front: BitFront,
    ghost counted: { offset + length bits.now.bits < 2 ^ 64 },
    ghost within: { at ≤ length bits.now.bits },
}

impl BitCursor<'_> {
    /// A cursor over the bits of a mask. A chunk's values are copied run after run where its runs
    /// have `long` bits on average.
    pub(crate) fn new<'a>(mask: &'a MaskValues, offset: usize, long: usize) -> BitCursor<'a>
        requires { offset + length mask.now.bits.bits < 2 ^ 64 }
        ensures { map (λ i. result.offset + i) (positions_from result.at result.bits.now.bits)
            ≡ map (λ i. offset + i) (set_of mask.now.bits.bits) }
    {
        BitCursor {
            bits: mask.bits(),
            at: 0,
            offset,
            long,
            front: BitFront {
                words: [0; 16],
                from: 0,
                len: 0,
                count: 0,
            },
        }
    }
}

// The bits from `start` up to `end` that lie in a chunk, of which the first has place `from`.
struct Part {
    start: usize,
    end: usize,
    from: usize,
}

// The bits from `first` on that lie in the chunk.
#[inline(always)]
fn part_in(bits: &BitBuffer, first: usize, offset: usize, chunk: usize) -> Part
    requires counted { offset + length bits.now.bits < 2 ^ 64 }
    requires within { first ≤ length bits.now.bits }
    requires fits { 1024 * (chunk + 1) < 2 ^ 64 }
    requires ahead { AscendFrom (1024 * chunk) (2 ^ 64)
        (map (λ i. offset + i) (positions_from first bits.now.bits)) }
    ensures ordered { result.start ≤ result.end }
    ensures within { result.end ≤ length bits.now.bits }
    ensures fits { result.from + (result.end - result.start) ≤ 1024 }
    ensures taken { map (λ i. offset + i) (positions_from first bits.now.bits)
        ≡ map (λ p. 1024 * chunk + p)
        (positions result.from (slice_range bits.now.bits result.start result.end))
        ++ map (λ i. offset + i) (positions_from result.end bits.now.bits) }
    ensures beyond { All (λ p. 1024 * (chunk + 1) ≤ p)
        (map (λ i. offset + i) (positions_from result.end bits.now.bits)) }
{
    let base = FILTER_CHUNK_LEN * chunk;
    let len = bits.len();
    let start = first.max(base.saturating_sub(offset)).min(len);
    let from = (offset + start).saturating_sub(base).min(FILTER_CHUNK_LEN);
    let end = start + (FILTER_CHUNK_LEN - from).min(len - start);
    Part { start, end, from }
}

// The words of bits that lie in one chunk, of which the first has place `from`.
#[inline(always)]
fn front_of(bits: &BitBuffer, from: usize) -> BitFront
    requires { from + length bits.now.bits ≤ 1024 }
    ensures places { places_of_words result.from result.len result.words
        ≡ positions from bits.now.bits }
    ensures inside { All (λ p. p < 1024) (places_of_words result.from result.len result.words) }
{
    let len = bits.len();
    let mut words = [0; 16];
    let count = load(bits, &mut words[..len.div_ceil(64)]);
    BitFront {
        words,
        from,
        len,
        count,
    }
}

// Reads the words of bits, and answers how many bits are set.
#[inline(always)]
fn load(bits: &BitBuffer, words: &mut [u64]) -> usize
    requires few { length bits.now.bits ≤ 1024 }
    requires room { length words.old ≡ word_count (length bits.now.bits) }
    ensures words { words.new
        ≡ map (word_at bits.now.bits) (range_with_len 0 (word_count (length bits.now.bits))) }
    ensures count { result ≡ length (positions 0 (bits_of_words words.new)) }
{
    let view = bits.words();
    let mut count = 0;
    for w in 0..words.len() {
        let word = view.word(w);
        words[w] = word;
        count += word.count_ones() as usize;
    }
    count
}

// Writes the places of the set bits of the words, of which the first has place `from`.
fn put_words(words: &[u64], from: usize, places: &mut [usize])
    requires counted { from + 64 * length words.now ≤ 2 ^ 63 }
    requires room { length places.old ≡ length (positions from (bits_of_words words.now)) }
    ensures { places.new ≡ positions from (bits_of_words words.now) }
{
    let mut used = 0;
    let mut base = from;
    let mut left: u64 = 0;
    let mut filled = 0;
    'bit: while filled < places.len() {
        if left == 0 {
            left = words[used];
            base = from + 64 * used;
            used += 1;
        } else {
            places[filled] = base + left.trailing_zeros() as usize;
            left &= left - 1;
            filled += 1;
        }
    }
}

// Whether the runs of set bits have at least `long` bits on average, `long` not 0. A run that
// crosses words counts in each.
#[inline(always)]
fn has_long_runs(words: &[u64], long: usize) -> bool {
    let (mut runs, mut ones) = (0u64, 0u64);
    for word in words {
        runs = runs.saturating_add(u64::from((word & !(word << 1)).count_ones()));
        ones = ones.saturating_add(u64::from(word.count_ones()));
    }
    long > 0 && runs <= ones / (long as u64)
}

// Copies the values of a chunk where bits are set.
fn copy_bits<T: Copy>(front: &BitFront, long: usize, values: &[T], dst: &mut [T])
    requires chunk { length values.now ≡ 1024 }
    requires room { length dst.old
        ≡ length (places_of_words front.now.from front.now.len front.now.words) }
    ensures { map Some dst.new ≡ map (slice_get values.now)
        (places_of_words front.now.from front.now.len front.now.words) }
{
    let words = &front.words[..front.len.div_ceil(64)];
    let values = &values[front.from..front.from + front.len];
    if has_long_runs(words, long) {
        compact_runs(values, words, dst);
    } else {
        compact_words(values, words, dst);
    }
}

impl<T: Copy> Cursor<T> for BitCursor<'_> {
    ghost use Rattle.vx_chunked.specs.Positions.{places_of_words, positions_from};

    ghost rest = { λ s. map (λ i. s.offset + i) (positions_from s.at s.bits.now.bits) };

    ghost taken = { λ s. places_of_words s.front.from s.front.len s.front.words };

    fn take_places(&mut self, chunk: usize) -> usize {
        let Part { start, end, from } = part_in(self.bits, self.at, self.offset, chunk);
        self.at = end;
        self.front = front_of(&self.bits.slice(start, end), from);
        self.front.count
    }

    fn next_chunk(&self, chunk: usize) -> usize {
        chunk
    }

    fn list_places(&self, places: &mut [usize]) {
        let front = &self.front;
        put_words(&front.words[..front.len.div_ceil(64)], front.from, places)
    }

    fn copy_values(&self, values: &[T], dst: &mut [T]) {
        copy_bits(&self.front, self.long, values, dst)
    }
}
