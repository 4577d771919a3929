//! The maximal runs of a mask.
ghost use Rattle.std.specs.Prelude.{◌≡◌, ◌==◌, ℕ, ◌+◌, ◌*◌, ◌/◌, ◌%◌, ◌^◌, ◌≤◌, List, ◌++◌, length, map, take, drop, bit_xor};
ghost use Rattle.std.specs.Int.{bit_at};
ghost use Rattle.std.specs.Int.RustNames.{count_ones};
ghost use Rattle.vx_bits.specs.Words.{word_bits, word_count};
ghost use Rattle.vx_mask.specs.Positions.{maximal_runs, positions};
ghost use Rattle.vx_words.specs.Masks.{mask_fault};
ghost use Rattle.vx_words.specs.Runs.{AreRunsListed, open_start, pairs, rows_of, run_of, starts};

use crate::answer::{Answer, DONE, ROOM};
use crate::masks::fault_of;

/// A run of rows, from `start` up to `end`.
#[repr(C)]
#[derive(Clone, Copy)]
pub struct Run {
    pub start: u64,
    pub end: u64,
}

// The bits of a word that are other than the bit before them, so that a run starts or ends there:
// `before` is the word before it.
#[inline(always)]
fn marks_in(word: u64, before: u64) -> u64
    ensures { result ≡ bit_xor word (2 * word + before / 2 ^ 63) % 2 ^ 64 }
{
    word ^ ((word << 1) | (before >> 63))
}

// The bits of a word at which a run starts: `before` is the word before it.
#[inline(always)]
fn starts_in(word: u64, before: u64) -> u64
    ensures { word_bits result 64 ≡ starts (bit_at before 63 == 1) (word_bits word 64) }
{
    marks_in(word, before) & word
}

// How many maximal runs there are.
fn count_runs(words: &[u64], rows: usize) -> usize
    requires mask { mask_fault rows words.now ≡ 0 }
    requires lengths { length words.now ≡ word_count rows }
    ensures { result ≡ length (maximal_runs (rows_of words.now rows)) }
{
    let mut count = 0;
    let mut before = 0;
    for w in 0..rows.div_ceil(64) {
        count += starts_in(words[w], before).count_ones() as usize;
        before = words[w];
    }
    count
}

// How many runs are written, and where the one that has no end yet starts.
#[derive(Clone, Copy)]
struct Told {
    count: usize,
    begun: Option<u64>,
}

// Writes the runs that a word's marks tell behind so many others, each from a mark up to the next
// one. The word's first bit is row `base`.
#[inline(always)]
fn put_pairs(dst: &mut [Run], count: usize, base: u64, marks: u64) -> Told
    requires counted { base + 64 ≤ 2 ^ 64 }
    requires room { 2 * count + count_ones marks ≤ 2 * length dst.old + 1 }
    ensures told { (end : ℕ) (more : List ℕ)
        → take result.count dst.new ++ map run_of (pairs end (open_start result.begun ++ more))
        ≡ take count dst.old
        ++ map run_of (pairs end (positions base (word_bits marks 64) ++ more)) }
    ensures count { 2 * result.count + length (open_start result.begun)
        ≡ 2 * count + count_ones marks }
    ensures rest { drop result.count dst.new ≡ drop result.count dst.old }
{
    let mut next = count;
    let mut left = marks;
    'pairs: while left != 0 {
        let start = base + u64::from(left.trailing_zeros());
        let ends = left & (left - 1);
        if ends == 0 {
            return Told {
                count: next,
                begun: Some(start),
            };
        }
        let end = base + u64::from(ends.trailing_zeros());
        dst[next] = Run { start, end };
        next += 1;
        left = ends & (ends - 1);
    }
    Told {
        count: next,
        begun: None,
    }
}

// Writes the runs that a word's marks tell behind so many others. Where a run has no end yet, the
// first mark is its end. The word's first bit is row `base`.
#[inline(always)]
fn put_word(dst: &mut [Run], told: Told, base: u64, marks: u64) -> Told
    requires counted { base + 64 ≤ 2 ^ 64 }
    requires room { 2 * told.count + length (open_start told.begun) + count_ones marks
        ≤ 2 * length dst.old + 1 }
    ensures told { (end : ℕ) (more : List ℕ)
        → take result.count dst.new ++ map run_of (pairs end (open_start result.begun ++ more))
        ≡ take told.count dst.old ++ map run_of (pairs end
        (open_start told.begun ++ (positions base (word_bits marks 64) ++ more))) }
    ensures count { 2 * result.count + length (open_start result.begun)
        ≡ 2 * told.count + length (open_start told.begun) + count_ones marks }
    ensures rest { drop result.count dst.new ≡ drop result.count dst.old }
{
    let Some(start) = told.begun else {
        return put_pairs(dst, told.count, base, marks);
    };
    if marks == 0 {
        return told;
    }
    let end = base + u64::from(marks.trailing_zeros());
    dst[told.count] = Run { start, end };
    put_pairs(dst, told.count + 1, base, marks & (marks - 1))
}

// Writes the maximal runs to the front. One that has no end in the words ends with the rows.
fn put_runs(words: &[u64], rows: usize, dst: &mut [Run])
    requires mask { mask_fault rows words.now ≡ 0 }
    requires lengths { length words.now ≡ word_count rows }
    requires room { length (maximal_runs (rows_of words.now rows)) ≤ length dst.old }
    ensures { dst.new
        ≡ map run_of (maximal_runs (rows_of words.now rows))
        ++ drop (length (maximal_runs (rows_of words.now rows))) dst.old }
{
    let mut told = Told {
        count: 0,
        begun: None,
    };
    let mut before = 0;
    for w in 0..rows.div_ceil(64) {
        let marks = marks_in(words[w], before);
        told = put_word(dst, told, 64 * w as u64, marks);
        before = words[w];
    }
    if let Some(start) = told.begun {
        let end = rows as u64;
        dst[told.count] = Run { start, end };
    }
}

/// Writes the maximal runs of selected rows of a mask of so many to the front of `dst`, ascending:
/// none is empty, and no two touch. The answer is how many they are.
///
/// 1: `words` are not as many as hold a bit for each row. 2: a bit past the rows is set. 3: `dst`
/// is too small, and the number is how many runs there are.
pub fn list_runs(words: &[u64], rows: usize, dst: &mut [Run]) -> Answer
    ensures { AreRunsListed rows words.now dst.old dst.new result.status result.value }
{
    let fault = fault_of(words, rows);
    if fault != DONE {
        return Answer::refused(fault);
    }
    let count = count_runs(words, rows);
    let value = count as u64;
    if count > dst.len() {
        return Answer {
            status: ROOM,
            value,
        };
    }
    put_runs(words, rows, dst);
    Answer {
        status: DONE,
        value,
    }
}
