//! Bits of several lists, in any order.
ghost use Rattle.std.specs.Prelude.{◌≡◌, ◌+◌, ◌<◌, ◌≤◌, MatchOption, false, length, slice_index_or, true};
ghost use Rattle.vx_bits.specs.BitBuffer.{number_of};
ghost use Rattle.vx_bits.specs.Words.{word_count};
ghost use Rattle.vx_words.specs.Bits.{words_of};
ghost use Rattle.vx_cuts.specs.Interleaving.{AreInside, IsFirstOutside, is_inside, item_in, items_at, items_from};
ghost use Rattle.vx_cuts.specs.Bits.{AreBitsInterleaved, all_held, bit_rooms_fault, bits_in, bits_of, is_held};

use crate::answer::untold;
use crate::own::NULL;
use vx_words::{Answer, DONE, INDEX, LENGTHS};

/// The `len` bits from bit `at` of the words on. It crosses a border to C as it stands.
#[repr(C)]
#[derive(Clone, Copy)]
pub struct BitRows<'a> {
    /// The words that hold the bits, lowest bit first.
    pub words: &'a [u64],
    /// Which bit of the words is the first one.
    pub at: usize,
    /// How many bits.
    pub len: usize,
}

// Whether the words hold the bits.
fn is_held(list: &BitRows) -> bool
    ensures { result ≡ is_held list.now }
{
    list.at as u128 + list.len as u128 <= 64 * list.words.len() as u128
}

// Whether the words of each list do.
fn all_held(lists: &[BitRows]) -> bool
    ensures { result ≡ all_held lists.now }
{
    lists.iter().all(is_held)
}

// Whether a place is a row of the lists, or a null's.
fn is_inside(lists: &[BitRows], part: u64, row: u64) -> bool
    requires { all_held lists.now ≡ true }
    ensures { result ≡ is_inside (bits_in lists.now) part row }
{
    if part == NULL {
        return true;
    }
    match lists.get(part as usize) {
        Some(list) => row < list.len as u64,
        None => false,
    }
}

// The first place that is not.
fn first_outside(lists: &[BitRows], parts: &[u64], rows: &[u64]) -> Option<usize>
    requires held { all_held lists.now ≡ true }
    requires rows { length rows.now ≡ length parts.now }
    ensures { MatchOption result (AreInside (bits_in lists.now) parts.now rows.now)
        (IsFirstOutside (bits_in lists.now) parts.now rows.now) }
{
    for k in 0..parts.len() {
        if !is_inside(lists, parts[k], rows[k]) {
            return Some(k);
        }
    }
    None
}

// A bit of a list.
fn bit_at(list: &BitRows, row: usize) -> bool
    requires held { is_held list.now ≡ true }
    requires within { row < list.now.len }
    ensures { result ≡ slice_index_or (bits_of list.now) row false }
{
    let place = list.at as u128 + row as u128;
    (list.words[(place / 64) as usize] >> (place % 64) as u32) & 1 == 1
}

// The bit at a place, and a clear one at a null's.
fn bit_in(lists: &[BitRows], part: u64, row: u64) -> bool
    requires held { all_held lists.now ≡ true }
    requires inside { is_inside (bits_in lists.now) part row ≡ true }
    ensures { result ≡ item_in false (bits_in lists.now) part row }
{
    if part == NULL {
        false
    } else {
        bit_at(&lists[part as usize], row as usize)
    }
}

// The bits at so many places from `start` on, the first one lowest.
fn word(lists: &[BitRows], parts: &[u64], rows: &[u64], start: usize, count: usize) -> u64
    requires held { all_held lists.now ≡ true }
    requires rows { length rows.now ≡ length parts.now }
    requires inside { AreInside (bits_in lists.now) parts.now rows.now }
    requires within { start + count ≤ length parts.now }
    requires short { count ≤ 64 }
    ensures { result
        ≡ number_of (items_from false (bits_in lists.now) parts.now rows.now start count) }
{
    let mut word: u64 = 0;
    for j in 0..count {
        let k = start + (count - 1 - j);
        word = 2 * word + u64::from(bit_in(lists, parts[k], rows[k]));
    }
    word
}

// Writes the bits at the places.
fn put_words(lists: &[BitRows], parts: &[u64], rows: &[u64], dst: &mut [u64])
    requires held { all_held lists.now ≡ true }
    requires rows { length rows.now ≡ length parts.now }
    requires inside { AreInside (bits_in lists.now) parts.now rows.now }
    requires room { length dst.old ≡ word_count (length parts.now) }
    ensures { dst.new ≡ words_of (items_at false (bits_in lists.now) parts.now rows.now) }
{
    for i in 0..parts.len().div_ceil(64) {
        let count = (parts.len() - 64 * i).min(64);
        dst[i] = word(lists, parts, rows, 64 * i, count);
    }
}

// Why so many places can't be written to so many words, or `DONE`.
fn fault_of(lists: &[BitRows], parts: usize, rows: usize, room: usize) -> u64
    ensures { result ≡ bit_rooms_fault lists.now parts rows room }
{
    if rows != parts {
        return LENGTHS;
    }
    if parts.div_ceil(64) != room {
        return LENGTHS;
    }
    if all_held(lists) { DONE } else { LENGTHS }
}

/// Writes for each place that bit of that list to `dst`, a clear one at each place that is a
/// null's, and clear bits to the end of the last word. Place k is row `rows[k]` of list `parts[k]`,
/// or a null's where that is all ones.
///
/// 1: `rows` is not as long as `parts`, `dst` is not of as many words as hold a bit for each, or
/// the words of a list do not hold its bits. 4: a place is no row of the lists, and the number is
/// the first one's.
pub fn interleave_bits(lists: &[BitRows], parts: &[u64], rows: &[u64], dst: &mut [u64]) -> Answer
    ensures { AreBitsInterleaved lists.now parts.now rows.now dst.old dst.new result.status
        result.value }
{
    let fault = fault_of(lists, parts.len(), rows.len(), dst.len());
    if fault != DONE {
        return untold(fault);
    }
    if let Some(k) = first_outside(lists, parts, rows) {
        return Answer {
            status: INDEX,
            value: k as u64,
        };
    }
    put_words(lists, parts, rows, dst);
    untold(DONE)
}
