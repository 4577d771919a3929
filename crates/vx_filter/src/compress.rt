//! Filtering by the bytes of a mask, whose set positions a table has.
ghost use Rattle.std.specs.Prelude.{◌≡◌, ◌+◌, ◌^◌, ◌<◌, ◌≤◌, ◌++◌, [], IfOk, IsTrue, OnOk, Some, length, take, map, slice_get, vec_len, vec_capacity};
ghost use Rattle.std.specs.List.{All, items_where_true};
ghost use Rattle.std.specs.Int.RustNames.{count_ones};
ghost use Rattle.vx_bits.specs.BitBuffer.{true_count_of};
ghost use Rattle.vx_bits.specs.Words.{word_bits};
ghost use Rattle.vx_filter.specs.Compress.{IsPlacesRow, IsTable, places_of};

use crate::bitmap::{filter_slice_by_bitmap, push_picked};
use std::alloc::Global;
use vx_bits::NoMemory;
use vx_mask::MaskValues;

// A mask with fewer set bits, or fewer clear ones, is not worth the table that its bytes are looked
// up in: few of its words are neither empty nor full.
const TABLE_PAYS_FROM_SET: usize = 1 << 14;

const TABLE_PAYS_FROM_CLEAR: usize = 1 << 9;

/// The set bit positions of each byte: Vortex's table of `byte_compress`.
///
/// Each byte has a row of eight: its positions, ascending, and then what is never read.
#[derive(Drop)]
pub struct CompressTable {
    places: Vec<u8>,
    ghost all_rows: { IsTable 256 places.items },
}

impl CompressTable {
    /// The table, with the row of each byte. Fails only with `NoMemory`.
    pub fn new(alloc: Global) -> Result<CompressTable, NoMemory>
        ensures { IfOk result (λ table. IsTable 256 table.places.items) }
    {
        let mut places = Vec::with_capacity(alloc, 2048)?;
        for byte in 0..256u16 {
            places.extend_from_slice(&row_of(byte as u8))?;
        }
        Ok(CompressTable { places })
    }

    /// The positions of the set bits of a byte, ascending.
    #[inline(always)]
    pub fn positions(&self, byte: u8) -> &[u8]
        ensures { result.now ≡ places_of byte }
    {
        &self.row(byte)[..byte.count_ones() as usize]
    }

    // The row of a byte.
    #[inline(always)]
    fn row(&self, byte: u8) -> &[u8]
        ensures { IsPlacesRow byte result.now }
    {
        let start = 8 * byte as usize;
        &self.places[start..start + 8]
    }
}

// The positions of a byte's set bits, ascending, in a row of eight. Each position is written, and
// stays if its bit is set.
fn row_of(byte: u8) -> [u8; 8]
    ensures { IsPlacesRow byte result }
{
    let mut row = [0; 8];
    let mut count = 0;
    for bit in 0..8u8 {
        row[count] = bit;
        count += ((byte >> bit) & 1) as usize;
    }
    row
}

/// The items of `src` at the set positions of `mask`, in order, byte by byte: Vortex's
/// `byte_compress`. Fails only with `NoMemory`.
///
/// A mask with few set bits or few clear ones, and a word with few set bits or all, are done by
/// words: there that is less work.
pub fn byte_compress<T: Copy>(
    alloc: Global,
    src: &[T],
    mask: &MaskValues,
) -> Result<Vec<T>, NoMemory>
    requires { length mask.now.bits.bits ≡ length src.now }
    ensures { IfOk result (λ kept. kept.items ≡ items_where_true mask.now.bits.bits src.now) }
{
    if !pays_by_table(mask.true_count(), mask.len()) {
        return filter_slice_by_bitmap(alloc, src, mask);
    }
    let table = CompressTable::new(alloc)?;
    compress_by(alloc, src, mask, &table)
}

// The items of `src` at the set positions of `mask`, in order, by the table.
fn compress_by<T: Copy>(
    alloc: Global,
    src: &[T],
    mask: &MaskValues,
    table: &CompressTable,
) -> Result<Vec<T>, NoMemory>
    requires { length mask.now.bits.bits ≡ length src.now }
    ensures { IfOk result (λ kept. kept.items ≡ items_where_true mask.now.bits.bits src.now) }
{
    let room = mask.true_count().checked_add(8).ok_or(NoMemory)?;
    let mut kept = Vec::with_capacity(alloc, room)?;
    push_words(&mut kept, src, mask, table)?;
    Ok(kept)
}

// Appends the items at the set positions to an empty list, which has room for them and eight more.
#[inline(always)]
fn push_words<T: Copy>(
    kept: &mut Vec<T>,
    src: &[T],
    mask: &MaskValues,
    table: &CompressTable,
) -> Result<(), NoMemory>
    requires all_there { length mask.now.bits.bits ≡ length src.now }
    requires empty { kept.old.items ≡ [] }
    requires room { true_count_of mask.now.bits.bits + 8 ≤ vec_capacity kept.old }
    ensures { OnOk result (kept.new.items ≡ items_where_true mask.now.bits.bits src.now) }
{
    let words = mask.bits().words();
    for w in 0..mask.len().div_ceil(64) {
        let word = words.word(w);
        let items = &src[64 * w..];
        if pays_by_bytes(items.len(), word) {
            push_bytes(kept, &items[..64], word, table);
        } else {
            push_picked(kept, items, word)?;
        }
    }
    Ok(())
}

// Whether a mask of so many set bits is worth the table.
fn pays_by_table(true_count: usize, len: usize) -> bool
    requires { true_count ≤ len }
{
    true_count >= TABLE_PAYS_FROM_SET && len - true_count >= TABLE_PAYS_FROM_CLEAR
}

// Whether a word has all its items, and eight writes a byte are less work than one an item. A full
// word is copied whole.
#[inline(always)]
fn pays_by_bytes(items: usize, word: u64) -> bool
    ensures { IsTrue result → 64 ≤ items }
{
    let count = word.count_ones();
    40 < count && count < 64 && 64 <= items
}

// Appends the items where the bits of a word are set. There is room for them and eight more.
#[inline(always)]
fn push_bytes<T: Copy>(kept: &mut Vec<T>, items: &[T], word: u64, table: &CompressTable)
    requires all_there { length items.now ≡ 64 }
    requires room { vec_len kept.old + count_ones word + 8 ≤ vec_capacity kept.old }
    ensures items { kept.new.items
        ≡ kept.old.items ++ items_where_true (word_bits word 64) items.now }
    ensures capacity { vec_capacity kept.new ≡ vec_capacity kept.old }
{
    for k in 0..8 {
        let byte = ((word >> (8 * k)) & 0xff) as u8;
        push_byte(
            kept,
            items,
            8 * k,
            table.row(byte),
            byte.count_ones() as usize,
        );
    }
}

// Appends the items at the first places of a row, counted from `base` on. All of the row are
// written, without a test, and those behind the first are cut off again.
#[inline(always)]
fn push_byte<T: Copy>(kept: &mut Vec<T>, items: &[T], base: usize, row: &[u8], count: usize)
    requires within { All (λ p. base + p < length items.now) row.now }
    requires room { vec_len kept.old + length row.now ≤ vec_capacity kept.old }
    requires some { count ≤ length row.now }
    ensures items { map Some kept.new.items ≡ map Some kept.old.items
        ++ map (λ p. slice_get items.now (base + p)) (take count row.now) }
    ensures capacity { vec_capacity kept.new ≡ vec_capacity kept.old }
{
    let end = kept.len() + count;
    for place in row {
        kept.push_reserved(items[base + *place as usize]);
    }
    kept.truncate(end);
}
