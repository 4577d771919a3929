//! Which rows of a column of bools are true.
ghost use Rattle.std.specs.Prelude.{◌≡◌, ◌≢◌, ℕ, ◌↔◌, ◌<◌, IfOk, IsOk, None, length, slice_index_or, true};
ghost use Rattle.std.specs.List.{items_where_true};
ghost use Rattle.vx_bits.specs.BitBuffer.{true_count_of};
ghost use Rattle.vx_mask.specs.Mask.{mask_bits};
ghost use Rattle.vx_types.specs.Nullability.{is_nullable};
ghost use Rattle.vx_types.specs.RowValue.{null};
ghost use Rattle.vx_model.specs.Valid.{is_yes};
ghost use Rattle.vx_column.specs.Truth.{is_plain_bools, true_bits};
ghost use Rattle.vx_reading.specs.BoolRows.{IsStretch, bit_in, is_bool_type};

use crate::layouts::{bools_from, constant_from, kept_from, kept_true_rows};
use crate::stretch::{Stretch, word_from};
use std::alloc::Global;
use vx_bits::{BitBuffer, BitBuilder, NoMemory};
use vx_column::{Array, Cell, DType, Layout};
use vx_mask::Mask;

/// Whether the type is that of bools.
pub fn is_bool(column: &Array) -> bool
    ensures { result ≡ is_bool_type column.now.dtype }
{
    match column.dtype() {
        DType::Bool(_) => true,
        _ => false,
    }
}

/// The bit in row `i` of a column of bools; none exactly where the row is null. It takes no
/// memory.
pub fn bit_at(column: &Array, i: usize) -> Option<bool>
    requires bool { is_bool_type column.now.dtype ≡ true }
    requires row { i < length column.now.rows }
    ensures value { result ≡ bit_in (slice_index_or column.now.rows i null) }
    ensures null { (result ≡ None) ↔ (slice_index_or column.now.rows i null ≡ null) }
    ensures nullable { result ≡ None → is_nullable column.now.dtype.nullability ≡ true }
{
    match column.cell_at(i) {
        Cell::Null => None,
        Cell::Bit(bit) => Some(bit),
        Cell::Bytes(_) | Cell::List(_) | Cell::Fields(_) | Cell::Tagged(_) => { unreachable!() }
    }
}

// Whether row `i` is true; a null isn't.
fn is_true_at(column: &Array, i: usize) -> bool
    requires { i < length column.now.rows }
    ensures { result ≡ is_yes (slice_index_or column.now.rows i null) }
{
    match column.cell_at(i) {
        Cell::Bit(bit) => bit,
        _ => false,
    }
}

// The rows from `start` on, from row to row.
fn true_from_by_rows(column: &Array, start: usize) -> Stretch
    requires { start < length column.now.rows }
    ensures { IsStretch (true_bits column.now) start result.word result.len }
{
    let len = (column.len() - start).min(64);
    let mut word = 0;
    for k in 0..len {
        if is_true_at(column, start + k) {
            word |= 1 << k;
        }
    }
    Stretch { word, len }
}

/// The rows from `start` on, as many as are told at once.
#[cycle(truth)]
#[tactic(auto, using(vx_model::proofs::Layouts::layout_rows, vx_model::proofs::LazyRows::lazy_rows))]
pub(crate) fn true_from(column: &Array, start: usize) -> Stretch
    requires { start < length column.now.rows }
    ensures { IsStretch (true_bits column.now) start result.word result.len }
{
    match column.layout() {
        Layout::Bool(a) => bools_from(a, start),
        Layout::Constant(a) => constant_from(a, start),
        Layout::Filter(a) => kept_from(a, start),
        _ => true_from_by_rows(column, start),
    }
}

// How many rows are true, a stretch after another.
fn true_rows_by_stretches(column: &Array) -> usize
    ensures { result ≡ true_count_of (true_bits column.now) }
{
    let len = column.len();
    let (mut count, mut at) = (0, 0);
    'stretch: while at < len {
        let next = true_from(column, at);
        count += next.word.count_ones() as usize;
        at += next.len;
    }
    count
}

/// How many of the rows at the set bits are true, a stretch after another.
pub(crate) fn true_rows_at(column: &Array, bits: &BitBuffer) -> usize
    requires { length bits.now.bits ≡ length column.now.rows }
    ensures { result ≡ true_count_of (items_where_true bits.now.bits (true_bits column.now)) }
{
    let len = column.len();
    let (mut count, mut at) = (0, 0);
    'stretch: while at < len {
        let next = true_from(column, at);
        let kept = next.word & word_from(bits, at, next.len);
        count += kept.count_ones() as usize;
        at += next.len;
    }
    count
}

/// How many rows are true; a null isn't. It takes no memory.
#[cycle(true_rows)]
#[tactic(auto, using(vx_model::proofs::Layouts::layout_rows))]
pub fn true_rows(column: &Array) -> usize
    ensures { result ≡ true_count_of (true_bits column.now) }
{
    match column.layout() {
        Layout::Filter(a) => kept_true_rows(a),
        _ => true_rows_by_stretches(column),
    }
}

// The bits that say which rows are true, a stretch after another.
fn true_bits(alloc: Global, column: &Array) -> Result<BitBuffer, NoMemory>
    ensures { IfOk result (λ b. b.bits ≡ true_bits column.now) }
{
    let len = column.len();
    let mut bits = BitBuilder::with_capacity(alloc, len)?;
    let mut at = 0;
    'stretch: while at < len {
        let next = true_from(column, at);
        bits.append_word(next.word, next.len)?;
        at += next.len;
    }
    bits.finish()
}

/// The mask of the rows that are true, as long as the column; a null isn't. The bits of layout
/// `Bool` whose validity isn't an array are shared, which takes no memory, but where all rows are
/// null. Fails only with `NoMemory`.
pub fn mask_of(alloc: Global, column: &Array) -> Result<Mask, NoMemory>
    ensures bits { IfOk result (λ m. mask_bits m ≡ true_bits column.now) }
    ensures shared { (i : ℕ) → is_plain_bools column.now ≡ true
        → slice_index_or column.now.rows i null ≢ null → IsOk result }
{
    if let Some(bits) = column.plain_bits() {
        return Ok(Mask::from_buffer(bits.share()));
    }
    Ok(Mask::from_buffer(true_bits(alloc, column)?))
}
