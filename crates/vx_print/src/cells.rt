//! Rows of flat types, read as cells and written by blocks: each block from its last row back to
//! its first.
ghost use Rattle.std.specs.Prelude.{◌≡◌, ◌+◌, ◌<◌, ◌≤◌, ◌++◌, codes, decimal, length, drop, map};
ghost use Rattle.std.specs.Prelude.{slice_index_or, slice_range, true, IsOk};
ghost use Rattle.vx_types.specs.DType.{type_of};
ghost use Rattle.vx_types.specs.PType.{width};
ghost use Rattle.vx_types.specs.RowValue.{null};
ghost use Rattle.vx_types.specs.TypeTree.{is_flat};
ghost use Rattle.vx_column.specs.Cell.{row_of, IsOfType};
ghost use Rattle.vx_print.specs.Text.{comma_list, lines, primitive_text, row_text};

use crate::joined::{push_next, put_gap};
use crate::record_lists::put_elements;
use crate::row::{BLOCK, ROOM, ROW, put_hex, put_number, put_unsigned, put_word};
use vx_bits::NoMemory;
use vx_column::{Array, Cell, DType, PType};
use vx_quote::has_room;

// Writes a record of a primitive type so that it ends at `end`, and answers where it begins.
#[inline(always)]
#[tactic(auto, using(crate::proofs::Widths::width_short))]
fn put_primitive(ptype: PType, bytes: &[u8], dst: &mut [u8; ROOM], end: usize) -> usize
    requires width { length bytes.now ≡ width ptype }
    requires room { ROW ≤ end }
    requires within { end ≤ ROOM }
    ensures room { end ≤ result + ROW }
    ensures within { result ≤ end }
    ensures put { drop result dst.new ≡ primitive_text ptype bytes.now ++ drop end dst.old }
{
    if ptype.is_int() {
        put_number(ptype, bytes, dst, end)
    } else {
        put_hex(bytes, dst, end)
    }
}

/// Appends a record of a primitive type, by way of `dst`. Fails only with `NoMemory`.
pub(crate) fn push_record(
    text: &mut Vec<u8>,
    dst: &mut [u8; ROOM],
    ptype: PType,
    bytes: &[u8],
) -> Result<(), NoMemory>
    requires { length bytes.now ≡ width ptype }
    ensures { IsOk result → text.new.items ≡ text.old.items ++ primitive_text ptype bytes.now }
{
    let at = put_primitive(ptype, bytes, dst, ROOM);
    text.extend_from_slice(&dst[at..])?;
    Ok(())
}

/// Appends a variant's id and a colon, by way of `dst`. Fails only with `NoMemory`.
pub(crate) fn push_id(text: &mut Vec<u8>, dst: &mut [u8; ROOM], id: u8) -> Result<(), NoMemory>
    ensures { IsOk result → text.new.items ≡ text.old.items ++ (decimal id ++ codes ":") }
{
    dst[ROOM - 1] = b':';
    let at = put_unsigned(u64::from(id), dst, ROOM - 1);
    text.extend_from_slice(&dst[at..])?;
    Ok(())
}

// Writes a row of this type so that it ends at `end`, and answers where it begins.
#[inline(always)]
#[tactic(auto, using(crate::proofs::Widths::decimal_short))]
fn put_row(dtype: &DType, row: Cell<'_>, dst: &mut [u8; ROOM], end: usize) -> usize
    requires flat { is_flat (type_of dtype.now) ≡ true }
    requires of_type { IsOfType row (type_of dtype.now) }
    requires room { ROW ≤ end }
    requires within { end ≤ ROOM }
    ensures room { end ≤ result + ROW }
    ensures within { result ≤ end }
    ensures put { drop result dst.new
        ≡ row_text (type_of dtype.now) (row_of row.entry) ++ drop end dst.old }
{
    match (row, dtype) {
        (Cell::Null, _) => put_word(b"null", dst, end),
        (Cell::Bit(true), _) => put_word(b"true", dst, end),
        (Cell::Bit(false), _) => put_word(b"false", dst, end),
        (Cell::Bytes(bytes), DType::Primitive(ptype, _)) => put_primitive(*ptype, bytes, dst, end),
        (Cell::Bytes(bytes), DType::Decimal(decimal, _)) => {
            let width = decimal.width();
            prove!(width <= 32);
            put_hex(bytes, dst, end)
        }
        (Cell::Bytes(_) | Cell::List(_) | Cell::Fields(_) | Cell::Tagged(_), _) => unreachable!(),
    }
}

// Writes the lines of the rows from `start` up to `end` so that they end where `dst` does, and
// answers where they begin.
fn put_rows(column: &Array, start: usize, end: usize, dst: &mut [u8; ROOM]) -> usize
    requires flat { is_flat column.now.dtype ≡ true }
    requires ordered { start ≤ end }
    requires block { end ≤ start + BLOCK }
    requires within { end ≤ length column.now.rows }
    ensures within { result ≤ ROOM }
    ensures put { drop result dst.new
        ≡ lines (row_text column.now.dtype) (slice_range column.now.rows start end) }
{
    let mut at = ROOM;
    for k in 0..end - start {
        at -= 1;
        dst[at] = b'\n';
        at = put_row(column.dtype(), column.cell_at(end - 1 - k), dst, at);
    }
    at
}

/// Appends a line for each row of a column of flat type. Fails only with `NoMemory`.
pub(crate) fn push_rows(text: &mut Vec<u8>, column: &Array) -> Result<(), NoMemory>
    requires { is_flat column.now.dtype ≡ true }
    ensures { IsOk result → text.new.items
        ≡ text.old.items ++ lines (row_text column.now.dtype) column.now.rows }
{
    let mut dst = [0; ROOM];
    for k in 0..column.len().div_ceil(BLOCK) {
        let start = BLOCK * k;
        let end = start + (column.len() - start).min(BLOCK);
        let at = put_rows(column, start, end, &mut dst);
        text.extend_from_slice(&dst[at..])?;
    }
    Ok(())
}

// Writes the rows from `start` up to `end`, with `, ` between them, so that they end where `dst`
// does, and answers where they begin: each is read as a cell.
fn put_cells(column: &Array, start: usize, end: usize, dst: &mut [u8; ROOM]) -> usize
    requires flat { is_flat column.now.dtype ≡ true }
    requires ordered { start ≤ end }
    requires block { end ≤ start + BLOCK }
    requires within { end ≤ length column.now.rows }
    ensures within { result ≤ ROOM }
    ensures put { drop result dst.new
        ≡ comma_list (map (row_text column.now.dtype) (slice_range column.now.rows start end)) }
{
    let mut at = ROOM;
    for k in 0..end - start {
        at = put_gap(k == 0, dst, at);
        at = put_row(column.dtype(), column.cell_at(end - 1 - k), dst, at);
    }
    at
}

// Writes the rows from `start` up to `end`, with `, ` between them, so that they end where `dst`
// does, and returns where they begin. Records are read where they are stored as such.
#[tactic(auto, using(crate::proofs::Lines::elements))]
fn put_joined(column: &Array, start: usize, end: usize, dst: &mut [u8; ROOM]) -> usize
    requires flat { is_flat column.now.dtype ≡ true }
    requires ordered { start ≤ end }
    requires block { end ≤ start + BLOCK }
    requires within { end ≤ length column.now.rows }
    ensures within { result ≤ ROOM }
    ensures put { drop result dst.new ≡ comma_list
        (map (row_text column.now.dtype) (slice_range column.now.rows start end)) }
{
    match column.plain_records() {
        Some(records) => put_elements(column.dtype(), records, start, end, dst),
        None => put_cells(column, start, end, dst),
    }
}

// Appends at most a block of them, by way of `dst`. It is no loop, so that a short list costs none.
fn push_block(
    text: &mut Vec<u8>,
    dst: &mut [u8; ROOM],
    column: &Array,
    start: usize,
    end: usize,
) -> Result<(), NoMemory>
    requires flat { is_flat column.now.dtype ≡ true }
    requires ordered { start ≤ end }
    requires block { end ≤ start + BLOCK }
    requires within { end ≤ length column.now.rows }
    ensures { IsOk result → text.new.items ≡ text.old.items
        ++ comma_list (map (row_text column.now.dtype) (slice_range column.now.rows start end)) }
{
    let at = put_joined(column, start, end, dst);
    text.extend_from_slice(&dst[at..])?;
    Ok(())
}

/// Appends the rows from `start` up to `end` of a column of flat type, with `, ` between them, by
/// way of `dst`. Fails only with `NoMemory`, also where the text would grow past its bound.
pub(crate) fn push_joined(
    text: &mut Vec<u8>,
    dst: &mut [u8; ROOM],
    column: &Array,
    start: usize,
    end: usize,
) -> Result<(), NoMemory>
    requires flat { is_flat column.now.dtype ≡ true }
    requires ordered { start ≤ end }
    requires within { end ≤ length column.now.rows }
    ensures { IsOk result → text.new.items ≡ text.old.items
        ++ comma_list (map (row_text column.now.dtype) (slice_range column.now.rows start end)) }
{
    if !has_room(text.len(), 0) {
        return Err(NoMemory);
    }
    if end - start <= BLOCK {
        return push_block(text, dst, column, start, end);
    }
    for k in 0..(end - start).div_ceil(BLOCK) {
        let from = start + BLOCK * k;
        let to = from + (end - from).min(BLOCK);
        push_next(text, k == 0)?;
        push_block(text, dst, column, from, to)?;
    }
    Ok(())
}

/// Appends row `i` of a column of flat type, by way of `dst`. Fails only with `NoMemory`, also
/// where the text would grow past its bound.
pub(crate) fn push_flat(
    text: &mut Vec<u8>,
    dst: &mut [u8; ROOM],
    column: &Array,
    i: usize,
) -> Result<(), NoMemory>
    requires flat { is_flat column.now.dtype ≡ true }
    requires row { i < length column.now.rows }
    ensures { IsOk result → text.new.items ≡ text.old.items
        ++ row_text column.now.dtype (slice_index_or column.now.rows i null) }
{
    if !has_room(text.len(), 0) {
        return Err(NoMemory);
    }
    let at = put_row(column.dtype(), column.cell_at(i), dst, ROOM);
    text.extend_from_slice(&dst[at..])?;
    Ok(())
}
