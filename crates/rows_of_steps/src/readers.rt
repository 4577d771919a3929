//! The readers of one row.

use crate::arguments::{column_at, number_at};
use crate::lines::push_shown;
use crate::sources::bools_of;
use serde_json::Value;
use std::alloc::Global;
use std::test::Fail;
use vx_column::{Array, Cell, LayoutName, Row};
use vx_plain::ReadLayout;

/// Appends a row of a flat type.
fn push_row(lines: &mut String, row: &Row) -> Result<(), Fail> {
    match row {
        Row::Null => Ok(lines.push_str("= null\n")?),
        Row::Bit(bit) => push_shown(lines, bit),
        Row::Bytes(bytes) => push_shown(lines, &bytes.as_slice()),
        _ => Ok(lines.push_str("= nested\n")?),
    }
}

/// Appends the cell of a row of a flat type.
fn push_cell(lines: &mut String, cell: Cell<'_>) -> Result<(), Fail> {
    match cell {
        Cell::Null => Ok(lines.push_str("= null\n")?),
        Cell::Bit(bit) => push_shown(lines, &bit),
        Cell::Bytes(bytes) => push_shown(lines, &bytes),
        _ => Ok(lines.push_str("= nested\n")?),
    }
}

/// The stored bytes of a row of numbers.
fn record_at(column: &Array, at: usize) -> Result<&[u8], Fail> {
    if at >= column.len() || column.layout_name() != LayoutName::Primitive {
        return Err("no row of numbers".into());
    }
    Ok(column.record_at(at))
}

/// The bit in a row of bools.
fn bit_at(column: &Array, at: usize) -> Result<Option<bool>, Fail> {
    if at >= column.len() || !vx_reading::is_bool(column) {
        return Err("no row of bools".into());
    }
    Ok(vx_reading::bit_at(column, at))
}

/// Appends what a reader gives of a row.
fn push_read(
    lines: &mut String,
    alloc: Global,
    column: &Array,
    at: usize,
    call: &str,
) -> Result<(), Fail> {
    if at >= column.len() {
        return Err("past the last row".into());
    }
    match call {
        "row_at" => push_row(lines, &vx_reading::row_at(alloc, column, at)?),
        "cell_at" => push_cell(lines, column.cell_at(at)),
        "is_valid_at" => push_shown(lines, &column.is_valid_at(at)),
        "record_at" => push_shown(lines, &record_at(column, at)?),
        _ => push_shown(lines, &bit_at(column, at)?),
    }
}

/// The column that is read: the one that stands there, or bools with the bits of their validity.
fn column_read(alloc: Global, row: &Value) -> Result<Array, Fail> {
    if row.get("bits").is_some() {
        return Ok(bools_of(alloc, row)??.into_array());
    }
    column_at(alloc, row, "column")
}

/// Appends what a reader gives of the row `at`, or of each row where none is named.
pub(crate) fn push_reads(
    lines: &mut String,
    alloc: Global,
    row: &Value,
    call: &str,
) -> Result<(), Fail> {
    let column = column_read(alloc, row)?;
    if row.get("at").is_some() {
        return push_read(lines, alloc, &column, number_at(row, "at")?, call);
    }
    for at in 0..column.len() {
        push_read(lines, alloc, &column, at, call)?;
    }
    Ok(())
}
