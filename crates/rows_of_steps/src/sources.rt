//! Calls over a whole column, and what constructors refuse.

use crate::arguments::{column_at, number_at, range_at, shared_at, text_at, validity_at};
use crate::lines::{push_mask, push_shown};
use serde_json::Value;
use std::alloc::Global;
use std::test::Fail;
use vx_bits::Buffer;
use vx_column::{
    Array, BinaryView, BoolArray, ColumnError, DecimalDType, InlineBytes, Layout, PrimitiveArray,
    TextKind, Validity, VarBinViewArray,
};
use vx_json::{bits_in, hex_values_of, list_member, ptype_named};
use vx_pieces::PiecewiseSequence;
use vx_plain::slice_plain;
use vx_reading::{mask_of, true_rows};
use vx_shared::Shared;

/// How many rows a slice has that allocates nothing.
fn plain_len(column: &Array, (start, end): (usize, usize)) -> Result<Option<usize>, Fail> {
    if start > end || end > column.len() {
        return Err("a slice past the rows".into());
    }
    match slice_plain(&column, start, end) {
        Some(rows) => Ok(Some(rows.len())),
        None => Ok(None),
    }
}

/// The type of a column of decimals.
fn decimal_of(column: &Array) -> Result<DecimalDType, Fail> {
    match column.layout() {
        Layout::Decimal(array) => Ok(array.decimal()),
        _ => Err("no decimals".into()),
    }
}

/// Appends what a call gives of a whole column.
pub(crate) fn push_whole(
    lines: &mut String,
    alloc: Global,
    row: &Value,
    call: &str,
) -> Result<(), Fail> {
    let column = column_at(alloc, row, "column")?;
    match call {
        "is_flat" => push_shown(lines, &column.is_flat()),
        "into_ref" => push_shown(lines, &column.into_ref(alloc)?.len()),
        "decimal" => push_shown(lines, &decimal_of(&column)?),
        "true_rows" => push_shown(lines, &true_rows(&column)),
        "mask_of" => push_mask(lines, "= ", &mask_of(alloc, &column)?),
        _ => push_shown(lines, &plain_len(&column, range_at(row)?)?),
    }
}

/// Bools that are valid where a bit is set, of which the first stands third in its byte, or why
/// they make no column.
pub(crate) fn bools_of(alloc: Global, row: &Value) -> Result<Result<BoolArray, ColumnError>, Fail> {
    let values = bits_in(alloc, text_at(row, "values").as_bytes(), 0)?;
    let valid = bits_in(alloc, text_at(row, "bits").as_bytes(), 2)?;
    Ok(BoolArray::try_new(values, Validity::from_bits(alloc, valid)?))
}

/// Why records of four bytes make no column of numbers.
fn primitive_fault(alloc: Global, row: &Value) -> Result<Option<ColumnError>, Fail> {
    let ptype = ptype_named(text_at(row, "type"))?;
    let records = hex_values_of(alloc, 4, list_member(row, "records")?)?;
    Ok(PrimitiveArray::try_new(ptype, records, validity_at(alloc, row)?).err())
}

/// Why a view that holds so many bytes itself makes no column of texts.
fn inlined_fault(alloc: Global, len: usize) -> Result<Option<ColumnError>, Fail> {
    let bytes = [0; 12];
    let len = u8::try_from(len)?;
    let view = BinaryView::Inlined(InlineBytes { len, bytes });
    let views = Buffer::from_vec(alloc, vec![in alloc; view]?)?;
    let buffers = Shared::new(alloc, Vec::new(alloc))?;
    Ok(VarBinViewArray::try_new(TextKind::Binary, views, buffers, Validity::AllInvalid).err())
}

/// Why columns make no sequence of pieces.
fn sequence_fault(alloc: Global, row: &Value) -> Result<Option<ColumnError>, Fail> {
    let (starts, lengths) = (
        shared_at(alloc, row, "starts")?,
        shared_at(alloc, row, "lengths")?,
    );
    let multipliers = shared_at(alloc, row, "multipliers")?;
    Ok(PiecewiseSequence::try_new(starts, lengths, multipliers, number_at(row, "len")?).err())
}

/// What the constructor of this name refuses.
pub(crate) fn constructor_fault(
    alloc: Global,
    row: &Value,
    name: &str,
) -> Result<Option<ColumnError>, Fail> {
    match name {
        "Bool" => Ok(bools_of(alloc, row)?.err()),
        "Primitive" => primitive_fault(alloc, row),
        "VarBinView" => inlined_fault(alloc, number_at(row, "len")?),
        "PiecewiseSequence" => sequence_fault(alloc, row),
        _ => Err("no such constructor".into()),
    }
}
