//! The text of a column.
ghost use Rattle.std.specs.Prelude.{◌≡◌, ◌++◌, length, Some, IfOk, IsOk};
ghost use Rattle.vx_bits.specs.Records.{records_of, width_of};
ghost use Rattle.vx_types.specs.DType.{type_of};
ghost use Rattle.vx_types.specs.TypeTree.{type_width};
ghost use Rattle.vx_print.specs.Text.{row_text, lines, text};
ghost use Rattle.vx_print.specs.Records.{record_rows, bits_in, IsLong};

use crate::bits::push_bits;
use crate::cells::push_rows;
use crate::nested::push_nested;
use crate::records::{push_hex, push_primitive};
use crate::stored::storage_of;
use crate::texts::push_texts;
use crate::types::push_type;
use itoa::{Buffer, Integer};
use std::alloc::Global;
use vx_bits::{BitBuffer, NoMemory, Records};
use vx_column::{Array, DType};

/// Appends a word and a number behind it.
pub(crate) fn push_number<I: Integer>(
    text: &mut Vec<u8>,
    word: &[u8],
    number: I,
) -> Result<(), NoMemory>
    ensures { IsOk result → text.new.items ≡ text.old.items ++ word.now ++ I.text number }
{
    text.extend_from_slice(word)?;
    let mut buffer = Buffer::new();
    text.extend_from_slice(buffer.format(number).as_bytes())?;
    Ok(())
}

// Appends a line for each row of this type: a record, or null where there are bits and the row's
// bit is clear.
fn push_records(
    text: &mut Vec<u8>,
    dtype: &DType,
    records: &Records,
    bits: Option<&BitBuffer>,
) -> Result<(), NoMemory>
    requires width { Some (width_of records.now) ≡ type_width (type_of dtype.now) }
    requires long { IsLong (bits_in bits) (length (records_of records.now)) }
    ensures { IsOk result → text.new.items ≡ text.old.items ++ lines (row_text (type_of dtype.now))
        (record_rows (bits_in bits.entry) (records_of records.now)) }
{
    match dtype {
        DType::Primitive(ptype, _) => push_primitive(text, *ptype, records, bits),
        DType::Decimal(..) => push_hex(text, records, bits),
        _ => unreachable!(),
    }
}

// Appends a line for each row.
#[tactic(auto, using(crate::proofs::Lines::bit_lines))]
fn push_lines(alloc: Global, text: &mut Vec<u8>, column: &Array) -> Result<(), NoMemory>
    ensures { IsOk result → text.new.items
        ≡ text.old.items ++ lines (row_text column.now.dtype) column.now.rows }
{
    if let Some(bits) = column.plain_bits() {
        return push_bits(text, bits);
    }
    if let Some(records) = column.plain_records() {
        return push_records(text, column.dtype(), records, None);
    }
    if let Some((records, bits)) = column.shown_records() {
        return push_records(text, column.dtype(), records, Some(bits));
    }
    if column.dtype().is_flat() {
        return push_rows(text, column);
    }
    if column.dtype().has_scalars() {
        push_texts(text, column)
    } else {
        push_nested(alloc, text, column)
    }
}

// Appends the line of a column's type, and a line for each row.
fn push_text(alloc: Global, all: &mut Vec<u8>, column: &Array) -> Result<(), NoMemory>
    ensures { IsOk result → all.new.items
        ≡ all.old.items ++ text column.now.dtype column.now.rows }
{
    push_type(all, column.dtype())?;
    all.push(b'\n')?;
    push_lines(alloc, all, storage_of(column))
}

/// The text of a column: the line of its type, and a line for each row. Fails only with `NoMemory`.
pub fn text_of(alloc: Global, column: &Array) -> Result<Vec<u8>, NoMemory>
    ensures { IfOk result (λ v. v.items ≡ text column.now.dtype column.now.rows) }
{
    let mut text = Vec::new(alloc);
    push_text(alloc, &mut text, column)?;
    Ok(text)
}
