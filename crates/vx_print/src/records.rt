//! Lines of records, written by blocks: each block from its last row back to its first.
ghost use Rattle.std.specs.Prelude.{◌≡◌, ◌+◌, ◌/◌, ◌<◌, ◌≤◌, ◌++◌, false, length, drop, IsOk};
ghost use Rattle.std.specs.Prelude.{IfSome, Some, slice_index_or, if◌then◌else◌};
ghost use Rattle.vx_bits.specs.Words.{word_bits};
ghost use Rattle.vx_bits.specs.Records.{records_of, width_of};
ghost use Rattle.vx_types.specs.PType.{width};
ghost use Rattle.vx_types.specs.RowValue.{null, bytes};
ghost use Rattle.vx_print.specs.Text.{lines, primitive_text, row_text_by};
ghost use Rattle.vx_quote.specs.Quoted.{hex_text};
ghost use Rattle.vx_print.specs.Records.{record_text, record_rows, block_word, bits_in};
ghost use Rattle.vx_print.specs.Records.{IsWide, IsLong};
ghost use Rattle.vx_print.specs.declared.records.Form.TheVariants.{Number};

use crate::row::{BLOCK, ROOM, ROW, put_hex, put_number, put_word};
use vx_bits::{BitBuffer, NoMemory, Records, match_each_record_width};
use vx_column::PType;
use vx_positions::by_type;

/// How a record is printed.
#[derive(Clone, Copy)]
pub(crate) enum Form {
    /// The number that a record of this integer type spells, in decimal digits.
    Number(PType),
    /// The bytes, in hexadecimal digits.
    Hex,
}

/// Writes a record so that it ends at `end`, and answers where it begins.
#[inline(always)]
pub(crate) fn put_record(form: Form, value: &[u8], dst: &mut [u8; ROOM], end: usize) -> usize
    requires width { IsWide form (length value.now) }
    requires room { ROW ≤ end }
    requires within { end ≤ ROOM }
    ensures room { end ≤ result + ROW }
    ensures within { result ≤ end }
    ensures put { drop result dst.new ≡ record_text form value.now ++ drop end dst.old }
{
    match form {
        Form::Number(ptype) => put_number(ptype, value, dst, end),
        Form::Hex => put_hex(value, dst, end),
    }
}

// Writes a row that is this record, or null.
#[inline(always)]
fn put_row(form: Form, value: &[u8], is_there: bool, dst: &mut [u8; ROOM], end: usize) -> usize
    requires width { IsWide form (length value.now) }
    requires room { ROW ≤ end }
    requires within { end ≤ ROOM }
    ensures room { end ≤ result + ROW }
    ensures within { result ≤ end }
    ensures put { drop result dst.new ≡ row_text_by (record_text form)
        (if is_there then bytes value.now else null) ++ drop end dst.old }
{
    if is_there {
        put_record(form, value, dst, end)
    } else {
        put_word(b"null", dst, end)
    }
}

/// Whether row `k` of a block is there: bit k of the block's word.
#[inline(always)]
pub(crate) fn is_there(word: u64, k: usize) -> bool
    requires { k < BLOCK }
    ensures { result ≡ slice_index_or (word_bits word BLOCK) k false }
{
    (word >> k) & 1 == 1
}

// The word of the rows of block `k` that are there: each one where there are no bits.
#[inline(always)]
fn block_word(bits: Option<&BitBuffer>, k: usize) -> u64
    requires { IfSome bits (λ b. k ≤ length b.now.bits / BLOCK) }
    ensures { result ≡ block_word (bits_in bits.entry) k }
{
    match bits {
        None => u64::MAX,
        Some(bits) => bits.word(k),
    }
}

// Writes the lines of a block, of which a row is null where its bit of the word is clear, so that
// they end where `dst` does, and answers where they begin.
#[inline(always)]
fn put_block<const W: usize>(
    form: Form,
    records: &[[u8; W]],
    word: u64,
    dst: &mut [u8; ROOM],
) -> usize
    requires width { IsWide form W }
    requires block { length records.now ≤ BLOCK }
    ensures within { result ≤ ROOM }
    ensures put { drop result dst.new ≡ lines (row_text_by (record_text form))
        (record_rows (Some (word_bits word (length records.now))) records.now) }
{
    let mut at = ROOM;
    for k in 0..records.len() {
        let i = records.len() - 1 - k;
        at -= 1;
        dst[at] = b'\n';
        at = put_row(form, &records[i], is_there(word, i), dst, at);
    }
    at
}

// Appends a line for each row. It is a loop of its own at each form, known where it is called.
#[inline(always)]
fn push_blocks<const W: usize>(
    text: &mut Vec<u8>,
    form: Form,
    records: &[[u8; W]],
    bits: Option<&BitBuffer>,
) -> Result<(), NoMemory>
    requires width { IsWide form W }
    requires long { IsLong (bits_in bits) (length records.now) }
    ensures { IsOk result → text.new.items ≡ text.old.items
        ++ lines (row_text_by (record_text form))
        (record_rows (bits_in bits.entry) records.now) }
{
    let mut dst = [0; ROOM];
    for k in 0..records.len().div_ceil(BLOCK) {
        let start = BLOCK * k;
        let end = start + (records.len() - start).min(BLOCK);
        let at = put_block(form, &records[start..end], block_word(bits, k), &mut dst);
        text.extend_from_slice(&dst[at..])?;
    }
    Ok(())
}

// Appends a line for each row, by a loop that tests no bits where there are none.
#[inline(always)]
fn push_each<const W: usize>(
    form: Form,
    records: &[[u8; W]],
    text: &mut Vec<u8>,
    bits: Option<&BitBuffer>,
) -> Result<(), NoMemory>
    requires width { IsWide form W }
    requires long { IsLong (bits_in bits) (length records.now) }
    ensures { IsOk result → text.new.items ≡ text.old.items
        ++ lines (row_text_by (record_text form))
        (record_rows (bits_in bits.entry) records.now) }
{
    match bits {
        None => push_blocks(text, form, records, None),
        Some(_) => push_blocks(text, form, records, bits),
    }
}

/// Appends a line for each row: the record's bytes, or null where there are bits and the row's bit
/// is clear. Fails only with `NoMemory`.
pub(crate) fn push_hex(
    text: &mut Vec<u8>,
    values: &Records,
    bits: Option<&BitBuffer>,
) -> Result<(), NoMemory>
    requires { IsLong (bits_in bits) (length (records_of values.now)) }
    ensures { IsOk result → text.new.items ≡ text.old.items ++ lines (row_text_by hex_text)
        (record_rows (bits_in bits.entry) (records_of values.now)) }
{
    match_each_record_width!(values, buffer => {
        push_each(Form::Hex, buffer.as_slice(), text, bits)
    })
}

// Appends a line for each row, the number that its record of this type spells, or null.
#[inline(always)]
fn push_numbers<const W: usize>(
    ptype: PType,
    records: &[[u8; W]],
    text: &mut Vec<u8>,
    bits: Option<&BitBuffer>,
) -> Result<(), NoMemory>
    requires width { IsWide (Number ptype) W }
    requires long { IsLong (bits_in bits) (length records.now) }
    ensures { IsOk result → text.new.items ≡ text.old.items
        ++ lines (row_text_by (record_text (Number ptype)))
        (record_rows (bits_in bits.entry) records.now) }
{
    push_each(Form::Number(ptype), records, text, bits)
}

/// Appends a line for each row: the integer of its record, or the bytes of a float, or null.
pub(crate) fn push_primitive(
    text: &mut Vec<u8>,
    ptype: PType,
    values: &Records,
    bits: Option<&BitBuffer>,
) -> Result<(), NoMemory>
    requires width { width_of values.now ≡ width ptype }
    requires long { IsLong (bits_in bits) (length (records_of values.now)) }
    ensures { IsOk result → text.new.items ≡ text.old.items
        ++ lines (row_text_by (primitive_text ptype))
        (record_rows (bits_in bits.entry) (records_of values.now)) }
{
    match ptype {
        PType::F16 | PType::F32 | PType::F64 => push_hex(text, values, bits),
        _ => by_type!(ptype, values, push_numbers, text, bits),
    }
}
