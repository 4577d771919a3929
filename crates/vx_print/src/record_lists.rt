//! Elements that are records, written by blocks: each block from its last element back to its
//! first.
ghost use Rattle.std.specs.Prelude.{◌≡◌, ◌+◌, ◌≤◌, length, drop, map, slice_range, Some};
ghost use Rattle.vx_bits.specs.Records.{records_of, width_of};
ghost use Rattle.vx_types.specs.DType.{type_of};
ghost use Rattle.vx_types.specs.PType.{width};
ghost use Rattle.vx_types.specs.TypeTree.{type_width};
ghost use Rattle.vx_print.specs.Text.{bytes_text, comma_list, primitive_text};
ghost use Rattle.vx_quote.specs.Quoted.{hex_text};
ghost use Rattle.vx_print.specs.Records.{record_text, IsWide};
ghost use Rattle.vx_print.specs.declared.records.Form.TheVariants.{Number};

use crate::joined::put_gap;
use crate::records::{Form, put_record};
use crate::row::{BLOCK, ROOM};
use vx_bits::{Records, match_each_record_width};
use vx_column::{DType, PType};
use vx_positions::by_type;

// Writes records with `, ` between them so that they end where `dst` does, and answers where they
// begin. It is a loop of its own at each form, known where it is called.
#[inline(always)]
fn put_each<const W: usize>(form: Form, records: &[[u8; W]], dst: &mut [u8; ROOM]) -> usize
    requires width { IsWide form W }
    requires block { length records.now ≤ BLOCK }
    ensures within { result ≤ ROOM }
    ensures put { drop result dst.new ≡ comma_list (map (record_text form) records.now) }
{
    let mut at = ROOM;
    for k in 0..records.len() {
        let i = records.len() - 1 - k;
        at = put_gap(k == 0, dst, at);
        at = put_record(form, &records[i], dst, at);
    }
    at
}

// Writes the records from `start` up to `end` by their bytes.
fn put_hex(values: &Records, start: usize, end: usize, dst: &mut [u8; ROOM]) -> usize
    requires ordered { start ≤ end }
    requires block { end ≤ start + BLOCK }
    requires within { end ≤ length (records_of values.now) }
    ensures within { result ≤ ROOM }
    ensures put { drop result dst.new
        ≡ comma_list (map hex_text (slice_range (records_of values.now) start end)) }
{
    match_each_record_width!(values, buffer => {
        put_each(Form::Hex, &buffer.as_slice()[start..end], dst)
    })
}

// Writes the numbers that the records of this type from `start` up to `end` spell.
#[inline(always)]
fn put_numbers<const W: usize>(
    ptype: PType,
    records: &[[u8; W]],
    start: usize,
    end: usize,
    dst: &mut [u8; ROOM],
) -> usize
    requires width { IsWide (Number ptype) W }
    requires ordered { start ≤ end }
    requires block { end ≤ start + BLOCK }
    requires within { end ≤ length records.now }
    ensures within { result ≤ ROOM }
    ensures put { drop result dst.new
        ≡ comma_list (map (record_text (Number ptype)) (slice_range records.now start end)) }
{
    put_each(Form::Number(ptype), &records[start..end], dst)
}

// Writes the records of a primitive type from `start` up to `end`: integers as numbers, floats by
// their bytes.
#[inline(always)]
fn put_primitive(
    ptype: PType,
    values: &Records,
    start: usize,
    end: usize,
    dst: &mut [u8; ROOM],
) -> usize
    requires width { width_of values.now ≡ width ptype }
    requires ordered { start ≤ end }
    requires block { end ≤ start + BLOCK }
    requires within { end ≤ length (records_of values.now) }
    ensures within { result ≤ ROOM }
    ensures put { drop result dst.new ≡ comma_list (map (primitive_text ptype)
        (slice_range (records_of values.now) start end)) }
{
    match ptype {
        PType::F16 | PType::F32 | PType::F64 => put_hex(values, start, end, dst),
        _ => by_type!(ptype, values, put_numbers, start, end, dst),
    }
}

/// Writes the records from `start` up to `end`, which are of this type, with `, ` between them, so
/// that they end where `dst` does, and answers where they begin.
#[inline(always)]
pub(crate) fn put_elements(
    dtype: &DType,
    values: &Records,
    start: usize,
    end: usize,
    dst: &mut [u8; ROOM],
) -> usize
    requires width { Some (width_of values.now) ≡ type_width (type_of dtype.now) }
    requires ordered { start ≤ end }
    requires block { end ≤ start + BLOCK }
    requires within { end ≤ length (records_of values.now) }
    ensures within { result ≤ ROOM }
    ensures put { drop result dst.new ≡ comma_list (map (bytes_text (type_of dtype.now).kind)
        (slice_range (records_of values.now) start end)) }
{
    match dtype {
        DType::Primitive(ptype, _) => put_primitive(*ptype, values, start, end, dst),
        DType::Decimal(..) => put_hex(values, start, end, dst),
        _ => unreachable!(),
    }
}
