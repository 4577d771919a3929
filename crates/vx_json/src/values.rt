//! The values of a column, and the numbers from 0 on, as records.
ghost use Rattle.std.specs.Prelude.{◌≡◌, ◌≤◌, IfOk, true};
ghost use Rattle.serde_json.specs.View.{view, items_view};
ghost use Rattle.vx_bits.specs.Records.{records_of, width_of};
ghost use Rattle.vx_types.specs.PType.{width, record_of};
ghost use Rattle.vx_types.specs.Decimal.{is_width};
ghost use Rattle.vx_json.specs.Meaning.{Gives, OnlyMalformed};
ghost use Rattle.vx_json.specs.Items.{each};
ghost use Rattle.vx_json.specs.Values.{float_named, ptype_named, whole_record, or_zero, value_or_zero, hex_or_zero, ramp_records};

use crate::error::DocError;
use crate::items::{ReadItem, read_each};
use hex::FromHex;
use serde_json::Value;
use std::alloc::Global;
use vx_bits::{Buffer, NoMemory, Records};
use vx_types::{PType, record_of};

#[tactic(auto, unfolding(crate::specs::Values::float_named))]
fn float_named(text: &str) -> Result<PType, DocError>
    ensures value { Gives (λ p. p) result (float_named text.now) }
    ensures malformed { OnlyMalformed result }
{
    match text {
        "f16" => Ok(PType::F16),
        "f32" => Ok(PType::F32),
        "f64" => Ok(PType::F64),
        _ => Err(DocError::Malformed),
    }
}

/// The primitive type of this name. `Malformed` where there is none.
#[tactic(auto, unfolding(crate::specs::Values::ptype_named))]
pub fn ptype_named(text: &str) -> Result<PType, DocError>
    ensures value { Gives (λ p. p) result (ptype_named text.now) }
    ensures malformed { OnlyMalformed result }
{
    match text {
        "u8" => Ok(PType::U8),
        "u16" => Ok(PType::U16),
        "u32" => Ok(PType::U32),
        "u64" => Ok(PType::U64),
        "i8" => Ok(PType::I8),
        "i16" => Ok(PType::I16),
        "i32" => Ok(PType::I32),
        "i64" => Ok(PType::I64),
        _ => float_named(text),
    }
}

/// Reads whole numbers in a type's range, as records of its width, and nulls as zeros.
#[derive(Clone, Copy)]
struct WholeItem<const W: usize> {
    ptype: PType,
    ghost short: { W ≤ 16 },
}

impl<const W: usize> ReadItem for WholeItem<W> {
    ghost use Rattle.std.specs.Prelude.{ℕ, List};
    ghost use Rattle.vx_json.specs.Values.{or_zero, whole_record};

    type Out = [u8; W];

    ghost Seen = { List ℕ };

    ghost seen = { λ r. r };

    ghost meaning = { λ i d. or_zero W (whole_record W i.ptype) d };

    #[inline(always)]
    #[tactic(auto, unfolding(crate::specs::Values::whole_record))]
    fn read(&self, _alloc: Global, value: &Value) -> Result<[u8; W], DocError> {
        if let Value::Number(number) = value {
            return match number.as_i128() {
                Some(z) => if self.ptype.is_in_range(z) {
                    Ok(record_of::<W>(z))
                } else {
                    Err(DocError::Malformed)
                },
                None => Err(DocError::Malformed),
            };
        }
        if let Value::Null = value {
            return Ok([0; W]);
        }
        Err(DocError::Malformed)
    }
}

/// Reads texts of hexadecimal digits, as records, and nulls as zeros.
#[derive(Clone, Copy)]
struct HexItem<const W: usize>;

impl<const W: usize> ReadItem for HexItem<W> {
    ghost use Rattle.std.specs.Prelude.{ℕ, List};
    ghost use Rattle.vx_json.specs.Values.{hex_or_zero};

    type Out = [u8; W];

    ghost Seen = { List ℕ };

    ghost seen = { λ r. r };

    ghost meaning = { λ _ d. hex_or_zero W d };

    #[inline(always)]
    #[tactic(auto, unfolding(crate::specs::Values::hex_record))]
    fn read(&self, _alloc: Global, value: &Value) -> Result<[u8; W], DocError> {
        match value {
            Value::String(text) => match <[u8; W] as FromHex>::from_hex(text.as_str()) {
                Ok(record) => Ok(record),
                Err(_) => Err(DocError::Malformed),
            },
            Value::Null => Ok([0; W]),
            _ => Err(DocError::Malformed),
        }
    }
}

#[inline(always)]
fn whole_records<const W: usize>(
    alloc: Global,
    ptype: PType,
    items: &Vec<Value>,
) -> Result<Buffer<[u8; W]>, DocError>
    requires { W ≡ width ptype }
    ensures { Gives (λ b. b) result
        (each (or_zero W (whole_record W ptype)) (items_view items.now.items)) }
{
    let records = read_each(alloc, &WholeItem::<W> { ptype }, items)?;
    Ok(Buffer::from_vec(alloc, records)?)
}

fn hex_records<const W: usize>(
    alloc: Global,
    items: &Vec<Value>,
) -> Result<Buffer<[u8; W]>, DocError>
    ensures { Gives (λ b. b) result (each (hex_or_zero W) (items_view items.now.items)) }
{
    let records = read_each(alloc, &HexItem::<W>, items)?;
    Ok(Buffer::from_vec(alloc, records)?)
}

/// The records of a list of values of the type: whole numbers in its range, or texts of two
/// hexadecimal digits a byte where it is a floating one, and zeros for each null. `Malformed` where
/// an item is neither.
///
/// Each arm of whole numbers is a loop of its own, in which the type is known.
pub fn values_of(alloc: Global, ptype: PType, items: &Vec<Value>) -> Result<Records, DocError>
    ensures value { Gives records_of result
        (each (value_or_zero (width ptype) ptype) (items_view items.now.items)) }
    ensures width { IfOk result (λ r. width_of r ≡ width ptype) }
{
    match ptype {
        PType::U8 => Ok(Records::W1(whole_records(alloc, PType::U8, items)?)),
        PType::U16 => Ok(Records::W2(whole_records(alloc, PType::U16, items)?)),
        PType::U32 => Ok(Records::W4(whole_records(alloc, PType::U32, items)?)),
        PType::U64 => Ok(Records::W8(whole_records(alloc, PType::U64, items)?)),
        PType::I8 => Ok(Records::W1(whole_records(alloc, PType::I8, items)?)),
        PType::I16 => Ok(Records::W2(whole_records(alloc, PType::I16, items)?)),
        PType::I32 => Ok(Records::W4(whole_records(alloc, PType::I32, items)?)),
        PType::I64 => Ok(Records::W8(whole_records(alloc, PType::I64, items)?)),
        PType::F16 => hex_values_of(alloc, 2, items),
        PType::F32 => hex_values_of(alloc, 4, items),
        PType::F64 => hex_values_of(alloc, 8, items),
    }
}

/// The records, of that many bytes each, of a list of texts of two hexadecimal digits a byte, and
/// zeros for each null. `Malformed` where an item is neither.
pub fn hex_values_of(alloc: Global, width: usize, items: &Vec<Value>) -> Result<Records, DocError>
    requires { is_width width ≡ true }
    ensures value { Gives records_of result
        (each (hex_or_zero width) (items_view items.now.items)) }
    ensures width { IfOk result (λ r. width_of r ≡ width) }
{
    match width {
        1 => Ok(Records::W1(hex_records(alloc, items)?)),
        2 => Ok(Records::W2(hex_records(alloc, items)?)),
        4 => Ok(Records::W4(hex_records(alloc, items)?)),
        8 => Ok(Records::W8(hex_records(alloc, items)?)),
        16 => Ok(Records::W16(hex_records(alloc, items)?)),
        32 => Ok(Records::W32(hex_records(alloc, items)?)),
        _ => unreachable!(),
    }
}

fn whole_value<const W: usize>(
    alloc: Global,
    ptype: PType,
    value: &Value,
) -> Result<Buffer<u8>, DocError>
    requires { W ≡ width ptype }
    ensures { Gives (λ b. b) result (or_zero W (whole_record W ptype) (view value.now)) }
{
    let bytes = WholeItem::<W> { ptype }.read(alloc, value)?;
    Ok(Buffer::from_vec(alloc, Vec::from_slice(alloc, &bytes)?)?)
}

fn hex_value<const W: usize>(alloc: Global, value: &Value) -> Result<Buffer<u8>, DocError>
    requires { W ≤ 32 }
    ensures { Gives (λ b. b) result (hex_or_zero W (view value.now)) }
{
    let bytes = HexItem::<W>.read(alloc, value)?;
    Ok(Buffer::from_vec(alloc, Vec::from_slice(alloc, &bytes)?)?)
}

/// The record of one value of the type, read as an item of `values_of` is.
pub fn value_of(alloc: Global, ptype: PType, value: &Value) -> Result<Buffer<u8>, DocError>
    ensures { Gives (λ b. b) result (value_or_zero (width ptype) ptype (view value.now)) }
{
    match ptype {
        PType::U8 | PType::I8 => whole_value::<1>(alloc, ptype, value),
        PType::U16 | PType::I16 => whole_value::<2>(alloc, ptype, value),
        PType::U32 | PType::I32 => whole_value::<4>(alloc, ptype, value),
        PType::U64 | PType::I64 => whole_value::<8>(alloc, ptype, value),
        PType::F16 => hex_value::<2>(alloc, value),
        PType::F32 => hex_value::<4>(alloc, value),
        PType::F64 => hex_value::<8>(alloc, value),
    }
}

/// The record, of that many bytes, of one value, read as an item of `hex_values_of` is.
pub fn hex_value_of(alloc: Global, width: usize, value: &Value) -> Result<Buffer<u8>, DocError>
    requires { is_width width ≡ true }
    ensures { Gives (λ b. b) result (hex_or_zero width (view value.now)) }
{
    match width {
        1 => hex_value::<1>(alloc, value),
        2 => hex_value::<2>(alloc, value),
        4 => hex_value::<4>(alloc, value),
        8 => hex_value::<8>(alloc, value),
        16 => hex_value::<16>(alloc, value),
        32 => hex_value::<32>(alloc, value),
        _ => unreachable!(),
    }
}

fn ramp_records<const W: usize>(
    alloc: Global,
    ptype: PType,
    len: usize,
) -> Result<Buffer<[u8; W]>, NoMemory>
    requires { W ≡ width ptype }
    ensures { IfOk result (λ b. b ≡ ramp_records ptype len) }
{
    let mut records = Vec::with_capacity(alloc, len)?;
    for i in 0..len {
        records.push_reserved(record_of::<W>(i as i128));
    }
    Buffer::from_vec(alloc, records)
}

/// The records of the numbers from 0 on: the lowest bits of each, as many as the type has.
pub fn ramp_of(alloc: Global, ptype: PType, len: usize) -> Result<Records, NoMemory>
    ensures value { IfOk result (λ r. records_of r ≡ ramp_records ptype len) }
    ensures width { IfOk result (λ r. width_of r ≡ width ptype) }
{
    match ptype {
        PType::U8 | PType::I8 => Ok(Records::W1(ramp_records(alloc, ptype, len)?)),
        PType::U16 | PType::I16 | PType::F16 => Ok(Records::W2(ramp_records(alloc, ptype, len)?)),
        PType::U32 | PType::I32 | PType::F32 => Ok(Records::W4(ramp_records(alloc, ptype, len)?)),
        PType::U64 | PType::I64 | PType::F64 => Ok(Records::W8(ramp_records(alloc, ptype, len)?)),
    }
}
