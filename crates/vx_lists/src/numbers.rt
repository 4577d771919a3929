//! Offsets in columns of any integer type, read and written once.
ghost use Rattle.std.specs.Prelude.{◌≡◌, ◌<◌, ◌≤◌, IfOk, int_le, length, map, pos, slice_index, true};
ghost use Rattle.std.specs.List.{All};
ghost use Rattle.vx_bits.specs.Records.{records_of, width_of};
ghost use Rattle.vx_model.specs.Numbers.{integers_of};
ghost use Rattle.vx_model.specs.VarBin.{are_integers};
ghost use Rattle.vx_offsets.specs.Offsets.{are_offsets, offset_positions, record_numbers};
ghost use Rattle.vx_offsets.specs.Cut.{type_of};
ghost use Rattle.vx_types.specs.PType.{greatest, is_int, number, width};
ghost use Rattle.vx_types.specs.TypeTree.{primitive_kind};
ghost use Rattle.vx_types.specs.declared.ptype.PType.TheVariants.{U64};
ghost use Rattle.vx_lists.specs.Lists.{AreOffsets, last_offset};
ghost use Rattle.vx_lists.specs.Numbers.{AreInType, record_by};

use std::alloc::Global;
use vx_bits::{Buffer, NoMemory, Records};
use vx_column::{PType, PrimitiveArray, number_column};
use vx_offsets::{OffsetRecord, offset_at};
use vx_positions::by_type;

// What bytes spell is at most the greatest number of their type.
#[inline(always)]
fn is_in_type(ptype: PType, bytes: &[u8])
    requires int { is_int ptype ≡ true }
    requires width { length bytes.now ≡ width ptype }
    ensures { int_le (number ptype bytes.now) (greatest ptype) ≡ true }
{
    // Only the contract speaks of it.
    let _ = (ptype, bytes.len());
}

// Offset `i` of those that cut a list of `len` elements, which is a number of their type.
#[inline(always)]
fn number_at<const W: usize>(ptype: PType, records: &[[u8; W]], i: usize, len: usize) -> u64
    requires int { is_int ptype ≡ true }
    requires width { W ≡ width ptype }
    requires offsets { are_offsets (record_numbers ptype records.now) len ≡ true }
    requires row { i < length records.now }
    ensures value { result
        ≡ slice_index (offset_positions (record_numbers ptype records.now)) i }
    ensures small { int_le (pos result) (greatest ptype) ≡ true }
{
    is_in_type(ptype, &records[i]);
    offset_at(ptype, records, i, len) as u64
}

// The offsets that records spell.
#[inline(always)]
fn numbers_in<const W: usize>(
    ptype: PType,
    records: &[[u8; W]],
    alloc: Global,
    len: usize,
) -> Result<Vec<u64>, NoMemory>
    requires int { is_int ptype ≡ true }
    requires width { W ≡ width ptype }
    requires offsets { are_offsets (record_numbers ptype records.now) len ≡ true }
    ensures value { IfOk result
        (λ v. v.items ≡ offset_positions (record_numbers ptype records.now)) }
    ensures small { IfOk result (λ v. AreInType ptype v.items) }
{
    let count = records.len();
    let mut numbers = Vec::with_capacity(alloc, count)?;
    for i in 0..count {
        numbers.push_reserved(number_at(ptype, records, i, len));
    }
    Ok(numbers)
}

fn numbers_of(
    ptype: PType,
    values: &Records,
    alloc: Global,
    len: usize,
) -> Result<Vec<u64>, NoMemory>
    requires int { is_int ptype ≡ true }
    requires width { width_of values.now ≡ width ptype }
    requires offsets { are_offsets (record_numbers ptype (records_of values.now)) len ≡ true }
    ensures value { IfOk result
        (λ v. v.items ≡ offset_positions (record_numbers ptype (records_of values.now))) }
    ensures small { IfOk result (λ v. AreInType ptype v.items) }
{
    by_type!(ptype, values, numbers_in, alloc, len)
}

/// The offsets of a column of integers, which cut a list of `len` elements. Fails only with
/// `NoMemory`.
pub(crate) fn offset_numbers(
    alloc: Global,
    offsets: &PrimitiveArray,
    len: usize,
) -> Result<Vec<u64>, NoMemory>
    requires integers { are_integers offsets.now ≡ true }
    requires offsets { are_offsets (integers_of offsets.now) len ≡ true }
    ensures value { IfOk result (λ v. v.items ≡ offset_positions (integers_of offsets.now)) }
    ensures offsets { IfOk result (λ v. AreOffsets v.items) }
    ensures within { IfOk result (λ v. last_offset v.items ≤ len) }
    ensures small { IfOk result (λ v. AreInType (type_of offsets.now.kind) v.items) }
{
    numbers_of(offsets.ptype(), offsets.values(), alloc, len)
}

// The records of offsets.
#[inline(always)]
fn written<T: OffsetRecord>(alloc: Global, offsets: &[u64]) -> Result<Buffer<T>, NoMemory>
    requires { All (λ n. n < T.limit) offsets.now }
    ensures { IfOk result (λ b. b ≡ map T.spelled offsets.now) }
{
    let mut records = Vec::with_capacity(alloc, offsets.len())?;
    for offset in offsets {
        records.push_reserved(T::written(*offset));
    }
    Buffer::from_vec(alloc, records)
}

// The records of offsets of an integer type.
fn offset_records(alloc: Global, ptype: PType, offsets: &[u64]) -> Result<Records, NoMemory>
    requires int { is_int ptype ≡ true }
    requires small { AreInType ptype offsets.now }
    ensures records { IfOk result (λ r. records_of r ≡ map (record_by ptype) offsets.now) }
    ensures width { IfOk result (λ r. width_of r ≡ width ptype) }
{
    match ptype {
        PType::U8 => Ok(Records::W1(written(alloc, offsets)?)),
        PType::U16 => Ok(Records::W2(written(alloc, offsets)?)),
        PType::U32 => Ok(Records::W4(written(alloc, offsets)?)),
        PType::U64 => Ok(Records::W8(written(alloc, offsets)?)),
        PType::I8 => Ok(Records::W1(written(alloc, offsets)?)),
        PType::I16 => Ok(Records::W2(written(alloc, offsets)?)),
        PType::I32 => Ok(Records::W4(written(alloc, offsets)?)),
        PType::I64 => Ok(Records::W8(written(alloc, offsets)?)),
        PType::F16 | PType::F32 | PType::F64 => unreachable!(),
    }
}

/// The column of an integer type that has these offsets, none of them null. Fails only with
/// `NoMemory`.
pub(crate) fn offset_column(
    alloc: Global,
    ptype: PType,
    offsets: &[u64],
) -> Result<PrimitiveArray, NoMemory>
    requires int { is_int ptype ≡ true }
    requires small { AreInType ptype offsets.now }
    ensures kind { IfOk result (λ a. a.kind ≡ primitive_kind ptype) }
    ensures integers { IfOk result (λ a. are_integers a ≡ true) }
    ensures numbers { IfOk result (λ a. integers_of a ≡ map pos offsets.now) }
{
    let records = offset_records(alloc, ptype, offsets)?;
    Ok(number_column(ptype, records))
}

/// The column of type `U64`, which each offset fits, that has these offsets, none of them null.
/// Fails only with `NoMemory`.
pub(crate) fn u64_column(alloc: Global, offsets: &[u64]) -> Result<PrimitiveArray, NoMemory>
    ensures kind { IfOk result (λ a. a.kind ≡ primitive_kind U64) }
    ensures integers { IfOk result (λ a. are_integers a ≡ true) }
    ensures numbers { IfOk result (λ a. integers_of a ≡ map pos offsets.now) }
{
    offset_column(alloc, PType::U64, offsets)
}
