//! Lists in the caller's memory, copied.
ghost use Rattle.std.specs.Prelude.{◌≡◌, ◌+◌, ◌^◌, ◌<◌, true, IfOk};
ghost use Rattle.vx_bits.specs.BitBuffer.{bits_of};
ghost use Rattle.vx_bits.specs.Records.{records_of, width_of};
ghost use Rattle.vx_types.specs.PType.{width};
ghost use Rattle.vx_model.specs.Valid.{is_fitting};
ghost use Rattle.vx_column.specs.Validity.{valid_of};
ghost use Rattle.vx_arrow.specs.Image.{holds_bits, holds_records, holds_valid, numbers_in, records_in, valid_in};

use std::alloc::Global;
use vx_bits::{BitBuffer, Buffer, NoMemory, Records};
use vx_column::{Array, RecordType, Validity, record_column};
use vx_types::PType;

/// The `len` bits of the bytes from bit `offset` on. Fails only with `NoMemory`.
pub(crate) fn bits_in(
    alloc: Global,
    bytes: &[u8],
    offset: usize,
    len: usize,
) -> Result<BitBuffer, NoMemory>
    requires counted { offset + len < 2 ^ 63 }
    requires held { holds_bits bytes.now (offset + len) ≡ true }
    ensures { IfOk result (λ b. b.bits ≡ bits_of bytes.now offset len) }
{
    let last = (offset + len).div_ceil(8);
    let copy = bytes[offset / 8..last].to_vec(alloc)?;
    match BitBuffer::try_new(Buffer::from_vec(alloc, copy)?, offset % 8, len) {
        Ok(bits) => Ok(bits),
        Err(_) => unreachable!(),
    }
}

/// The validity of so many rows. Fails only with `NoMemory`.
pub(crate) fn validity_in(
    alloc: Global,
    bytes: &[u8],
    offset: usize,
    len: usize,
) -> Result<Validity, NoMemory>
    requires counted { offset + len < 2 ^ 63 }
    requires held { holds_valid bytes.now (offset + len) ≡ true }
    ensures value { IfOk result (λ v. valid_of v ≡ valid_in bytes.now offset len) }
    ensures fitting { IfOk result (λ v. is_fitting (valid_of v) len ≡ true) }
{
    if bytes.is_empty() {
        return Ok(Validity::NonNullable);
    }
    Validity::from_bits(alloc, bits_in(alloc, bytes, offset, len)?)
}

/// The `len` records of the bytes from record `offset` on.
#[inline(always)]
pub(crate) fn records_at<const W: usize>(bytes: &[u8], offset: usize, len: usize) -> &[[u8; W]]
    requires wide { 0 < W }
    requires counted { offset + len < 2 ^ 63 }
    requires held { holds_records W bytes.now (offset + len) ≡ true }
    ensures { result.now ≡ records_in W bytes.now offset len }
{
    let (records, _) = bytes.as_chunks::<W>();
    &records[offset..offset + len]
}

// The `len` records of the bytes from record `offset` on, copied. Fails only with `NoMemory`.
fn records_of_width<const W: usize>(
    alloc: Global,
    bytes: &[u8],
    offset: usize,
    len: usize,
) -> Result<Buffer<[u8; W]>, NoMemory>
    requires wide { 0 < W }
    requires counted { offset + len < 2 ^ 63 }
    requires held { holds_records W bytes.now (offset + len) ≡ true }
    ensures { IfOk result (λ r. r ≡ records_in W bytes.now offset len) }
{
    let records = records_at::<W>(bytes, offset, len);
    Buffer::from_vec(alloc, Vec::from_slice(alloc, records)?)
}

// The `len` records, as wide as the type, of the bytes from record `offset` on. Fails only with
// `NoMemory`.
fn records_of_type(
    alloc: Global,
    ptype: PType,
    bytes: &[u8],
    offset: usize,
    len: usize,
) -> Result<Records, NoMemory>
    requires counted { offset + len < 2 ^ 63 }
    requires held { holds_records (width ptype) bytes.now (offset + len) ≡ true }
    ensures records { IfOk result
        (λ r. records_of r ≡ records_in (width ptype) bytes.now offset len) }
    ensures width { IfOk result (λ r. width_of r ≡ width ptype) }
{
    match ptype {
        PType::U8 | PType::I8 => Ok(Records::W1(records_of_width(alloc, bytes, offset, len)?)),
        PType::U16 | PType::I16 | PType::F16 => {
            Ok(Records::W2(records_of_width(alloc, bytes, offset, len)?))
        }
        PType::U32 | PType::I32 | PType::F32 => {
            Ok(Records::W4(records_of_width(alloc, bytes, offset, len)?))
        }
        PType::U64 | PType::I64 | PType::F64 => {
            Ok(Records::W8(records_of_width(alloc, bytes, offset, len)?))
        }
    }
}

/// The column of the numbers of a type. Fails only with `NoMemory`.
pub(crate) fn numbers_in(
    alloc: Global,
    ptype: PType,
    bytes: &[u8],
    validity: Validity,
    offset: usize,
    len: usize,
) -> Result<Array, NoMemory>
    requires counted { offset + len < 2 ^ 63 }
    requires held { holds_records (width ptype) bytes.now (offset + len) ≡ true }
    requires fitting { is_fitting (valid_of validity) len ≡ true }
    ensures { IfOk result (λ a. a ≡ numbers_in ptype bytes.now (valid_of validity) offset len) }
{
    let records = records_of_type(alloc, ptype, bytes, offset, len)?;
    Ok(record_column(RecordType::Primitive(ptype), records, validity))
}
