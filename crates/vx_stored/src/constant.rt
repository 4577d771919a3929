//! One value for every row, stored row by row.
ghost use Rattle.std.specs.Prelude.{◌≡◌, length, replicate, true, false, IfOk, IfSome};
ghost use Rattle.vx_bits.specs.Records.{records_of, width_of};
ghost use Rattle.vx_types.specs.Decimal.{is_width};
ghost use Rattle.vx_types.specs.RowValue.{null, bytes};
ghost use Rattle.vx_types.specs.Scalar.{is_text_kind, scalar_row};
ghost use Rattle.vx_types.specs.TypeTree.{is_flat, kind_width, with_nullability};
ghost use Rattle.vx_model.specs.Valid.{all_invalid, cover_by, is_fitting, is_flat_cover, nullability_by, present_bits, shown_rows};
ghost use Rattle.vx_model.specs.Plain.{is_lazy_layout, is_unwrapped};
ghost use Rattle.vx_types.specs.RecordType.{kind_of};
ghost use Rattle.vx_column.specs.Validity.{valid_of};
ghost use Rattle.vx_stored.specs.Scalars.{bit_or_false, bytes_or_zeros, copied_bits, copied_records, text_layout};

use crate::texts::store_texts;
use std::alloc::Global;
use vx_bits::{BitBuffer, BitBuilder, Buffer, NoMemory, Records};
use vx_column::{
    Array, BoolArray, DType, NullArray, RecordType, Scalar, ScalarValue, Validity, record_column,
};

// So many bits, each the value's; false for a null.
fn bits_alike(alloc: Global, value: &ScalarValue, len: usize) -> Result<BitBuffer, NoMemory>
    ensures { IfOk result (λ b. b
        ≡ record { bits = replicate len (bit_or_false (scalar_row value.now)); offset = 0 }) }
{
    let bit = match value {
        ScalarValue::Bit(bit) => *bit,
        _ => false,
    };
    let mut bits = BitBuilder::new(alloc);
    bits.append_n(bit, len)?;
    bits.finish()
}

// So many copies of these bytes, of which there are just W.
fn copies<const W: usize>(
    alloc: Global,
    bytes: &[u8],
    len: usize,
) -> Result<Buffer<[u8; W]>, NoMemory>
    requires { length bytes.now ≡ W }
    ensures { IfOk result (λ b. b ≡ replicate len bytes.now) }
{
    let mut record = [0; W];
    record.copy_from_slice(bytes);
    Buffer::from_vec(alloc, vec![in alloc; record; len]?)
}

// So many records of these bytes.
fn records_alike(alloc: Global, bytes: &[u8], len: usize) -> Result<Records, NoMemory>
    requires { is_width (length bytes.now) ≡ true }
    ensures records { IfOk result (λ r. records_of r ≡ replicate len bytes.now) }
    ensures width { IfOk result (λ r. width_of r ≡ length bytes.now) }
{
    Ok(match bytes.len() {
        1 => Records::W1(copies(alloc, bytes, len)?),
        2 => Records::W2(copies(alloc, bytes, len)?),
        4 => Records::W4(copies(alloc, bytes, len)?),
        8 => Records::W8(copies(alloc, bytes, len)?),
        16 => Records::W16(copies(alloc, bytes, len)?),
        32 => Records::W32(copies(alloc, bytes, len)?),
        _ => unreachable!(),
    })
}

// So many records of the value's bytes; of as many zeros for a null.
fn value_records(
    alloc: Global,
    value: &ScalarValue,
    width: usize,
    len: usize,
) -> Result<Records, NoMemory>
    requires known { is_width width ≡ true }
    requires wide { length (bytes_or_zeros width (scalar_row value.now)) ≡ width }
    ensures records { IfOk result (λ r.
        records_of r ≡ replicate len (bytes_or_zeros width (scalar_row value.now))) }
    ensures width { IfOk result (λ r. width_of r ≡ width) }
{
    match value {
        ScalarValue::Bytes(bytes) => records_alike(alloc, bytes.as_slice(), len),
        _ => records_alike(alloc, &[0; 32][..width], len),
    }
}

// `len` copies of the value's bit, as a column with this validity.
fn store_bits(
    alloc: Global,
    value: &ScalarValue,
    len: usize,
    validity: Validity,
) -> Result<Array, NoMemory>
    requires { is_fitting (valid_of validity) len ≡ true }
    ensures { IfOk result
        (λ a. a ≡ copied_bits (scalar_row value.now) len (valid_of validity)) }
{
    let bits = bits_alike(alloc, value, len)?;
    Ok(BoolArray::of(bits, validity).into_array())
}

// `len` copies of the value's bytes, as a column of records of this type with this validity.
#[tactic(auto, using(vx_model::proofs::Layouts::layout_rows))]
fn store_records(
    alloc: Global,
    record_type: RecordType,
    value: &ScalarValue,
    len: usize,
    validity: Validity,
) -> Result<Array, NoMemory>
    requires fitting { is_fitting (valid_of validity) len ≡ true }
    requires wide { IfSome (kind_width (kind_of record_type))
        (λ w. length (bytes_or_zeros w (scalar_row value.now)) ≡ w) }
    ensures { IfOk result (λ a. a
        ≡ copied_records (kind_of record_type) (scalar_row value.now) len (valid_of validity)) }
{
    let values = value_records(alloc, value, record_type.width(), len)?;
    Ok(record_column(record_type, values, validity))
}

/// `len` rows of one value, null where the validity says no, stored row by row. Fails only with
/// `NoMemory`.
#[tactic(auto, using(vx_model::proofs::Scalars::scalar_kinds))]
pub(crate) fn store_scalar(
    alloc: Global,
    scalar: &Scalar,
    len: usize,
    validity: Validity,
) -> Result<Array, NoMemory>
    requires fitting { is_fitting (valid_of validity) len ≡ true }
    requires null { scalar.now.row ≡ null → valid_of validity ≡ all_invalid }
    ensures rows { IfOk result (λ a. a.rows
        ≡ shown_rows (present_bits (valid_of validity) len) (replicate len scalar.now.row)) }
    ensures dtype { IfOk result (λ a.
        a.dtype ≡ with_nullability scalar.now.dtype (nullability_by (valid_of validity))) }
    ensures unwrapped { is_flat_cover (cover_by (valid_of validity)) ≡ true
        → is_flat scalar.now.dtype ≡ true → IfOk result (λ a. is_unwrapped a ≡ true) }
    ensures direct { IfOk result (λ a. is_lazy_layout a.layout ≡ false) }
    ensures form { IfOk result (λ a. a.dense ≡ None) }
    ensures texts { is_text_kind scalar.now.dtype.kind ≡ true
        → IfOk result (λ a. a.layout ≡ text_layout scalar.now.row) }
{
    let value = scalar.value();
    match scalar.dtype() {
        DType::Null => Ok(NullArray::new(len).into_array()),
        DType::Bool(_) => store_bits(alloc, value, len, validity),
        DType::Primitive(ptype, _) => {
            store_records(alloc, RecordType::Primitive(*ptype), value, len, validity)
        }
        DType::Decimal(decimal, _) => {
            store_records(alloc, RecordType::Decimal(*decimal), value, len, validity)
        }
        DType::Utf8(_) | DType::Binary(_) => {
            Ok(store_texts(alloc, scalar, len, validity)?.into_array())
        }
        DType::List(..) | DType::FixedSizeList(..) | DType::Map(..) => unreachable!(),
        DType::Struct(..) | DType::Union(..) | DType::Extension(..) => unreachable!(),
    }
}
