//! The values, validities and numbers that fillers are made of.
ghost use Rattle.std.specs.Prelude.{◌≡◌, ◌<◌, replicate, true, IfOk};
ghost use Rattle.vx_types.specs.DType.{type_of};
ghost use Rattle.vx_types.specs.RowValue.{null};
ghost use Rattle.vx_types.specs.Scalar.{has_scalars, scalar_row};
ghost use Rattle.vx_types.specs.TypeTree.{is_carried};
ghost use Rattle.vx_types.specs.declared.nullability.Nullability.TheVariants.{NonNullable};
ghost use Rattle.vx_types.specs.declared.ptype.PType.TheVariants.{U8};
ghost use Rattle.vx_model.specs.Filler.{filler_row, filler_value};
ghost use Rattle.vx_filler.specs.Fillers.{valid_by, zero_numbers};
ghost use Rattle.vx_column.specs.Validity.{valid_of};

use std::alloc::Global;
use vx_bits::{Buffer, NoMemory, Records};
use vx_column::{
    DType, Nullability, PType, PrimitiveArray, Scalar, ScalarValue, Validity, number_column,
};

// So many zeros.
fn zeros(alloc: Global, len: usize) -> Result<Buffer<u8>, NoMemory>
    ensures { IfOk result (λ b. b ≡ replicate len 0) }
{
    Buffer::from_vec(alloc, vec![in alloc; 0; len]?)
}

// Zeros, an empty text, or a bit that is clear.
fn filler_value(alloc: Global, dtype: &DType) -> Result<ScalarValue, NoMemory>
    requires { has_scalars (type_of dtype.now).kind ≡ true }
    ensures { IfOk result (λ v. scalar_row v ≡ filler_value (type_of dtype.now).kind) }
{
    match dtype {
        DType::Null => Ok(ScalarValue::Null),
        DType::Bool(_) => Ok(ScalarValue::Bit(false)),
        DType::Primitive(ptype, _) => Ok(ScalarValue::Bytes(zeros(alloc, ptype.width())?)),
        DType::Decimal(decimal, _) => {
            let width = decimal.width() as usize;
            Ok(ScalarValue::Bytes(zeros(alloc, width)?))
        }
        DType::Utf8(_) | DType::Binary(_) => Ok(ScalarValue::Bytes(zeros(alloc, 0)?)),
        _ => unreachable!(),
    }
}

/// The value, with its type: a null where the type has one.
#[tactic(auto, using(vx_model::proofs::Scalars::fillers))]
pub(crate) fn filler_scalar(alloc: Global, dtype: &DType) -> Result<Scalar, NoMemory>
    requires scalars { has_scalars (type_of dtype.now).kind ≡ true }
    requires carried { is_carried (type_of dtype.now) ≡ true }
    ensures { IfOk result (λ s. s
        ≡ record { dtype = type_of dtype.now; row = filler_row (type_of dtype.now) }) }
{
    let value = if dtype.is_nullable() {
        ScalarValue::Null
    } else {
        filler_value(alloc, dtype)?
    };
    match Scalar::try_new(dtype.share(), value) {
        Ok(scalar) => Ok(scalar),
        Err(_) => unreachable!(),
    }
}

/// Rows that are all null where the type has nulls, else all there.
pub(crate) fn filler_validity(nullability: Nullability) -> Validity
    ensures { valid_of result ≡ valid_by nullability }
{
    match nullability {
        Nullability::NonNullable => Validity::NonNullable,
        Nullability::Nullable => Validity::AllInvalid,
    }
}

/// So many numbers 0.
pub(crate) fn zero_numbers(alloc: Global, len: usize) -> Result<PrimitiveArray, NoMemory>
    ensures { IfOk result (λ a. a ≡ zero_numbers len) }
{
    let records = Records::W1(Buffer::from_vec(alloc, vec![in alloc; [0]; len]?)?);
    Ok(number_column(PType::U8, records))
}
