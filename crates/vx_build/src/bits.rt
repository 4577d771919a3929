//! Masks, validities and columns of bools.
ghost use Rattle.std.specs.Prelude.{◌≡◌, IfOk, is_some, map};
ghost use Rattle.vx_types.specs.declared.nullability.Nullability.TheVariants.{NonNullable};
ghost use Rattle.vx_mask.specs.Mask.{mask_bits};
ghost use Rattle.vx_model.specs.Bool.{bits_column};
ghost use Rattle.vx_model.specs.Valid.{by_column};
ghost use Rattle.vx_column.specs.Validity.{valid_of};

use std::alloc::Global;
use vx_bits::{BitBuffer, BitBuilder, NoMemory};
use vx_column::{Array, BoolArray, Validity};
use vx_mask::Mask;

/// The mask of these bits. Fails only with `NoMemory`.
pub fn mask(alloc: Global, bits: &[bool]) -> Result<Mask, NoMemory>
    ensures { IfOk result (λ m. mask_bits m ≡ bits.now) }
{
    Ok(Mask::from_buffer(BitBuffer::from_bools(alloc, bits)?))
}

/// The validity that says of each row whether it is valid. Fails only with `NoMemory`.
pub fn validity(alloc: Global, valid: &[bool]) -> Result<Validity, NoMemory>
    ensures { IfOk result (λ v. valid_of v ≡ by_column (bits_column valid.now 0)) }
{
    Validity::from_bits(alloc, BitBuffer::from_bools(alloc, valid)?)
}

/// The non-nullable column of these bools. Fails only with `NoMemory`.
pub fn bools(alloc: Global, values: &[bool]) -> Result<Array, NoMemory>
    ensures { IfOk result (λ c. c ≡ bits_column values.now 0) }
{
    let bits = BitBuffer::from_bools(alloc, values)?;
    Ok(BoolArray::of(bits, Validity::NonNullable).into_array())
}

/// The validity of rows that are null where there is no value. Fails only with `NoMemory`.
pub(crate) fn presence<T>(alloc: Global, values: &[Option<T>]) -> Result<Validity, NoMemory>
    ensures { IfOk result (λ v. valid_of v ≡ by_column (bits_column (map is_some values.now) 0)) }
{
    let mut bits = BitBuilder::with_capacity(alloc, values.len())?;
    for value in values {
        bits.append(value.is_some())?;
    }
    Validity::from_bits(alloc, bits.finish()?)
}
