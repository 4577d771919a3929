//! Which values of a decoder are the rows of a column.
ghost use Rattle.std.specs.Prelude.{◌≡◌, ◌+◌, ◌^◌, ◌<◌, Some, true, IsSome};
ghost use Rattle.vx_bits.specs.Results.{ok_unless};
ghost use Rattle.vx_types.specs.Decimal.{is_width};
ghost use Rattle.vx_types.specs.DType.{type_of};
ghost use Rattle.vx_types.specs.Same.{is_same_nullability};
ghost use Rattle.vx_types.specs.TypeTree.{type_width};
ghost use Rattle.vx_model.specs.Valid.{is_fitting, nullability_by};
ghost use Rattle.vx_column.specs.Validity.{valid_of};
ghost use Rattle.vx_steps.specs.Shape.{is_counted, is_stored_as, shape_fault, shape_of};

use std::marker::Model;
use vx_column::{ColumnError, DType, Nullability, Validity};
use vx_decoder::FILTER_CHUNK_LEN;

/// A column of values that lie behind a decoder: row `i` is value `offset + i`, or null where the
/// validity says no.
///
/// Clauses see the type, the offset, the length and the validity.
#[derive(Drop)]
pub struct ChunkShape {
    dtype: DType,
    offset: usize,
    len: usize,
    validity: Validity,
}

impl Model for ChunkShape {
    ghost use Rattle.std.specs.Prelude.{◌≡◌, None};
    ghost use Rattle.vx_steps.specs.Shape.{ShapeValue, coded_shape, shape_fault, shape_of};

    ghost Value = { ShapeValue };

    ghost coded = { coded_shape };

    ghost view = { λ s. shape_of s.dtype s.offset s.len s.validity };

    ghost invariant = { λ s. shape_fault (shape_of s.dtype s.offset s.len s.validity) ≡ None };
}

// Whether two types are alike in having nulls.
fn is_same_nullability(a: Nullability, b: Nullability) -> bool
    ensures { result ≡ is_same_nullability a b }
{
    a.is_nullable() == b.is_nullable()
}

// Whether values of the type have a width, and may be null just where the validity may say so.
fn is_stored_as(dtype: &DType, validity: &Validity) -> bool
    ensures { result ≡ is_stored_as (type_of dtype.now) (valid_of validity.now) }
{
    dtype.width().is_some() && is_same_nullability(dtype.nullability(), validity.nullability())
}

// Whether the first value lies in the first chunk, and a `usize` counts the values up to the last.
fn is_counted(offset: usize, len: usize) -> bool
    ensures { result ≡ is_counted offset len }
{
    offset < FILTER_CHUNK_LEN && offset.checked_add(len).is_some()
}

impl ChunkShape {
    /// The column of the `len` values from value `offset` on.
    ///
    /// `WrongType` exactly where the type isn't primitive or decimal, or has nulls where the
    /// validity has none, or none where it may. Else `BadValidity` exactly where the validity is
    /// an array that isn't non-nullable bool or isn't as long. Else `TooLong` exactly where the
    /// offset passes 1023, or the offset and the length in all pass `usize::MAX`.
    pub fn try_new(
        dtype: DType,
        offset: usize,
        len: usize,
        validity: Validity,
    ) -> Result<ChunkShape, ColumnError>
        ensures { result ≡ ok_unless (shape_fault (shape_of dtype offset len validity))
            (shape_of dtype offset len validity) }
    {
        if !is_stored_as(&dtype, &validity) {
            return Err(ColumnError::WrongType);
        }
        if !validity.is_fitting(len) {
            return Err(ColumnError::BadValidity);
        }
        if !is_counted(offset, len) {
            return Err(ColumnError::TooLong);
        }
        Ok(ChunkShape {
            dtype,
            offset,
            len,
            validity,
        })
    }

    /// The type of the rows.
    pub fn dtype(&self) -> &DType
        ensures value { type_of result.now ≡ self.now.dtype }
        ensures sized { IsSome (type_width self.now.dtype) }
        ensures nullability { self.now.dtype.nullability ≡ nullability_by self.now.valid }
    {
        &self.dtype
    }

    /// How many bytes a value has: 1, 2, 4, 8, 16 or 32.
    pub fn width(&self) -> usize
        ensures value { type_width self.now.dtype ≡ Some result }
        ensures sized { is_width result ≡ true }
    {
        match &self.dtype {
            DType::Primitive(ptype, _) => ptype.width(),
            DType::Decimal(decimal, _) => decimal.width() as usize,
            _ => unreachable!(),
        }
    }

    /// The number of the first row's value.
    pub fn offset(&self) -> usize
        ensures value { result ≡ self.now.offset }
        ensures within { result < 1024 }
    {
        self.offset
    }

    /// How many rows there are.
    pub fn len(&self) -> usize
        ensures value { result ≡ self.now.len }
        ensures counted { self.now.offset + result < 2 ^ 64 }
        ensures fitting { is_fitting self.now.valid result ≡ true }
    {
        self.len
    }

    /// Which rows are valid.
    pub fn validity(&self) -> &Validity
        ensures value { valid_of result.now ≡ self.now.valid }
        ensures fitting { is_fitting self.now.valid self.now.len ≡ true }
    {
        &self.validity
    }
}
