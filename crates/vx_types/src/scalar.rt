//! One value of a flat or a text type, and the value with its type.
ghost use Rattle.std.specs.Prelude.{◌≡◌, None, true};
ghost use Rattle.vx_bits.specs.Results.{ok_unless};
ghost use Rattle.vx_types.specs.DType.{type_of};
ghost use Rattle.vx_types.specs.Scalar.{scalar_row, is_of_kind, is_as_wide, scalar_fault};

use crate::dtype::DType;
use crate::error::ColumnError;
use std::marker::Model;
use vx_bits::Buffer;

/// One value of a column: null, a bit, or bytes. Vortex's `ScalarValue`.
#[derive(Drop)]
pub enum ScalarValue {
    /// A null row.
    Null,
    /// A row of a column of bools.
    Bit(bool),
    /// A row's record or text.
    Bytes(Buffer<u8>),
}

impl ScalarValue {
    /// Another handle to the same value.
    pub fn share(&self) -> ScalarValue
        ensures { result ≡ self.now }
    {
        match self {
            ScalarValue::Null => ScalarValue::Null,
            ScalarValue::Bit(bit) => ScalarValue::Bit(*bit),
            ScalarValue::Bytes(bytes) => ScalarValue::Bytes(bytes.share()),
        }
    }
}

/// One value with its type: Vortex's `Scalar`. A contract sees the type and the row.
#[derive(Drop)]
pub struct Scalar {
    dtype: DType,
    value: ScalarValue,
}

impl Model for Scalar {
    ghost use Rattle.std.specs.Prelude.{◌≡◌, None};
    ghost use Rattle.vx_types.specs.DType.{type_of};
    ghost use Rattle.vx_types.specs.Scalar.{TypedRow, coded_typed_row, scalar_row, scalar_fault};

    ghost Value = { TypedRow };

    ghost coded = { coded_typed_row };

    ghost view = { λ s. record { dtype = type_of s.dtype; row = scalar_row s.value } };

    ghost invariant = { λ s. scalar_fault (type_of s.dtype) (scalar_row s.value) ≡ None };
}

// Whether the value is of the type's kind, or a null of a nullable type.
fn is_of_kind(dtype: &DType, value: &ScalarValue) -> bool
    ensures { result ≡ is_of_kind (type_of dtype.now) (scalar_row value.now) }
{
    match (value, dtype) {
        (ScalarValue::Null, _) => dtype.has_scalars() && dtype.is_nullable(),
        (ScalarValue::Bit(_), DType::Bool(_)) => true,
        (
            ScalarValue::Bytes(_),
            DType::Primitive(..) | DType::Decimal(..) | DType::Utf8(_) | DType::Binary(_),
        ) => true,
        _ => false,
    }
}

// Whether the value has as many bytes as the type says, where it says so.
fn is_as_wide(dtype: &DType, value: &ScalarValue) -> bool
    ensures { result ≡ is_as_wide (type_of dtype.now) (scalar_row value.now) }
{
    match value {
        ScalarValue::Null | ScalarValue::Bit(_) => true,
        ScalarValue::Bytes(bytes) => match dtype.width() {
            Some(width) => bytes.len() == width,
            None => true,
        },
    }
}

impl Scalar {
    /// The value, as one of this type.
    ///
    /// `WrongType` exactly where the value is of another kind than the type, or a null and the
    /// type isn't nullable. Else `WrongWidth` exactly where the bytes of a number aren't as many
    /// as the type has.
    pub fn try_new(dtype: DType, value: ScalarValue) -> Result<Scalar, ColumnError>
        ensures { result ≡ ok_unless (scalar_fault (type_of dtype) (scalar_row value))
            (record { dtype = type_of dtype; row = scalar_row value }) }
    {
        if !is_of_kind(&dtype, &value) {
            return Err(ColumnError::WrongType);
        }
        if !is_as_wide(&dtype, &value) {
            return Err(ColumnError::WrongWidth);
        }
        Ok(Scalar { dtype, value })
    }

    /// The scalar's type.
    pub fn dtype(&self) -> &DType
        ensures value { type_of result.now ≡ self.now.dtype }
        ensures valid { scalar_fault self.now.dtype self.now.row ≡ None }
    {
        &self.dtype
    }

    /// The scalar's value.
    pub fn value(&self) -> &ScalarValue
        ensures value { scalar_row result.now ≡ self.now.row }
        ensures valid { scalar_fault self.now.dtype self.now.row ≡ None }
    {
        &self.value
    }

    /// Another handle to the same value.
    pub fn share(&self) -> Scalar
        ensures { result ≡ self.now }
    {
        Scalar {
            dtype: self.dtype.share(),
            value: self.value.share(),
        }
    }
}
