//! Columns of layout `Constant`.
ghost use Rattle.std.specs.Prelude.{◌≡◌};
ghost use Rattle.serde_json.specs.View.{view};
ghost use Rattle.vx_types.specs.DType.{type_of};
ghost use Rattle.vx_types.specs.Scalar.{scalar_row};
ghost use Rattle.vx_json.specs.Meaning.{Gives};
ghost use Rattle.vx_column_json.specs.Constant.{nullable_or, nullability_of, null_typed, decimal_typed, text_typed, constant_type, value_in, row_in, constant_made, constant_by_type, is_constant_closed, constant_named, constant_by};

use serde_json::Value;
use std::alloc::Global;
use vx_column::{Array, ConstantArray, DType, Nullability, Scalar, ScalarValue, TextKind};
use vx_json::{
    DocError, GREATEST_LEN, bool_in, decimal_of, hex_value_of, is_closed, member, number_member,
    ptype_named, text_member, text_of, value_of,
};

/// The members of an object with a decimal type.
const DECIMAL_MEMBERS: [&str; 8] = [
    "layout",
    "type",
    "precision",
    "scale",
    "width",
    "nullable",
    "value",
    "len",
];

/// Whether null rows are allowed: as the object says, or else as is usual.
#[tactic(auto, unfolding(crate::specs::Constant::nullable_or))]
fn nullable_or(usual: bool, value: &Value) -> Result<bool, DocError>
    ensures { Gives (λ b. b) result (nullable_or usual (view value.now)) }
{
    match value.get("nullable") {
        Some(nullable) => bool_in(nullable),
        None => Ok(usual),
    }
}

#[tactic(auto, unfolding(crate::specs::Constant::nullability_of))]
fn nullability_of(value: &Value) -> Result<Nullability, DocError>
    ensures { Gives (λ n. n) result (nullability_of (view value.now)) }
{
    if nullable_or(false, value)? {
        Ok(Nullability::Nullable)
    } else {
        Ok(Nullability::NonNullable)
    }
}

/// The type of nulls. `Malformed` where the object says that no row is null.
#[tactic(auto, unfolding(crate::specs::Constant::null_typed))]
fn null_typed(value: &Value) -> Result<DType, DocError>
    ensures { Gives type_of result (null_typed (view value.now)) }
{
    if nullable_or(true, value)? {
        Ok(DType::Null)
    } else {
        Err(DocError::Malformed)
    }
}

#[tactic(auto, unfolding(crate::specs::Constant::decimal_typed))]
fn decimal_typed(value: &Value) -> Result<DType, DocError>
    ensures { Gives type_of result (decimal_typed (view value.now)) }
{
    let decimal = decimal_of(value)?;
    Ok(DType::Decimal(decimal, nullability_of(value)?))
}

#[tactic(auto, unfolding(crate::specs::Constant::text_typed))]
fn text_typed(kind: TextKind, value: &Value) -> Result<DType, DocError>
    ensures { Gives type_of result (text_typed kind (view value.now)) }
{
    Ok(kind.dtype(nullability_of(value)?))
}

/// The type of this name. `Malformed` where there is none, or the members beside it say none.
#[tactic(auto, unfolding(crate::specs::Constant::constant_type))]
fn constant_type(name: &str, value: &Value) -> Result<DType, DocError>
    ensures { Gives type_of result (constant_type name.now (view value.now)) }
{
    match name {
        "null" => null_typed(value),
        "bool" => Ok(DType::Bool(nullability_of(value)?)),
        "decimal" => decimal_typed(value),
        "utf8" => text_typed(TextKind::Utf8, value),
        "binary" => text_typed(TextKind::Binary, value),
        _ => Ok(DType::Primitive(ptype_named(name)?, nullability_of(value)?)),
    }
}

/// The value of the type that isn't null. `Malformed` where there is none.
fn value_in(alloc: Global, dtype: &DType, value: &Value) -> Result<ScalarValue, DocError>
    ensures { Gives scalar_row result (value_in (type_of dtype.now).kind (view value.now)) }
{
    match dtype {
        DType::Bool(_) => Ok(ScalarValue::Bit(bool_in(value)?)),
        DType::Primitive(ptype, _) => Ok(ScalarValue::Bytes(value_of(alloc, *ptype, value)?)),
        DType::Decimal(decimal, _) => {
            let width = decimal.width() as usize;
            Ok(ScalarValue::Bytes(hex_value_of(alloc, width, value)?))
        }
        DType::Utf8(_) => Ok(ScalarValue::Bytes(text_of(alloc, TextKind::Utf8, value)?)),
        DType::Binary(_) => Ok(ScalarValue::Bytes(text_of(alloc, TextKind::Binary, value)?)),
        _ => Err(DocError::Malformed),
    }
}

/// The value of the type, or the null. `Malformed` where it is neither.
#[tactic(auto, unfolding(crate::specs::Constant::row_in))]
fn row_in(alloc: Global, dtype: &DType, value: &Value) -> Result<ScalarValue, DocError>
    ensures { Gives scalar_row result (row_in (type_of dtype.now) (view value.now)) }
{
    if value.is_null() {
        Ok(ScalarValue::Null)
    } else {
        value_in(alloc, dtype, value)
    }
}

/// So many rows of this value. `Malformed` where it is none of the type.
fn constant_made(dtype: DType, value: ScalarValue, len: usize) -> Result<Array, DocError>
    ensures { Gives (λ c. c) result (constant_made (type_of dtype) (scalar_row value) len) }
{
    match Scalar::try_new(dtype, value) {
        Ok(scalar) => Ok(ConstantArray::new(scalar, len).into_array()),
        Err(_) => Err(DocError::Malformed),
    }
}

#[tactic(auto, unfolding(crate::specs::Constant::constant_by_type))]
fn constant_by_type(alloc: Global, dtype: DType, value: &Value) -> Result<Array, DocError>
    ensures { Gives (λ c. c) result (constant_by_type (type_of dtype) (view value.now)) }
{
    let len = number_member(GREATEST_LEN, value, "len")?;
    let row = row_in(alloc, &dtype, member(value, "value")?)?;
    constant_made(dtype, row, len)
}

/// Whether it has no other members than an object with a type of this name may have.
#[tactic(auto, unfolding(crate::specs::Constant::is_constant_closed))]
fn is_constant_closed(name: &str, value: &Value) -> bool
    ensures { result ≡ is_constant_closed name.now (view value.now) }
{
    match name {
        "decimal" => is_closed(value, &DECIMAL_MEMBERS),
        _ => is_closed(value, &["layout", "type", "nullable", "value", "len"]),
    }
}

#[tactic(auto, unfolding(crate::specs::Constant::constant_named))]
fn constant_named(alloc: Global, value: &Value, name: &str) -> Result<Array, DocError>
    ensures { Gives (λ c. c) result (constant_named (view value.now) name.now) }
{
    if is_constant_closed(name, value) {
        constant_by_type(alloc, constant_type(name, value)?, value)
    } else {
        Err(DocError::Malformed)
    }
}

/// The column of layout `Constant` that the value means. `Malformed` where there is no such type,
/// the value is none of it, the length is past `GREATEST_LEN`, or there is another member.
#[tactic(auto, unfolding(crate::specs::Constant::constant_by))]
pub fn constant_by(alloc: Global, value: &Value) -> Result<Array, DocError>
    ensures { Gives (λ c. c) result (constant_by (view value.now)) }
{
    constant_named(alloc, value, text_member(value, "type")?)
}
