//! Columns of numbers.
ghost use Rattle.std.specs.Prelude.{◌≡◌, [], ◌∷◌, IfOk, Some, is_some, length, map, replicate, true};
ghost use Rattle.std.specs.Option.{option_map};
ghost use Rattle.vx_bits.specs.Records.{records_of, width_of};
ghost use Rattle.vx_types.specs.PType.{number, width};
ghost use Rattle.vx_types.specs.RowValue.{bytes, null};
ghost use Rattle.vx_types.specs.TypeTree.{primitive_kind};
ghost use Rattle.vx_types.specs.declared.nullability.Nullability.TheVariants.{NonNullable, Nullable};
ghost use Rattle.vx_model.specs.Numbers.{numbers_of};
ghost use Rattle.vx_model.specs.Plain.{is_plain};
ghost use Rattle.vx_model.specs.Valid.{shown_rows};
ghost use Rattle.vx_build.specs.Rows.{row_or_null};

use crate::bits::presence;
use crate::native::{NativePType, RecordWidth};
use std::alloc::Global;
use vx_bits::{Buffer, NoMemory, Records};
use vx_column::{
    Array, ConstantArray, DType, Nullability, PType, RecordType, Scalar, ScalarValue, Validity,
    record_column,
};

/// A record for each number. Fails only with `NoMemory`.
pub fn records<T: NativePType<W>, const W: usize>(
    alloc: Global,
    numbers: &[T],
) -> Result<Records, NoMemory>
where
    [u8; W]: RecordWidth<W>,
    ensures records { IfOk result (λ r. records_of r ≡ map (T.record_of) numbers.now) }
    ensures width { IfOk result (λ r. width_of r ≡ W) }
    ensures numbers { IfOk result
        (λ r. map (number (T.ptype)) (records_of r) ≡ map (T.integer) numbers.now) }
{
    // a record has few bytes
    let _ = T::ptype();
    let mut records = Vec::with_capacity(alloc, numbers.len())?;
    for number in numbers {
        records.push_reserved(number.to_record());
    }
    Ok(<[u8; W]>::records(Buffer::from_vec(alloc, records)?))
}

/// The column of these numbers, none of them null. Fails only with `NoMemory`.
pub fn numbers<T: NativePType<W>, const W: usize>(
    alloc: Global,
    values: &[T],
) -> Result<Array, NoMemory>
where
    [u8; W]: RecordWidth<W>,
    ensures dtype { IfOk result (λ c. c.dtype
        ≡ record { kind = primitive_kind (T.ptype); nullability = NonNullable }) }
    ensures rows { IfOk result (λ c. c.rows ≡ map (λ n. bytes (T.record_of n)) values.now) }
    ensures numbers { IfOk result
        (λ c. numbers_of c ≡ map (λ n. Some (T.integer n)) values.now) }
    ensures plain { IfOk result (λ c. is_plain c ≡ true) }
{
    let stored = records(alloc, values)?;
    let record_type = RecordType::Primitive(T::ptype());
    Ok(record_column(record_type, stored, Validity::NonNullable))
}

// The record of a number, and zeros where there is none.
fn record_or_zeros<T: NativePType<W>, const W: usize>(value: Option<T>) -> [u8; W]
    ensures row { shown_rows (is_some value ∷ []) (bytes result ∷ [])
        ≡ row_or_null (λ n. bytes (T.record_of n)) value ∷ [] }
    ensures number { option_map (λ n. number (T.ptype) (T.record_of n)) value
        ≡ option_map (T.integer) value }
{
    match value {
        Some(value) => value.to_record(),
        None => [0; W],
    }
}

// A record for each number, and zeros where there is none. Fails only with `NoMemory`.
fn records_or_zeros<T: NativePType<W>, const W: usize>(
    alloc: Global,
    numbers: &[Option<T>],
) -> Result<Records, NoMemory>
where
    [u8; W]: RecordWidth<W>,
    ensures len { IfOk result (λ r. length (records_of r) ≡ length numbers.now) }
    ensures width { IfOk result (λ r. width_of r ≡ W) }
    ensures rows { IfOk result
        (λ r. shown_rows (map is_some numbers.now) (map bytes (records_of r))
        ≡ map (row_or_null (λ n. bytes (T.record_of n))) numbers.now) }
    ensures numbers { IfOk result
        (λ _. map (option_map (λ n. number (T.ptype) (T.record_of n))) numbers.now
        ≡ map (option_map (T.integer)) numbers.now) }
{
    // a record has few bytes
    let _ = T::ptype();
    let mut records = Vec::with_capacity(alloc, numbers.len())?;
    for number in numbers {
        records.push_reserved(record_or_zeros(*number));
    }
    Ok(<[u8; W]>::records(Buffer::from_vec(alloc, records)?))
}

/// The column of these numbers, null where there is none. Fails only with `NoMemory`.
pub fn nullable_numbers<T: NativePType<W>, const W: usize>(
    alloc: Global,
    values: &[Option<T>],
) -> Result<Array, NoMemory>
where
    [u8; W]: RecordWidth<W>,
    ensures dtype { IfOk result (λ c. c.dtype
        ≡ record { kind = primitive_kind (T.ptype); nullability = Nullable }) }
    ensures rows { IfOk result
        (λ c. c.rows ≡ map (row_or_null (λ n. bytes (T.record_of n))) values.now) }
    ensures numbers { IfOk result
        (λ c. numbers_of c ≡ map (option_map (T.integer)) values.now) }
{
    let stored = records_or_zeros(alloc, values)?;
    let validity = presence(alloc, values)?;
    let record_type = RecordType::Primitive(T::ptype());
    Ok(record_column(record_type, stored, validity))
}

// So many rows of the number that these bytes are. Fails only with `NoMemory`.
fn constant_bytes(alloc: Global, ptype: PType, number: &[u8], len: usize) -> Result<Array, NoMemory>
    requires { length number.now ≡ width ptype }
    ensures dtype { IfOk result (λ c. c.dtype
        ≡ record { kind = primitive_kind ptype; nullability = NonNullable }) }
    ensures rows { IfOk result (λ c. c.rows ≡ replicate len (bytes number.now)) }
{
    let dtype = DType::Primitive(ptype, Nullability::NonNullable);
    let bytes = Buffer::from_vec(alloc, Vec::from_slice(alloc, number)?)?;
    match Scalar::try_new(dtype, ScalarValue::Bytes(bytes)) {
        Ok(scalar) => Ok(ConstantArray::new(scalar, len).into_array()),
        Err(_) => unreachable!(),
    }
}

/// So many rows of this number. Fails only with `NoMemory`.
pub fn constant<T: NativePType<W>, const W: usize>(
    alloc: Global,
    value: T,
    len: usize,
) -> Result<Array, NoMemory>
    ensures dtype { IfOk result (λ c. c.dtype
        ≡ record { kind = primitive_kind (T.ptype); nullability = NonNullable }) }
    ensures rows { IfOk result (λ c. c.rows ≡ replicate len (bytes (T.record_of value))) }
{
    constant_bytes(alloc, T::ptype(), &value.to_record(), len)
}
