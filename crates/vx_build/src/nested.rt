//! Columns of lists and of structs.
ghost use Rattle.std.specs.Prelude.{◌≡◌, ◌&&◌, IfErr, IfOk, Ok, int_le, length, map, pos, true};
ghost use Rattle.vx_bits.specs.Results.{FailsBy};
ghost use Rattle.vx_types.specs.DType.{type_of};
ghost use Rattle.vx_types.specs.Fields.{names_of};
ghost use Rattle.vx_types.specs.declared.nullability.Nullability.TheVariants.{NonNullable};
ghost use Rattle.vx_offsets.specs.Offsets.{are_offsets, lists_at};
ghost use Rattle.vx_model.specs.Columns.{are_long, rows_across, types_in};
ghost use Rattle.vx_model.specs.List.{list_of};
ghost use Rattle.vx_model.specs.Lists.{list_row};
ghost use Rattle.vx_model.specs.Numbers.{integers_of};
ghost use Rattle.vx_model.specs.Struct.{fields_row, struct_of};
ghost use Rattle.vx_model.specs.VarBin.{are_integers};
ghost use Rattle.vx_build.specs.Faults.{lengths_fault, offsets_fault};
ghost use Rattle.vx_build.specs.Fields.{first_len};

use crate::primitive::records;
use std::alloc::Global;
use std::rc::RcStr;
use vx_bits::NoMemory;
use vx_column::{
    Array, ArrayRef, ColumnError, Columns, DType, ListArray, PType, PrimitiveArray, StructArray,
    StructFields, Validity, number_column,
};
use vx_shared::Shared;

// The result, with `NoMemory` as an error of columns.
fn in_memory<T>(made: Result<T, NoMemory>) -> Result<T, ColumnError>
    ensures ok { IfOk result (λ x. made ≡ Ok x) }
    ensures err { IfErr result (λ e. e ≡ ColumnError.NoMemory) }
{
    match made {
        Ok(made) => Ok(made),
        Err(NoMemory) => Err(ColumnError::NoMemory),
    }
}

// Whether an offset is at least `low` and at most `len`.
fn is_between(low: usize, offset: usize, len: usize) -> bool
    ensures { result ≡ (int_le (pos low) (pos offset) && int_le (pos offset) (pos len)) }
{
    low <= offset && offset <= len
}

// Whether these are offsets into `len` elements.
#[tactic(auto, using(crate::proofs::Parts::offsets))]
fn are_offsets(offsets: &[usize], len: usize) -> bool
    ensures { result ≡ are_offsets (map pos offsets.now) len }
{
    let mut low = 0;
    for offset in offsets {
        if !is_between(low, *offset, len) {
            return false;
        }
        low = *offset;
    }
    !offsets.is_empty()
}

// The non-nullable column of these offsets. Fails only with `NoMemory`.
fn offset_column(alloc: Global, offsets: &[usize]) -> Result<PrimitiveArray, NoMemory>
    ensures integers { IfOk result (λ a. are_integers a ≡ true) }
    ensures numbers { IfOk result (λ a. integers_of a ≡ map pos offsets.now) }
{
    Ok(number_column(PType::U64, records(alloc, offsets)?))
}

/// The column of lists that these offsets cut the elements into, none of them null.
///
/// `BadOffsets` exactly where there is no offset, or one is below the one before or past the
/// elements. Otherwise it fails only with `NoMemory`.
pub fn lists(alloc: Global, offsets: &[usize], elements: Array) -> Result<Array, ColumnError>
    ensures dtype { IfOk result (λ c. c.dtype
        ≡ record { kind = list_of elements.dtype; nullability = NonNullable }) }
    ensures rows { IfOk result
        (λ c. c.rows ≡ map list_row (lists_at offsets.now elements.rows)) }
    ensures refusal { FailsBy result (offsets_fault offsets.now (length elements.rows))
        ColumnError.NoMemory }
{
    if !are_offsets(offsets, elements.len()) {
        return Err(ColumnError::BadOffsets);
    }
    let ends = in_memory(offset_column(alloc, offsets))?;
    let parent = in_memory(elements.into_ref(alloc))?;
    let lists = ListArray::try_new(alloc, parent, ends, Validity::NonNullable)?;
    Ok(lists.into_array())
}

// The names of fields. Fails only with `NoMemory`.
fn names_in(alloc: Global, fields: &[(&str, ArrayRef)]) -> Result<Vec<RcStr>, NoMemory>
    ensures { IfOk result (λ names. names_of names.items ≡ map (λ f. f.0.now) fields.now) }
{
    let mut names = Vec::with_capacity(alloc, fields.len())?;
    for field in fields {
        names.push(RcStr::from_str(alloc, field.0)?)?;
    }
    Ok(names)
}

// The columns of fields. Fails only with `NoMemory`.
fn columns_in(alloc: Global, fields: &[(&str, ArrayRef)]) -> Result<Columns, NoMemory>
    ensures { IfOk result (λ columns. columns ≡ map (λ f. f.1) fields.now) }
{
    let mut columns = Vec::with_capacity(alloc, fields.len())?;
    for field in fields {
        columns.push(field.1.share())?;
    }
    Columns::new(alloc, columns)
}

// The types of the columns of fields. Fails only with `NoMemory`.
fn types_in(alloc: Global, fields: &[(&str, ArrayRef)]) -> Result<Vec<DType>, NoMemory>
    ensures { IfOk result
        (λ types. map type_of types.items ≡ types_in (map (λ f. f.1) fields.now)) }
{
    let mut types = Vec::with_capacity(alloc, fields.len())?;
    for field in fields {
        types.push(field.1.dtype().share())?;
    }
    Ok(types)
}

// The names and types of fields. Fails only with `NoMemory`.
fn struct_fields(
    alloc: Global,
    fields: &[(&str, ArrayRef)],
) -> Result<Shared<StructFields>, NoMemory>
    ensures { IfOk result (λ made. made ≡ record {
      names = map (λ f. f.0.now) fields.now;
      types = types_in (map (λ f. f.1) fields.now);
    }) }
{
    let names = names_in(alloc, fields)?;
    let types = types_in(alloc, fields)?;
    match StructFields::try_new(alloc, names, types) {
        Ok(made) => Ok(made),
        // there are as many names as types
        Err(_) => Err(NoMemory),
    }
}

// Whether each column has `len` rows.
fn are_long(fields: &[(&str, ArrayRef)], len: usize) -> bool
    ensures { result ≡ are_long len (map (λ f. f.1) fields.now) }
{
    for field in fields {
        if field.1.len() != len {
            return false;
        }
    }
    true
}

/// The column of `len` structs of these fields, each a name and a shared column, none of them null:
/// for no field, and for columns that others share. [`structs`] takes columns as they are.
///
/// `WrongLength` exactly where a column hasn't `len` rows. Otherwise it fails only with `NoMemory`.
pub fn structs_with_len(
    alloc: Global,
    fields: &[(&str, ArrayRef)],
    len: usize,
) -> Result<Array, ColumnError>
    ensures dtype { IfOk result (λ c. c.dtype ≡ record {
      kind = struct_of (record {
        names = map (λ f. f.0.now) fields.now;
        types = types_in (map (λ f. f.1) fields.now);
      });
      nullability = NonNullable;
    }) }
    ensures rows { IfOk result
        (λ c. c.rows ≡ map fields_row (rows_across (map (λ f. f.1) fields.now) len)) }
    ensures refusal { FailsBy result (lengths_fault len (map (λ f. f.1) fields.now))
        ColumnError.NoMemory }
{
    if !are_long(fields, len) {
        return Err(ColumnError::WrongLength);
    }
    let types = in_memory(struct_fields(alloc, fields))?;
    let columns = in_memory(columns_in(alloc, fields))?;
    let structs = StructArray::try_new_with_dtype(columns, types, len, Validity::NonNullable)?;
    Ok(structs.into_array())
}

// How many rows the first column has.
fn first_len(fields: &[(&str, Array)]) -> usize
    ensures { result ≡ first_len (map (λ f. f.1) fields.now) }
{
    match fields {
        [] => 0,
        [field, ..] => field.1.len(),
    }
}

// Whether each column has `len` rows.
fn are_alike(fields: &[(&str, Array)], len: usize) -> bool
    ensures { result ≡ are_long len (map (λ f. f.1) fields.now) }
{
    for field in fields {
        if field.1.len() != len {
            return false;
        }
    }
    true
}

// The fields, each column behind a counted pointer. Fails only with `NoMemory`.
fn shared<'a>(
    alloc: Global,
    fields: Vec<(&'a str, Array)>,
) -> Result<Vec<(&'a str, ArrayRef)>, NoMemory>
    ensures names { IfOk result
        (λ v. map (λ f. f.0.now) v.items ≡ map (λ f. f.0.now) fields.entry.items) }
    ensures columns { IfOk result
        (λ v. map (λ f. f.1) v.items ≡ map (λ f. f.1) fields.entry.items) }
{
    let mut shared = Vec::with_capacity(alloc, fields.len())?;
    for (name, column) in fields {
        shared.push((name, column.into_ref(alloc)?))?;
    }
    Ok(shared)
}

/// The column of structs of these fields, each a name and a column, none of them null. It has as
/// many rows as the first column.
///
/// `WrongLength` exactly where another column has another number of rows. Otherwise it fails only
/// with `NoMemory`.
pub fn structs(alloc: Global, fields: Vec<(&str, Array)>) -> Result<Array, ColumnError>
    ensures dtype { IfOk result (λ c. c.dtype ≡ record {
      kind = struct_of (record {
        names = map (λ f. f.0.now) fields.entry.items;
        types = types_in (map (λ f. f.1) fields.entry.items);
      });
      nullability = NonNullable;
    }) }
    ensures rows { IfOk result (λ c. c.rows ≡ map fields_row (rows_across
        (map (λ f. f.1) fields.entry.items) (first_len (map (λ f. f.1) fields.entry.items)))) }
    ensures refusal { FailsBy result (lengths_fault
        (first_len (map (λ f. f.1) fields.entry.items)) (map (λ f. f.1) fields.entry.items))
        ColumnError.NoMemory }
{
    let len = first_len(fields.as_slice());
    if !are_alike(fields.as_slice(), len) {
        return Err(ColumnError::WrongLength);
    }
    let fields = in_memory(shared(alloc, fields))?;
    structs_with_len(alloc, fields.as_slice(), len)
}
