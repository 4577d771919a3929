//! Columns of rows that stand where none is shown.
ghost use Rattle.std.specs.Prelude.{◌≡◌, ◌<◌, [], ◌∷◌, length, map, None, replicate, slice_index_or, true, IfOk};
ghost use Rattle.vx_types.specs.DType.{type_of};
ghost use Rattle.vx_types.specs.RowValue.{bytes, null};
ghost use Rattle.vx_types.specs.Scalar.{has_scalars, scalar_row};
ghost use Rattle.vx_types.specs.TypeTree.{are_carried, extension_type, fixed_type, is_carried, list_type, primitive_type, struct_type, types_of, union_type, is_entry_type};
ghost use Rattle.vx_types.specs.declared.nullability.Nullability.TheVariants.{NonNullable};
ghost use Rattle.vx_types.specs.declared.ptype.PType.TheVariants.{U8};
ghost use Rattle.vx_model.specs.Columns.{are_long, rows_across, types_in};
ghost use Rattle.vx_model.specs.Dict.{dict_fault};
ghost use Rattle.vx_model.specs.Filler.{filler_row};
ghost use Rattle.vx_model.specs.Map.{map_of};
ghost use Rattle.vx_filler.specs.Fillers.{empty_views, id_row, zero_numbers};

use crate::values::{filler_scalar, filler_validity, zero_numbers};
use std::alloc::Global;
use vx_bits::{Buffer, NoMemory};
use vx_column::{
    Array, ArrayRef, ColumnError, Columns, ConstantArray, DType, DictArray, ExtDType,
    ExtensionArray, FixedSizeListArray, ListArray, ListViewArray, MapArray, Nullability, PType,
    Scalar, ScalarValue, StructArray, StructFields, UnionArray, UnionVariants,
};
use vx_shared::Shared;

// A list of no elements, as a column of one row.
#[tactic(auto, using(crate::proofs::FilledRows::empty_list))]
fn filler_list(alloc: Global, elements: Array, nullability: Nullability) -> Result<Array, NoMemory>
    requires { elements.rows ≡ [] }
    ensures dtype { IfOk result (λ a. a.dtype ≡ list_type elements.dtype nullability) }
    ensures rows { IfOk result
        (λ a. a.rows ≡ filler_row (list_type elements.dtype nullability) ∷ []) }
{
    let validity = filler_validity(nullability);
    let offsets = zero_numbers(alloc, 2)?;
    match ListArray::try_new(alloc, elements.into_ref(alloc)?, offsets, validity) {
        Ok(list) => Ok(list.into_array()),
        Err(ColumnError::NoMemory) => Err(NoMemory),
        Err(_) => unreachable!(),
    }
}

// A list of so many elements that stand where none is shown, as a column of one row.
#[tactic(auto, using(crate::proofs::FilledRows::one_list))]
fn filler_fixed(
    alloc: Global,
    elements: Array,
    size: u32,
    nullability: Nullability,
) -> Result<Array, NoMemory>
    requires { elements.rows ≡ replicate size (filler_row elements.dtype) }
    ensures dtype { IfOk result (λ a. a.dtype ≡ fixed_type elements.dtype size nullability) }
    ensures rows { IfOk result
        (λ a. a.rows ≡ filler_row (fixed_type elements.dtype size nullability) ∷ []) }
{
    let validity = filler_validity(nullability);
    match FixedSizeListArray::try_new(alloc, elements.into_ref(alloc)?, size, validity, 1) {
        Ok(list) => Ok(list.into_array()),
        Err(ColumnError::NoMemory) => Err(NoMemory),
        Err(_) => unreachable!(),
    }
}

// So many codes 0, which are one constant.
fn zero_codes(alloc: Global, len: usize) -> Result<Array, NoMemory>
    ensures dtype { IfOk result (λ a. a.dtype ≡ primitive_type U8 NonNullable) }
    ensures rows { IfOk result (λ a. a.rows ≡ replicate len (bytes (0 ∷ []))) }
{
    let dtype = DType::Primitive(PType::U8, Nullability::NonNullable);
    Ok(ConstantArray::new(filler_scalar(alloc, &dtype)?, len).into_array())
}

// The values that these codes name.
fn decoded(codes: ArrayRef, values: ArrayRef) -> DictArray
    requires { dict_fault (record { codes = codes; values = values }) ≡ None }
    ensures { result ≡ record { codes = codes; values = values } }
{
    match DictArray::try_new(codes, values) {
        Ok(rows) => rows,
        Err(_) => unreachable!(),
    }
}

// The one row of a column, so many times. One code is tested, and the others are the same.
#[tactic(auto, using(crate::proofs::FilledRows::one_code))]
fn repeated(alloc: Global, column: Array, len: usize) -> Result<Array, NoMemory>
    requires { length column.rows ≡ 1 }
    ensures dtype { IfOk result (λ a. a.dtype ≡ column.dtype) }
    ensures rows { IfOk result
        (λ a. a.rows ≡ replicate len (slice_index_or column.rows 0 null)) }
{
    let one = zero_codes(alloc, 1)?.into_ref(alloc)?;
    let codes = zero_codes(alloc, len)?.into_ref(alloc)?;
    let row = decoded(one, column.into_ref(alloc)?);
    Ok(row.with_codes(codes).into_array())
}

// The list views of one row that has none of these elements.
#[tactic(auto, using(crate::proofs::FilledRows::no_entries))]
fn empty_views(
    alloc: Global,
    elements: Array,
    nullability: Nullability,
) -> Result<ListViewArray, NoMemory>
    requires { elements.rows ≡ [] }
    ensures { IfOk result (λ v. v ≡ empty_views elements nullability) }
{
    let validity = filler_validity(nullability);
    let offsets = zero_numbers(alloc, 1)?;
    let sizes = zero_numbers(alloc, 1)?;
    match ListViewArray::try_new(alloc, elements.into_ref(alloc)?, offsets, sizes, validity) {
        Ok(views) => Ok(views),
        Err(ColumnError::NoMemory) => Err(NoMemory),
        Err(_) => unreachable!(),
    }
}

// A map of no entries, as a column of one row.
#[tactic(auto, using(crate::proofs::FilledRows::no_entries))]
fn filler_map(alloc: Global, entries: Array, nullability: Nullability) -> Result<Array, NoMemory>
    requires none { entries.rows ≡ [] }
    requires entries { is_entry_type entries.dtype ≡ true }
    ensures dtype { IfOk result
        (λ a. a.dtype ≡ record { kind = map_of entries.dtype.kind; nullability = nullability }) }
    ensures rows { IfOk result (λ a. a.rows ≡ filler_row
        (record { kind = map_of entries.dtype.kind; nullability = nullability }) ∷ []) }
{
    match MapArray::try_new(empty_views(alloc, entries, nullability)?) {
        Ok(maps) => Ok(maps.into_array()),
        Err(_) => unreachable!(),
    }
}

// Structs of these fields, of which none is to be shown.
#[tactic(auto, using(crate::proofs::FilledRows::structs))]
fn filler_struct(
    columns: Columns,
    fields: &Shared<StructFields>,
    nullability: Nullability,
    len: usize,
) -> Array
    requires types { types_in columns ≡ fields.now.types }
    requires long { are_long len columns ≡ true }
    requires rows { rows_across columns len
        ≡ replicate len (map filler_row fields.now.types) }
    ensures dtype { result.dtype ≡ struct_type fields.now.names fields.now.types nullability }
    ensures rows { result.rows ≡ replicate len
        (filler_row (struct_type fields.now.names fields.now.types nullability)) }
{
    let validity = filler_validity(nullability);
    match StructArray::try_new_with_dtype(columns, fields.share(), len, validity) {
        Ok(structs) => structs.into_array(),
        Err(_) => unreachable!(),
    }
}

// The rows of the storage, under the extension's name.
#[tactic(auto, using(crate::proofs::FilledRows::extensions))]
fn filler_extension(
    alloc: Global,
    ext: &Shared<ExtDType>,
    storage: Array,
) -> Result<Array, NoMemory>
    requires { storage.dtype.kind ≡ ext.now.storage.kind }
    ensures dtype { IfOk result (λ a. a.dtype
        ≡ extension_type ext.now.name ext.now.storage storage.dtype.nullability) }
    ensures rows { IfOk result (λ a. a.rows ≡ storage.rows) }
{
    match ExtensionArray::try_new(ext.share(), storage.into_ref(alloc)?) {
        Ok(column) => Ok(column.into_array()),
        Err(_) => unreachable!(),
    }
}

// The value of an id: a null where the type has one, else that of the first variant.
fn filler_id(alloc: Global, ids: &[u8], nullability: Nullability) -> Result<ScalarValue, NoMemory>
    requires { 0 < length ids.now }
    ensures { IfOk result (λ v. scalar_row v ≡ id_row ids.now nullability) }
{
    match nullability {
        Nullability::Nullable => Ok(ScalarValue::Null),
        Nullability::NonNullable => {
            let id = vec![in alloc; ids[0]; 1]?;
            Ok(ScalarValue::Bytes(Buffer::from_vec(alloc, id)?))
        }
    }
}

// The ids of one row of a union.
#[tactic(auto, using(crate::proofs::FilledRows::unions))]
fn filler_ids(alloc: Global, ids: &[u8], nullability: Nullability) -> Result<Array, NoMemory>
    requires { 0 < length ids.now }
    ensures dtype { IfOk result (λ a. a.dtype ≡ primitive_type U8 nullability) }
    ensures rows { IfOk result (λ a. a.rows ≡ id_row ids.now nullability ∷ []) }
{
    let value = filler_id(alloc, ids, nullability)?;
    match Scalar::try_new(DType::Primitive(PType::U8, nullability), value) {
        Ok(scalar) => Ok(ConstantArray::new(scalar, 1).into_array()),
        Err(_) => unreachable!(),
    }
}

// One row of the first variant, or a null where the type has one.
#[tactic(auto, using(crate::proofs::FilledRows::unions))]
fn filler_union(
    alloc: Global,
    columns: Columns,
    variants: &Shared<UnionVariants>,
    nullability: Nullability,
) -> Result<Array, NoMemory>
    requires types { types_in columns ≡ variants.now.types }
    requires long { are_long 1 columns ≡ true }
    requires rows { rows_across columns 1 ≡ map filler_row variants.now.types ∷ [] }
    ensures dtype { IfOk result (λ a. a.dtype
        ≡ union_type variants.now.ids variants.now.names variants.now.types nullability) }
    ensures rows { IfOk result (λ a. a.rows ≡ filler_row
        (union_type variants.now.ids variants.now.names variants.now.types nullability) ∷ []) }
{
    let ids = filler_ids(alloc, variants.ids(), nullability)?;
    match UnionArray::try_new(ids.into_ref(alloc)?, variants.share(), columns) {
        Ok(union) => Ok(union.into_array()),
        Err(_) => unreachable!(),
    }
}

/// A column of this type, which is one that a column may have, and of so many rows, none of which
/// is to be shown: nulls where the type has them, else zeros, empty texts, empty lists and maps,
/// lists and structs of such rows, and such a row of a union's first variant. However many rows it
/// has, it takes the memory of one value a level of the type. Fails only with `NoMemory`.
#[cycle(filler)]
#[tactic(auto, using(vx_model::proofs::LazyRows::lazy_rows, crate::proofs::FilledRows::carried_inside))]
pub fn filler(alloc: Global, dtype: &DType, len: usize) -> Result<Array, NoMemory>
    requires { is_carried (type_of dtype.now) ≡ true }
    ensures dtype { IfOk result (λ a. a.dtype ≡ type_of dtype.now) }
    ensures rows { IfOk result
        (λ a. a.rows ≡ replicate len (filler_row (type_of dtype.now))) }
{
    match dtype {
        DType::List(element, n) => {
            let elements = filler(alloc, element.dtype(), 0)?;
            repeated(alloc, filler_list(alloc, elements, *n)?, len)
        }
        DType::FixedSizeList(element, size, n) => {
            let elements = filler(alloc, element.dtype(), *size as usize)?;
            repeated(alloc, filler_fixed(alloc, elements, *size, *n)?, len)
        }
        DType::Map(fields, n) => {
            let columns = fillers(alloc, fields.types(), 0)?;
            let entries = filler_struct(columns, fields, Nullability::NonNullable, 0);
            repeated(alloc, filler_map(alloc, entries, *n)?, len)
        }
        DType::Struct(fields, n) => {
            let columns = fillers(alloc, fields.types(), len)?;
            Ok(filler_struct(columns, fields, *n, len))
        }
        DType::Union(variants, n) => {
            let columns = fillers(alloc, variants.types(), 1)?;
            repeated(alloc, filler_union(alloc, columns, variants, *n)?, len)
        }
        DType::Extension(ext, n) => {
            let storage = ext.storage().with_nullability(*n);
            filler_extension(alloc, ext, filler(alloc, &storage, len)?)
        }
        _ if dtype.has_scalars() => {
            Ok(ConstantArray::new(filler_scalar(alloc, dtype)?, len).into_array())
        }
        _ => unreachable!(),
    }
}

/// So many rows of each of these types, which are ones that columns may have; none of the rows is
/// to be shown. Fails only with `NoMemory`.
#[cycle(filler)]
#[tactic(auto, using(crate::proofs::FilledRows::each_filler))]
pub fn fillers(alloc: Global, types: &[DType], len: usize) -> Result<Columns, NoMemory>
    requires { are_carried (types_of (map type_of types.now)) ≡ true }
    ensures types { IfOk result (λ f. types_in f ≡ map type_of types.now) }
    ensures long { IfOk result (λ f. are_long len f ≡ true) }
    ensures rows { IfOk result (λ f. rows_across f len
        ≡ replicate len (map filler_row (map type_of types.now))) }
{
    let mut fillers = Vec::with_capacity(alloc, types.len())?;
    for dtype in types {
        fillers.push(filler(alloc, dtype, len)?.into_ref(alloc)?)?;
    }
    Columns::new(alloc, fillers)
}
