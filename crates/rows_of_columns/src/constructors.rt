//! What constructors refuse.

use crate::arguments::{
    column_at, columns_at, number_at, shared_at, text_at, validity_at, view_of,
};
use serde_json::Value;
use std::alloc::Global;
use std::rc::RcStr;
use std::test::Fail;
use vx_bits::Buffer;
use vx_column::{
    ColumnError, DType, ExtDType, ExtensionArray, FixedSizeListArray, Layout, ListArray,
    ListViewArray, MapArray, PrimitiveArray, StructArray, StructFields, UnionArray, UnionVariants,
    VarBinArray, VarBinViewArray,
};
use vx_json::{
    byte_lists_in, bytes_of, list_member, member, names_of, text_kind_named, views_in, whole_of,
    wholes_in,
};
use vx_plain::ReadLayout;
use vx_shared::Shared;

/// Why a constructor makes no column, if it doesn't.
type Fault = Result<Option<ColumnError>, Fail>;

fn names_at(alloc: Global, row: &Value) -> Result<Vec<RcStr>, Fail> {
    Ok(names_of(alloc, member(row, "names")?)?)
}

/// The types of the columns `types`.
fn types_at(alloc: Global, row: &Value) -> Result<Vec<DType>, Fail> {
    let columns = columns_at(alloc, row, "types")?;
    let mut types = Vec::with_capacity(alloc, columns.len())?;
    for column in columns.as_slice() {
        types.push(column.dtype().share())?;
    }
    Ok(types)
}

fn ids_at(alloc: Global, row: &Value) -> Result<Vec<u8>, Fail> {
    let ids = wholes_in(alloc, list_member(row, "ids")?)?;
    let mut bytes = Vec::with_capacity(alloc, ids.len())?;
    for id in ids.as_slice() {
        bytes.push(u8::try_from(*id)?)?;
    }
    Ok(bytes)
}

/// The numbers of a column.
fn numbers_at(alloc: Global, row: &Value, name: &str) -> Result<PrimitiveArray, Fail> {
    match column_at(alloc, row, name)?.layout() {
        Layout::Primitive(array) => Ok(array.share()),
        _ => Err("no numbers".into()),
    }
}

fn fields_at(
    alloc: Global,
    row: &Value,
) -> Result<Result<Shared<StructFields>, ColumnError>, Fail> {
    let (names, types) = (names_at(alloc, row)?, types_at(alloc, row)?);
    Ok(StructFields::try_new(alloc, names, types))
}

fn variants_at(
    alloc: Global,
    row: &Value,
) -> Result<Result<Shared<UnionVariants>, ColumnError>, Fail> {
    let (ids, names) = (ids_at(alloc, row)?, names_at(alloc, row)?);
    Ok(UnionVariants::try_new(alloc, ids, names, types_at(alloc, row)?))
}

fn struct_fault(alloc: Global, row: &Value) -> Fault {
    let (fields, columns) = (fields_at(alloc, row)??, columns_at(alloc, row, "fields")?);
    let (len, validity) = (number_at(row, "len")?, validity_at(alloc, row)?);
    Ok(StructArray::try_new_with_dtype(columns, fields, len, validity).err())
}

fn map_fault(alloc: Global, row: &Value) -> Fault {
    match column_at(alloc, row, "entries")?.as_listview() {
        Some(entries) => Ok(MapArray::try_new(entries.share()).err()),
        None => Err("no list views".into()),
    }
}

fn extension_fault(alloc: Global, row: &Value) -> Fault {
    let (over, storage) = (
        column_at(alloc, row, "over")?,
        shared_at(alloc, row, "storage")?,
    );
    let name = RcStr::from_str(alloc, text_at(row, "name"))?;
    let ext = ExtDType::new(alloc, name, over.dtype().share())?;
    Ok(ExtensionArray::try_new(ext, storage).err())
}

fn union_fault(alloc: Global, row: &Value) -> Fault {
    let (ids, variants) = (
        shared_at(alloc, row, "type_ids")?,
        variants_at(alloc, row)??,
    );
    let columns = columns_at(alloc, row, "children")?;
    Ok(UnionArray::try_new(ids, variants, columns).err())
}

fn dense_fault(alloc: Global, row: &Value) -> Fault {
    let (ids, variants) = (
        shared_at(alloc, row, "type_ids")?,
        variants_at(alloc, row)??,
    );
    let offsets = numbers_at(alloc, row, "offsets")?;
    let columns = columns_at(alloc, row, "children")?;
    Ok(UnionArray::try_new_dense(ids, offsets, variants, columns).err())
}

fn texts_fault(alloc: Global, row: &Value) -> Fault {
    let kind = text_kind_named(text_at(row, "type"))?;
    let offsets = numbers_at(alloc, row, "offsets")?;
    let bytes = bytes_of(alloc, member(row, "bytes")?)?;
    Ok(VarBinArray::try_new(kind, offsets, bytes, validity_at(alloc, row)?).err())
}

fn views_fault(alloc: Global, row: &Value) -> Fault {
    let kind = text_kind_named(text_at(row, "type"))?;
    let views = Buffer::from_vec(alloc, views_in(alloc, list_member(row, "views")?)?)?;
    let buffers = byte_lists_in(alloc, list_member(row, "buffers")?)?;
    let buffers = Shared::new(alloc, buffers)?;
    Ok(VarBinViewArray::try_new(kind, views, buffers, validity_at(alloc, row)?).err())
}

fn list_fault(alloc: Global, row: &Value) -> Fault {
    let (elements, validity) = (shared_at(alloc, row, "elements")?, validity_at(alloc, row)?);
    let offsets = numbers_at(alloc, row, "offsets")?;
    Ok(ListArray::try_new(alloc, elements, offsets, validity).err())
}

fn listview_fault(alloc: Global, row: &Value) -> Fault {
    let (elements, validity) = (shared_at(alloc, row, "elements")?, validity_at(alloc, row)?);
    let (offsets, sizes) = (
        numbers_at(alloc, row, "offsets")?,
        numbers_at(alloc, row, "sizes")?,
    );
    Ok(ListViewArray::try_new(alloc, elements, offsets, sizes, validity).err())
}

fn fixed_fault(alloc: Global, row: &Value) -> Fault {
    let (elements, validity) = (shared_at(alloc, row, "elements")?, validity_at(alloc, row)?);
    let size = u32::try_from(whole_of(member(row, "size")?)?)?;
    let len = whole_of(member(row, "len")?)?;
    Ok(FixedSizeListArray::try_new(alloc, elements, size, validity, len).err())
}

/// What the constructor that a row names refuses.
pub(crate) fn constructor_fault(alloc: Global, row: &Value, name: &str) -> Fault {
    match name {
        "StructFields" => Ok(fields_at(alloc, row)?.err()),
        "UnionVariants" => Ok(variants_at(alloc, row)?.err()),
        "Struct" => struct_fault(alloc, row),
        "Map" => map_fault(alloc, row),
        "Extension" => extension_fault(alloc, row),
        "Union" => union_fault(alloc, row),
        "dense Union" => dense_fault(alloc, row),
        "VarBin" => texts_fault(alloc, row),
        "VarBinView" => views_fault(alloc, row),
        "List" => list_fault(alloc, row),
        "ListView" => listview_fault(alloc, row),
        "FixedSizeList" => fixed_fault(alloc, row),
        _ => Err("no such constructor".into()),
    }
}
