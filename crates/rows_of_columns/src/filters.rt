//! Filters: through the traits of layouts, and by functions.

use crate::arguments::view_of;
use crate::lines::Answer;
use rows_common::{check_mask, some_of};
use std::alloc::Global;
use std::test::Fail;
use vx_column::{
    Array, FixedSizeListArray, Layout, ListViewArray, StructArray, UnionArray, VarBinViewArray,
};
use vx_layouts::{
    FilterKernel, FilterReduce, filter_fixed_size_list, filter_listview, filter_struct,
    filter_union, filter_varbinview,
};
use vx_mask::Mask;
use vx_plain::vtables::{Bool, Extension, List, Map, VarBin};

fn reduced<V: FilterReduce>(alloc: Global, column: &Array, mask: &Mask) -> Result<Answer, Fail> {
    let view = view_of::<V>(column)?;
    check_mask(mask, view.array().len())?;
    Ok(V::filter(alloc, view, mask)?)
}

fn executed<V: FilterKernel>(alloc: Global, column: &Array, mask: &Mask) -> Result<Answer, Fail> {
    let view = view_of::<V>(column)?;
    check_mask(mask, view.array().len())?;
    Ok(V::filter(alloc, view, mask)?)
}

/// A filter through the trait and the layout that a row names: while columns are put together, or
/// while they are executed.
pub(crate) fn filtered_as(
    alloc: Global,
    column: &Array,
    mask: &Mask,
    call: (&str, &str),
) -> Result<Answer, Fail> {
    match call {
        ("FilterReduce", "Bool") => reduced::<Bool>(alloc, column, mask),
        ("FilterReduce", "Map") => reduced::<Map>(alloc, column, mask),
        ("FilterReduce", "Extension") => reduced::<Extension>(alloc, column, mask),
        ("FilterKernel", "VarBin") => executed::<VarBin>(alloc, column, mask),
        ("FilterKernel", "List") => executed::<List>(alloc, column, mask),
        ("FilterKernel", "Map") => executed::<Map>(alloc, column, mask),
        _ => Err("no such filter".into()),
    }
}

fn kept_texts(alloc: Global, array: &VarBinViewArray, mask: &Mask) -> Result<Array, Fail> {
    let mask = some_of(mask, array.share().into_array().len())?;
    Ok(filter_varbinview(alloc, array, mask)?.into_array())
}

fn kept_views(alloc: Global, array: &ListViewArray, mask: &Mask) -> Result<Array, Fail> {
    let mask = some_of(mask, array.share().into_array().len())?;
    Ok(filter_listview(alloc, array, mask)?.into_array())
}

fn kept_fixed(alloc: Global, array: &FixedSizeListArray, mask: &Mask) -> Result<Array, Fail> {
    let mask = some_of(mask, array.share().into_array().len())?;
    Ok(filter_fixed_size_list(alloc, array, mask)?.into_array())
}

fn kept_structs(alloc: Global, array: &StructArray, mask: &Mask) -> Result<Array, Fail> {
    let mask = some_of(mask, array.share().into_array().len())?;
    Ok(filter_struct(alloc, array, mask)?.into_array())
}

fn kept_unions(alloc: Global, array: &UnionArray, mask: &Mask) -> Result<Array, Fail> {
    let mask = some_of(mask, array.share().into_array().len())?;
    Ok(filter_union(alloc, array, mask)?.into_array())
}

/// A filter by the function that a row names, of a column of its layout.
pub(crate) fn filtered_by(
    alloc: Global,
    column: &Array,
    mask: &Mask,
    call: &str,
) -> Result<Array, Fail> {
    match (call, column.layout()) {
        ("filter_varbinview", Layout::VarBinView(array)) => kept_texts(alloc, array, mask),
        ("filter_listview", Layout::ListView(array)) => kept_views(alloc, array, mask),
        ("filter_fixed_size_list", Layout::FixedSizeList(array)) => kept_fixed(alloc, array, mask),
        ("filter_struct", Layout::Struct(array)) => kept_structs(alloc, array, mask),
        ("filter_union", Layout::Union(array)) => kept_unions(alloc, array, mask),
        _ => Err("no such filter".into()),
    }
}
