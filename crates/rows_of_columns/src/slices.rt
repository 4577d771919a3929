//! Slices: through the traits of layouts, and of any layout.

use crate::arguments::view_of;
use crate::lines::{Answer, Rows};
use rows_common::check_slice;
use std::alloc::Global;
use std::test::Fail;
use vx_column::{Array, Layout};
use vx_layouts::{SliceKernel, SliceReduce, VarBinSlice, slice, slice_union};
use vx_plain::vtables::{
    Bool, Dict, Extension, FixedSizeList, List, ListView, Map, Struct, Union, VarBin, VarBinView,
};

/// Where a slice begins and ends.
pub(crate) type Range = (usize, usize);

fn reduced<V: SliceReduce>(alloc: Global, column: &Array, range: Range) -> Result<Answer, Fail> {
    let (view, (start, end)) = (view_of::<V>(column)?, range);
    check_slice(start, end, view.array().len())?;
    Ok(V::slice(alloc, view, start, end)?)
}

fn executed<V: SliceKernel>(alloc: Global, column: &Array, range: Range) -> Result<Answer, Fail> {
    let (view, (start, end)) = (view_of::<V>(column)?, range);
    check_slice(start, end, view.array().len())?;
    Ok(V::slice(alloc, view, start, end)?)
}

fn texts<V: VarBinSlice>(alloc: Global, column: &Array, range: Range) -> Result<Answer, Fail> {
    let (view, (start, end)) = (view_of::<V>(column)?, range);
    check_slice(start, end, view.array().len())?;
    Ok(Some(V::_slice(alloc, view, start, end)?))
}

fn reduced_as(alloc: Global, column: &Array, range: Range, layout: &str) -> Result<Answer, Fail> {
    match layout {
        "Bool" => reduced::<Bool>(alloc, column, range),
        "VarBin" => reduced::<VarBin>(alloc, column, range),
        "VarBinView" => reduced::<VarBinView>(alloc, column, range),
        "List" => reduced::<List>(alloc, column, range),
        "ListView" => reduced::<ListView>(alloc, column, range),
        "FixedSizeList" => reduced::<FixedSizeList>(alloc, column, range),
        "Map" => reduced::<Map>(alloc, column, range),
        "Struct" => reduced::<Struct>(alloc, column, range),
        "Union" => reduced::<Union>(alloc, column, range),
        "Extension" => reduced::<Extension>(alloc, column, range),
        "Dict" => reduced::<Dict>(alloc, column, range),
        _ => Err("no such slice".into()),
    }
}

/// A slice through the trait and the layout that a row names.
pub(crate) fn sliced_as(
    alloc: Global,
    column: &Array,
    range: Range,
    call: (&str, &str),
) -> Result<Answer, Fail> {
    match call {
        ("SliceReduce", layout) => reduced_as(alloc, column, range, layout),
        ("SliceKernel", "Map") => executed::<Map>(alloc, column, range),
        ("VarBinSlice", "VarBin") => texts::<VarBin>(alloc, column, range),
        _ => Err("no such slice".into()),
    }
}

/// The rows between.
pub(crate) fn cut(alloc: Global, column: &Array, (start, end): Range) -> Result<Array, Fail> {
    check_slice(start, end, column.len())?;
    Ok(slice(alloc, column, start, end)?)
}

/// The rows of a union between, in its form.
pub(crate) fn cut_union(alloc: Global, column: &Array, (start, end): Range) -> Rows {
    let Layout::Union(array) = column.layout() else {
        return Err("no union".into());
    };
    check_slice(start, end, array.share().into_array().len())?;
    Ok(slice_union(alloc, array, start, end)?.into_array())
}
