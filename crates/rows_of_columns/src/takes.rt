//! Takes: through the traits of layouts, as a dictionary asks for them, and by functions.

use crate::arguments::{column_at, number_at, view_of};
use crate::lines::Taken;
use serde_json::Value;
use std::alloc::Global;
use std::test::Fail;
use vx_column::{Array, Layout};
use vx_layouts::{
    TakeError, TakeExecute, TakeExecuteAdaptor, TakeReduce, TakeReduceAdaptor, take, take_list,
    take_union, take_varbin,
};
use vx_mask::Policy;
use vx_pieces::Indices;
use vx_plain::vtables::{
    Bool, Decimal, Dict, Extension, Filter, FixedSizeList, List, ListView, Map, Null, Primitive,
    Struct, Union, VarBin, VarBinView,
};

fn reduced<V: TakeReduce>(alloc: Global, column: &Array, indices: &Indices) -> Result<Taken, Fail> {
    Ok(V::take(alloc, view_of::<V>(column)?, indices))
}

fn reduced_as(
    alloc: Global,
    column: &Array,
    indices: &Indices,
    layout: &str,
) -> Result<Taken, Fail> {
    match layout {
        "ListView" => reduced::<ListView>(alloc, column, indices),
        "Map" => reduced::<Map>(alloc, column, indices),
        "Struct" => reduced::<Struct>(alloc, column, indices),
        "Union" => reduced::<Union>(alloc, column, indices),
        "Extension" => reduced::<Extension>(alloc, column, indices),
        _ => Err("no such take".into()),
    }
}

fn executed<V: TakeExecute>(
    alloc: Global,
    column: &Array,
    indices: &Indices,
) -> Result<Taken, Fail> {
    Ok(V::take(alloc, view_of::<V>(column)?, indices))
}

/// A take through the trait and the layout that a row names: while columns are put together, or
/// while they are executed.
pub(crate) fn taken_as(
    alloc: Global,
    column: &Array,
    indices: &Indices,
    call: (&str, &str),
) -> Result<Taken, Fail> {
    match call {
        ("TakeReduce", layout) => reduced_as(alloc, column, indices, layout),
        ("TakeExecute", "Null") => executed::<Null>(alloc, column, indices),
        ("TakeExecute", "Bool") => executed::<Bool>(alloc, column, indices),
        ("TakeExecute", "Primitive") => executed::<Primitive>(alloc, column, indices),
        ("TakeExecute", "Decimal") => executed::<Decimal>(alloc, column, indices),
        ("TakeExecute", "VarBin") => executed::<VarBin>(alloc, column, indices),
        ("TakeExecute", "VarBinView") => executed::<VarBinView>(alloc, column, indices),
        ("TakeExecute", "List") => executed::<List>(alloc, column, indices),
        ("TakeExecute", "ListView") => executed::<ListView>(alloc, column, indices),
        ("TakeExecute", "FixedSizeList") => executed::<FixedSizeList>(alloc, column, indices),
        ("TakeExecute", "Map") => executed::<Map>(alloc, column, indices),
        ("TakeExecute", "Extension") => executed::<Extension>(alloc, column, indices),
        ("TakeExecute", "Filter") => executed::<Filter>(alloc, column, indices),
        _ => Err("no such take".into()),
    }
}

/// The rows that a take gives, or why there are none.
type Rows = Result<Array, TakeError>;

/// A take of a column of any layout.
pub(crate) fn taken_rows(alloc: Global, column: &Array, indices: &Indices) -> Rows {
    take(alloc, column, indices, &Policy::vortex())
}

/// A take by a function of one layout.
fn taken_alone(alloc: Global, column: &Array, indices: &Indices, call: &str) -> Result<Rows, Fail> {
    match (call, column.layout()) {
        ("take_varbin", Layout::VarBin(array)) => {
            Ok(take_varbin(alloc, array, indices).map(|taken| taken.into_array()))
        }
        ("take_list", Layout::List(array)) => {
            Ok(take_list(alloc, array, indices).map(|taken| taken.into_array()))
        }
        ("take_union", Layout::Union(array)) => {
            Ok(take_union(alloc, array, indices).map(|taken| taken.into_array()))
        }
        _ => Err("no such take".into()),
    }
}

/// A take by the function that a row names.
pub(crate) fn taken_by(
    alloc: Global,
    column: &Array,
    indices: &Indices,
    call: &str,
) -> Result<Taken, Fail> {
    let taken = match call {
        "take" => taken_rows(alloc, column, indices),
        _ => taken_alone(alloc, column, indices, call)?,
    };
    match taken {
        Ok(rows) => Ok(Ok(Some(rows))),
        Err(error) => Ok(Err(error)),
    }
}

/// A column as a child of a dictionary.
#[derive(Clone, Copy)]
struct Child<'a> {
    column: &'a Array,
    parent: &'a Array,
    at: usize,
}

fn reduced_by<V: TakeReduce>(
    alloc: Global,
    adaptor: &TakeReduceAdaptor<V>,
    child: Child<'_>,
) -> Result<Taken, Fail> {
    let (view, parent) = (view_of::<V>(child.column)?, view_of::<Dict>(child.parent)?);
    Ok(adaptor.reduce_parent(alloc, view, parent, child.at))
}

fn executed_by<V: TakeExecute>(
    alloc: Global,
    adaptor: &TakeExecuteAdaptor<V>,
    child: Child<'_>,
) -> Result<Taken, Fail> {
    let (view, parent) = (view_of::<V>(child.column)?, view_of::<Dict>(child.parent)?);
    Ok(adaptor.execute_parent(alloc, view, parent, child.at))
}

fn adapted_to(alloc: Global, child: Child<'_>, call: (&str, &str)) -> Result<Taken, Fail> {
    match call {
        ("reduce_parent", "Struct") => reduced_by(alloc, &TakeReduceAdaptor(Struct), child),
        ("execute_parent", "Primitive") => {
            executed_by(alloc, &TakeExecuteAdaptor(Primitive), child)
        }
        _ => Err("no adaptor of this layout".into()),
    }
}

/// A take as the dictionary `parent` asks for it of its child at the place `at`.
pub(crate) fn adapted(
    alloc: Global,
    row: &Value,
    column: &Array,
    call: (&str, &str),
) -> Result<Taken, Fail> {
    let (parent, at) = (column_at(alloc, row, "parent")?, number_at(row, "at")?);
    let parent = &parent;
    adapted_to(alloc, Child { column, parent, at }, call)
}
