//! Calls over a whole column, and over several.

use crate::arguments::{column_at, columns_at, indices_at, number_at, range_at};
use crate::lines::push_column;
use crate::slices::cut;
use crate::takes::taken_rows;
use serde_json::Value;
use std::alloc::Global;
use std::test::Fail;
use vx_column::Array;
use vx_layouts::pack_union;
use vx_plain::vtables::{Bool, Constant, Primitive};
use vx_plain::{ReadLayout, VTable};

fn push_view_as<V: VTable>(lines: &mut String, column: &Array) -> Result<(), Fail> {
    let (own, name) = (column.layout_name(), V::NAME);
    match column.as_opt::<V>() {
        Some(view) => writeln!(lines, "= {own:?} as {name:?}: {} rows", view.array().len())?,
        None => writeln!(lines, "= {own:?} as {name:?}: None")?,
    }
    Ok(())
}

/// Appends whether a column is of the layout, and of which it is.
pub(crate) fn push_view(
    lines: &mut String,
    alloc: Global,
    row: &Value,
    layout: &str,
) -> Result<(), Fail> {
    let column = &column_at(alloc, row, "column")?;
    match layout {
        "Bool" => push_view_as::<Bool>(lines, column),
        "Primitive" => push_view_as::<Primitive>(lines, column),
        "Constant" => push_view_as::<Constant>(lines, column),
        _ => Err("no such layout".into()),
    }
}

/// Appends how many columns there are, and the one at the place `at`.
pub(crate) fn push_columns(lines: &mut String, alloc: Global, row: &Value) -> Result<(), Fail> {
    let (columns, at) = (columns_at(alloc, row, "columns")?, number_at(row, "at")?);
    if at >= columns.len() {
        return Err("past the last column".into());
    }
    writeln!(lines, "= {} columns", columns.share().len())?;
    push_column(lines, alloc, columns.get(at))
}

/// Rows of the column's type that stand where none is shown, `len` of them.
pub(crate) fn filler(alloc: Global, row: &Value, column: &Array) -> Result<Array, Fail> {
    Ok(vx_filler::filler(alloc, column.dtype(), number_at(row, "len")?)?)
}

/// The column behind the step that the row states, if it states one.
fn stepped(alloc: Global, row: &Value, column: &Array) -> Result<Array, Fail> {
    if row.get("take").is_some() {
        return Ok(taken_rows(alloc, column, &indices_at(alloc, row)?)?);
    }
    if row.get("slice").is_some() {
        return cut(alloc, column, range_at(row)?);
    }
    Ok(column.share())
}

/// The union behind the step that the row states, packed.
pub(crate) fn packed(alloc: Global, row: &Value, column: &Array) -> Result<Array, Fail> {
    match stepped(alloc, row, column)?.as_union() {
        Some(union) => Ok(pack_union(alloc, union)?.into_array()),
        None => Err("no union".into()),
    }
}
