//! A column with its parts.

use crate::lines::push_column;
use std::alloc::Global;
use std::test::Fail;
use vx_column::{
    Array, Columns, ExtensionArray, Layout, ListArray, PrimitiveArray, StructArray, UnionArray,
};
use vx_plain::ReadLayout;

/// Appends the name of a part and its lines.
fn push_part(lines: &mut String, alloc: Global, name: &str, column: &Array) -> Result<(), Fail> {
    writeln!(lines, "=: {name}")?;
    push_column(lines, alloc, column)
}

/// Appends each column.
fn push_each(lines: &mut String, alloc: Global, columns: &Columns) -> Result<(), Fail> {
    for column in columns.as_slice() {
        push_part(lines, alloc, "column", column)?;
    }
    Ok(())
}

/// Appends the type of the offsets, and where the lists begin and end among their elements.
fn push_spans(lines: &mut String, array: &ListArray) -> Result<(), Fail> {
    writeln!(lines, "=: offsets of {:?}", array.offsets().ptype())?;
    for i in 0..array.len() {
        let (start, end) = array.span_at(i);
        writeln!(lines, "=: {start}..{end}")?;
    }
    Ok(())
}

/// Appends the names, whether the type has nulls, and each field.
fn push_struct(lines: &mut String, alloc: Global, array: &StructArray) -> Result<(), Fail> {
    writeln!(lines, "=: {} structs", array.len())?;
    for name in array.struct_fields().names() {
        writeln!(lines, "=: name {:?}", name.as_str())?;
    }
    writeln!(lines, "=: {:?}", array.validity().nullability())?;
    push_each(lines, alloc, array.fields())
}

fn push_extension(lines: &mut String, alloc: Global, array: &ExtensionArray) -> Result<(), Fail> {
    writeln!(lines, "=: name {:?}", array.ext().name().as_str())?;
    push_part(lines, alloc, "storage", array.storage())
}

fn push_offsets(lines: &mut String, alloc: Global, offsets: &PrimitiveArray) -> Result<(), Fail> {
    push_part(lines, alloc, "offsets", &offsets.share().into_array())
}

/// Appends the ids, the offsets, where there are some, and each column.
fn push_union(lines: &mut String, alloc: Global, array: &UnionArray) -> Result<(), Fail> {
    writeln!(
        lines,
        "=: {} rows, {} columns",
        array.len(),
        array.children().len()
    )?;
    push_part(lines, alloc, "ids", array.type_ids())?;
    if let Some(offsets) = array.offsets() {
        push_offsets(lines, alloc, offsets)?;
    }
    push_each(lines, alloc, array.children())
}

/// Appends how many bytes texts by offsets are stored in, and the lines of the column.
pub(crate) fn push_texts(lines: &mut String, alloc: Global, column: &Array) -> Result<(), Fail> {
    if let Layout::VarBin(texts) = column.layout() {
        writeln!(lines, "=: {} bytes", texts.bytes().len())?;
    }
    push_column(lines, alloc, column)
}

/// Appends the lines of a column, and of its parts.
pub(crate) fn push_parts(lines: &mut String, alloc: Global, column: &Array) -> Result<(), Fail> {
    push_column(lines, alloc, column)?;
    if let Some(array) = column.as_list() {
        return push_spans(lines, array);
    }
    match column.layout() {
        Layout::VarBin(array) => {
            Ok(writeln!(lines, "=: offsets of {:?}", array.offsets().ptype())?)
        }
        Layout::Struct(array) => push_struct(lines, alloc, array),
        Layout::Union(array) => push_union(lines, alloc, array),
        Layout::Extension(array) => push_extension(lines, alloc, array),
        Layout::Map(array) => {
            push_part(
                lines,
                alloc,
                "entries",
                &array.entries().share().into_array(),
            )
        }
        _ => Ok(()),
    }
}
