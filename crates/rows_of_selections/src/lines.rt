//! What a call gives, as the lines that tell it.

use std::alloc::Global;
use std::fmt::Debug;
use std::test::Fail;
use vx_column::Array;
use vx_plain::ReadLayout;
use vx_print::text_of;
use vx_select::SelectError;
use vx_table::Table;
use vx_take::Picks;

/// Appends the line of a value.
pub(crate) fn push_shown<T: Debug>(lines: &mut String, value: &T) -> Result<(), Fail> {
    writeln!(lines, "= {value:?}")?;
    Ok(())
}

/// Appends the lines of a column: of its type, and of each row.
pub(crate) fn push_column(lines: &mut String, alloc: Global, column: &Array) -> Result<(), Fail> {
    let text = text_of(alloc, column)?;
    for line in std::str::from_utf8(text.as_slice())?.lines() {
        writeln!(lines, "= {line}")?;
    }
    Ok(())
}

/// Appends the line of a value that is part of what a call gives, behind its name.
pub(crate) fn push_part<T: Debug>(lines: &mut String, name: &str, value: &T) -> Result<(), Fail> {
    writeln!(lines, "=: {name} {value:?}")?;
    Ok(())
}

/// Appends the rows that steps pick, with their layout, or why they pick none; by `show` how many
/// there are.
pub(crate) fn push_answer(
    lines: &mut String,
    alloc: Global,
    answer: Result<Array, SelectError>,
    show: &str,
) -> Result<(), Fail> {
    match answer {
        Ok(rows) if show == "len" => push_shown(lines, &rows.len()),
        Ok(rows) => {
            push_part(lines, "as", &rows.layout_name())?;
            push_column(lines, alloc, &rows)
        }
        Err(error) => push_shown(lines, &error),
    }
}

/// Appends a column's name, and its layout where its type is flat, and the column.
fn push_named(lines: &mut String, alloc: Global, name: &str, column: &Array) -> Result<(), Fail> {
    if column.is_flat() {
        writeln!(lines, "=: {name:?} as {:?}", column.layout_name())?;
    } else {
        writeln!(lines, "=: {name:?}")?;
    }
    push_column(lines, alloc, column)
}

/// Appends how many rows a table has, and each column.
fn push_table(lines: &mut String, alloc: Global, table: &Table) -> Result<(), Fail> {
    writeln!(lines, "= {} rows", table.len())?;
    let columns = table.columns();
    for (i, name) in table.names().iter().enumerate() {
        if i < columns.len() {
            push_named(lines, alloc, name.as_str(), columns.get(i))?;
        }
    }
    Ok(())
}

/// Appends a table, or why there is none.
pub(crate) fn push_made<E: Debug>(
    lines: &mut String,
    alloc: Global,
    made: &Result<Table, E>,
) -> Result<(), Fail> {
    match made {
        Ok(table) => push_table(lines, alloc, table),
        Err(error) => Ok(writeln!(lines, "= {error:?}")?),
    }
}

/// Appends the rows that picks name, a blank before each, and the end of the line.
pub(crate) fn push_picks(lines: &mut String, side: &str, picks: &Picks) -> Result<(), Fail> {
    write!(lines, "= {side}:")?;
    for i in 0..picks.len() {
        match picks.get(i) {
            Some(row) => write!(lines, " {row}")?,
            None => write!(lines, " null")?,
        }
    }
    writeln!(lines, "")?;
    Ok(())
}
