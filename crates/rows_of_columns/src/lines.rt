//! What a call gives, as the lines that tell it.

use crate::parts::{push_parts, push_texts};
use crate::slices::cut;
use std::alloc::Global;
use std::test::Fail;
use vx_column::{Array, ColumnError};
use vx_layouts::TakeError;
use vx_plain::ReadLayout;
use vx_print::text_of;

/// What a step gives: nothing where it is left to the caller.
pub(crate) type Answer = Option<Array>;

/// The rows that a step gives.
pub(crate) type Rows = Result<Array, Fail>;

/// What a take gives, which may be refused.
pub(crate) type Taken = Result<Answer, TakeError>;

/// Appends the lines of a column: of its type, and of each row.
pub(crate) fn push_column(lines: &mut String, alloc: Global, column: &Array) -> Result<(), Fail> {
    let text = text_of(alloc, column)?;
    for line in std::str::from_utf8(text.as_slice())?.lines() {
        writeln!(lines, "= {line}")?;
    }
    Ok(())
}

/// Appends how many rows a column has, and the last one.
fn push_last(lines: &mut String, alloc: Global, column: &Array) -> Result<(), Fail> {
    let len = column.len();
    writeln!(lines, "= {len} rows, the last:")?;
    push_column(
        lines,
        alloc,
        &cut(alloc, column, (len.saturating_sub(1), len))?,
    )
}

/// Appends what is to be shown of a column.
fn push_shown(lines: &mut String, alloc: Global, column: &Array, show: &str) -> Result<(), Fail> {
    match show {
        "len" => Ok(writeln!(lines, "= {} rows", column.len())?),
        "layout" => {
            let (layout, len) = (column.layout_name(), column.len());
            Ok(writeln!(lines, "= {len} rows of {layout:?}")?)
        }
        "last" => push_last(lines, alloc, column),
        "bytes" => push_texts(lines, alloc, column),
        "parts" => push_parts(lines, alloc, column),
        _ => push_column(lines, alloc, column),
    }
}

/// Appends the lines of what a step gave.
pub(crate) fn push_taken(
    lines: &mut String,
    alloc: Global,
    taken: &Taken,
    show: &str,
) -> Result<(), Fail> {
    match taken {
        Ok(Some(column)) => push_shown(lines, alloc, column, show),
        Ok(None) => Ok(writeln!(lines, "= None")?),
        Err(error) => Ok(writeln!(lines, "= {error:?}")?),
    }
}

/// Appends the line of a constructor: that it made what it is named for, or why it didn't.
pub(crate) fn push_fault(lines: &mut String, fault: Option<ColumnError>) -> Result<(), Fail> {
    match fault {
        None => Ok(writeln!(lines, "= Ok")?),
        Some(error) => Ok(writeln!(lines, "= {error:?}")?),
    }
}
