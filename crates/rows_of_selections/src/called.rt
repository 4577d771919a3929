//! The call that a row names.

use crate::arguments::{made_at, number_at, projection_at, steps_at, table_at};
use crate::chunked::push_chunked;
use crate::files::push_file;
use crate::joins::push_join;
use crate::lines::push_made;
use crate::parted::push_whole;
use crate::parts::push_parts;
use crate::selecting::push_selected;
use rows_common::Ask;
use serde_json::Value;
use std::alloc::Global;
use std::test::Fail;
use vx_json::text_member;
use vx_mask::Policy;
use vx_table::{PageError, Table, page};

/// The page that a row asks for, or why there is none.
fn page_of(alloc: Global, row: &Value, table: &Table) -> Result<Result<Table, PageError>, Fail> {
    let (projection, steps) = (projection_at(alloc, row)?, steps_at(alloc, row)?);
    let (number, rows) = (number_at(row, "page")?, number_at(row, "page_len")?);
    Ok(page(
        alloc,
        table,
        &projection,
        steps.as_slice(),
        number,
        rows,
        &Policy::vortex(),
    ))
}

/// Appends a page of a table.
fn push_page(lines: &mut String, alloc: Global, row: &Value) -> Result<(), Fail> {
    let table = table_at(alloc, row, "table")?;
    push_made(lines, alloc, &page_of(alloc, row, &table)?)
}

/// Appends the lines of a call.
fn push_call(lines: &mut String, alloc: Global, row: &Value, call: &str) -> Result<(), Fail> {
    match call {
        "try_new" => push_made(lines, alloc, &made_at(alloc, row, "table")?),
        "page" => push_page(lines, alloc, row),
        "put_together" => push_parts(lines, alloc, row),
        "select_parts" | "cut_runs" | "arrange" => push_whole(lines, alloc, row, call),
        "select" | "select_fused" => push_selected(lines, alloc, row, call),
        "ChunkShape" | "select_chunked" => push_chunked(lines, alloc, row, call),
        "open_file" | "select_file" | "read_block" | "block_len" | "reads" => {
            push_file(lines, alloc, row, call)
        }
        _ => push_join(lines, alloc, row, call),
    }
}

/// Rows that ask for calls.
pub(crate) struct Calls;

impl Ask for Calls {
    fn given_by(alloc: Global, line: &str) -> Result<String, Fail> {
        let row = Value::from_slice(alloc, line.as_bytes())?;
        let mut lines = String::new(alloc);
        push_call(&mut lines, alloc, &row, text_member(&row, "call")?)?;
        Ok(lines)
    }
}
