//! Joins of two tables.

use crate::arguments::{keys_at, number_at, projection_at, table_at};
use crate::lines::{push_made, push_picks};
use serde_json::Value;
use std::alloc::Global;
use std::test::Fail;
use vx_join::{join, join_indices};
use vx_json::{member, names_of};
use vx_mask::Policy;
use vx_table::{Table, page};

/// Appends the rows of the pairs, or why there are none.
fn push_pairs(
    lines: &mut String,
    alloc: Global,
    (left, right): (&Table, &Table),
    keys: &[(usize, usize)],
) -> Result<(), Fail> {
    match join_indices(alloc, left, right, keys) {
        Ok(found) => {
            push_picks(lines, "left", found.left())?;
            push_picks(lines, "right", found.right())
        }
        Err(error) => Ok(writeln!(lines, "= {error:?}")?),
    }
}

/// Appends the joined table, or why there is none.
fn push_joined(
    lines: &mut String,
    alloc: Global,
    (left, right): (&Table, &Table),
    keys: &[(usize, usize)],
) -> Result<(), Fail> {
    push_made(
        lines,
        alloc,
        &join(alloc, left, right, keys, &Policy::vortex()),
    )
}

/// Appends a page of the joined table.
fn push_joined_page(
    lines: &mut String,
    alloc: Global,
    row: &Value,
    (left, right): (&Table, &Table),
    keys: &[(usize, usize)],
) -> Result<(), Fail> {
    let joined = join(alloc, left, right, keys, &Policy::vortex())?;
    let (projection, number) = (projection_at(alloc, row)?, number_at(row, "page")?);
    let rows = number_at(row, "page_len")?;
    let cut = page(
        alloc,
        &joined,
        &projection,
        &[],
        number,
        rows,
        &Policy::vortex(),
    );
    push_made(lines, alloc, &cut)
}

/// Appends what a call gives of two tables.
fn push_tables(
    lines: &mut String,
    alloc: Global,
    row: &Value,
    tables: (&Table, &Table),
    call: &str,
) -> Result<(), Fail> {
    let keys = keys_at(alloc, row)?;
    match call {
        "join_indices" => push_pairs(lines, alloc, tables, &keys),
        "join" if row.get("page").is_some() => {
            push_joined_page(lines, alloc, row, tables, &keys)
        }
        "join" => push_joined(lines, alloc, tables, &keys),
        _ => Err("no such call".into()),
    }
}

/// A table of the same columns, which are shared.
fn shared(alloc: Global, row: &Value, table: &Table) -> Result<Table, Fail> {
    let names = names_of(alloc, member(member(row, "left")?, "names")?)?;
    Ok(Table::try_new(names, table.columns().share(), table.len())?)
}

/// Appends what a call gives of the tables `left` and `right`: without `right` of the left one
/// twice, and where that is a text, of one that shares the left one's columns.
pub(crate) fn push_join(
    lines: &mut String,
    alloc: Global,
    row: &Value,
    call: &str,
) -> Result<(), Fail> {
    let left = table_at(alloc, row, "left")?;
    match row.get("right") {
        None => push_tables(lines, alloc, row, (&left, &left), call),
        Some(right) if right.is_string() => {
            let right = shared(alloc, row, &left)?;
            push_tables(lines, alloc, row, (&left, &right), call)
        }
        Some(_) => {
            let right = table_at(alloc, row, "right")?;
            push_tables(lines, alloc, row, (&left, &right), call)
        }
    }
}
