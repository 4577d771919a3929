//! Keys of several columns, or of wide ones, with a number in front that decides most comparisons.
ghost use Rattle.std.specs.Prelude.{◌≡◌, ◌+◌, ◌*◌, IfOk, length, map};
ghost use Rattle.vx_table.specs.Table.{AreLong};
ghost use Rattle.vx_join.specs.Cells.{key_cells, key_parts, pieces, with_prefix, row_prefix, rows_of, AreFlat};
ghost use Rattle.vx_join.specs.Keys.{rows_from, rows_match};
ghost use Rattle.vx_join.specs.Pairs.{lefts, pairs, rights};

use crate::cells::{KeyCell, cells_of, has_null};
use crate::matching::{Found, join_keys};
use crate::numbers::spelt;
use std::alloc::Global;
use vx_bits::NoMemory;
use vx_column::Array;

/// The key of a row: a number that equal rows share, of its first cell, and the row's cells.
#[derive(Clone, Copy, PartialEq, Eq, PartialOrd, Ord)]
pub(crate) struct RowKey<'a, 'b> {
    pub prefix: u64,
    pub cells: &'b [KeyCell<'a>],
}

// A number that equal rows share.
fn row_prefix(row: &[KeyCell]) -> u64
    ensures { result ≡ row_prefix row.now }
{
    if row.is_empty() {
        return 0;
    }
    match row[0] {
        KeyCell::Bytes(bytes) => spelt(bytes),
        _ => 0,
    }
}

// The key of a row: none where one of its cells is null.
fn row_key<'a, 'b>(row: &'b [KeyCell<'a>]) -> Option<RowKey<'a, 'b>>
    ensures { key_parts result ≡ with_prefix (key_cells row.now) }
{
    if has_null(row) {
        None
    } else {
        let prefix = row_prefix(row);
        Some(RowKey { prefix, cells: row })
    }
}

// The keys of so many rows, whose cells stand one row after another.
fn row_keys<'a, 'b>(
    alloc: Global,
    cells: &'b [KeyCell<'a>],
    width: usize,
    count: usize,
) -> Result<Vec<Option<RowKey<'a, 'b>>>, NoMemory>
    requires { length cells.now ≡ count * width }
    ensures { IfOk result (λ keys. map key_parts keys.items
        ≡ map (λ row. with_prefix (key_cells row)) (pieces width count cells.now)) }
{
    let mut keys = Vec::with_capacity(alloc, count)?;
    let mut start = 0;
    for _ in 0..count {
        let end = start + width;
        keys.push(row_key(&cells[start..end]))?;
        start = end;
    }
    Ok(keys)
}

/// The pairs of rows that are equal in each column and not null in any, by the left and then by
/// the right row. Keys are compared column by column, and no byte of them is copied.
pub(crate) fn join_cells(
    alloc: Global,
    left: &[Array],
    left_len: usize,
    right: &[Array],
    right_len: usize,
) -> Result<Found, NoMemory>
    requires left { AreLong left_len left.now }
    requires right { AreLong right_len right.now }
    requires flat { AreFlat left.now }
    requires flat_right { AreFlat right.now }
    ensures left { IfOk result (λ found. found.left.items ≡ lefts (pairs rows_match
        (rows_from (rows_of left.now) 0 left_len) (rows_from (rows_of right.now) 0 right_len))) }
    ensures right { IfOk result (λ found. found.right.items ≡ rights (pairs rows_match
        (rows_from (rows_of left.now) 0 left_len) (rows_from (rows_of right.now) 0 right_len))) }
{
    let left_cells = cells_of(alloc, left, left_len)?;
    let right_cells = cells_of(alloc, right, right_len)?;
    let left_keys = row_keys(alloc, &left_cells, left.len(), left_len)?;
    let right_keys = row_keys(alloc, &right_cells, right.len(), right_len)?;
    join_keys(alloc, &left_keys, &right_keys)
}
