//! The key columns of a table, and the rows of theirs that match.
ghost use Rattle.std.specs.Prelude.{◌≡◌, ◌<◌, [], ◌∷◌, IfOk, IfSome, length};
ghost use Rattle.std.specs.List.{All};
ghost use Rattle.vx_table.specs.Table.{AreLong};
ghost use Rattle.vx_table.specs.Taken.{items_by_number};
ghost use Rattle.vx_join.specs.Cells.{rows_of};
ghost use Rattle.vx_join.specs.Keys.{rows_from, rows_match};
ghost use Rattle.vx_join.specs.Numbers.{AreAlike, types_of};
ghost use Rattle.vx_join.specs.Pairs.{lefts, pairs, rights};

use crate::matching::Found;
use crate::numbers::{join_numbers, small_width};
use crate::prefixes::join_cells;
use std::alloc::Global;
use vx_bits::NoMemory;
use vx_column::{Array, Columns};
use vx_dispatch::execute;
use vx_mask::Policy;

/// The columns of these numbers, unwrapped: a row is then found at once through any layout.
pub(crate) fn key_columns(
    alloc: Global,
    columns: &Columns,
    numbers: &[usize],
) -> Result<Vec<Array>, NoMemory>
    requires { All (λ i. i < length columns.now) numbers.now }
    ensures rows { IfOk result
        (λ keys. rows_of keys.items ≡ rows_of (items_by_number numbers.now columns.now)) }
    ensures types { IfOk result
        (λ keys. types_of keys.items ≡ types_of (items_by_number numbers.now columns.now)) }
{
    let policy = Policy::vortex();
    let mut keys = Vec::with_capacity(alloc, numbers.len())?;
    for i in numbers {
        keys.push(execute(alloc, columns.get(*i), &policy)?)?;
    }
    Ok(keys)
}

// The column, where there is just one.
fn only(columns: &[Array]) -> Option<&Array>
    ensures { IfSome result (λ column. columns.now ≡ column.now ∷ []) }
{
    if columns.len() == 1 {
        columns.first()
    } else {
        None
    }
}

/// The pairs of rows that are equal in each pair of columns and not null in any, by the left and
/// then by the right row.
pub(crate) fn join_columns(
    alloc: Global,
    left: &[Array],
    left_len: usize,
    right: &[Array],
    right_len: usize,
) -> Result<Found, NoMemory>
    requires alike { AreAlike (types_of left.now) (types_of right.now) }
    requires left { AreLong left_len left.now }
    requires right { AreLong right_len right.now }
    ensures left { IfOk result (λ found. found.left.items ≡ lefts (pairs rows_match
        (rows_from (rows_of left.now) 0 left_len) (rows_from (rows_of right.now) 0 right_len))) }
    ensures right { IfOk result (λ found. found.right.items ≡ rights (pairs rows_match
        (rows_from (rows_of left.now) 0 left_len) (rows_from (rows_of right.now) 0 right_len))) }
{
    if let Some(l) = only(left) {
        if let Some(r) = only(right) {
            if let Some(width) = small_width(l) {
                return join_numbers(alloc, l, r, width);
            }
        }
    }
    join_cells(alloc, left, left_len, right, right_len)
}
