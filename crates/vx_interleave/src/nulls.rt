//! Columns of nulls alone, whose rows need no memory.
ghost use Rattle.std.specs.Prelude.{◌≡◌, ◌^◌, ◌<◌, SomeIff, length, map, replicate, true};
ghost use Rattle.std.specs.Bool.{Decides};
ghost use Rattle.std.specs.List.{All, sum};
ghost use Rattle.vx_types.specs.DType.{type_of};
ghost use Rattle.vx_types.specs.RowValue.{null};
ghost use Rattle.vx_model.specs.Column.{Column};
ghost use Rattle.vx_model.specs.Plain.{is_null_layout};
ghost use Rattle.vx_interleave.specs.Sources.{AreNulls, rows_of};

use vx_column::{Array, Columns, DType, Layout};

// Whether a column is of layout `Null`.
#[tactic(auto, using(crate::proofs::NullRows::own_nulls))]
fn is_null(column: &Array) -> bool
    ensures layout { result ≡ is_null_layout column.now.layout }
    ensures rows { result ≡ true
        → column.now.rows ≡ replicate (length column.now.rows) null }
{
    matches!(column.layout(), Layout::Null(_))
}

/// Whether the type is null and each column is of layout `Null`. Then neither
/// [`interleave`](crate::interleave) nor [`concatenate`](crate::concatenate) allocates.
pub fn are_nulls(dtype: &DType, columns: &Columns) -> bool
    ensures exactly { Decides result (AreNulls (type_of dtype.now) columns.now) }
    ensures rows { result ≡ true
        → All (λ (c : Column). c.rows ≡ replicate (length c.rows) null) columns.now }
{
    if !dtype.same(&DType::Null) {
        return false;
    }
    for column in columns.as_slice() {
        if !is_null(column) {
            return false;
        }
    }
    true
}

/// How many rows columns have. None where a `usize` doesn't count them.
pub(crate) fn total_rows(columns: &Columns) -> Option<usize>
    ensures { SomeIff result (sum (map length (rows_of columns.now)) < 2 ^ 64)
        (sum (map length (rows_of columns.now))) }
{
    let mut total: usize = 0;
    for column in columns.as_slice() {
        match total.checked_add(column.len()) {
            Some(more) => total = more,
            None => return None,
        }
    }
    Some(total)
}
