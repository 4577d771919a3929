//! Columns, one behind another.
ghost use Rattle.std.specs.Prelude.{◌≡◌, ◌++◌, ◌^◌, ◌<◌, IfOk, IsOk, OnOk, false, length, map, true};
ghost use Rattle.std.specs.List.{All, sum};
ghost use Rattle.vx_types.specs.DType.{type_of};
ghost use Rattle.vx_types.specs.TypeTree.{is_carried, is_flat};
ghost use Rattle.vx_interleave.specs.Places.{joined, places_of};
ghost use Rattle.vx_interleave.specs.Sources.{AreAllPlaces, AreNulls, IsSourceOf, rows_of};
ghost use Rattle.vx_model.specs.Plain.{is_lazy_layout, is_unwrapped};

use crate::interleaving::interleave;
use crate::nulls::{are_nulls, total_rows};
use crate::place::Place;
use std::alloc::Global;
use vx_bits::NoMemory;
use vx_column::{Array, Columns, DType, NullArray};

// Appends the place of each of the rows of a column.
fn push_places(order: &mut Vec<Option<Place>>, column: usize, rows: usize) -> Result<(), NoMemory>
    ensures { OnOk result (order.new.items ≡ order.old.items ++ places_of column rows) }
{
    for row in 0..rows {
        order.push(Some(Place { column, row }))?;
    }
    Ok(())
}

// The place of each row of the columns.
fn all_places(alloc: Global, columns: &Columns) -> Result<Vec<Option<Place>>, NoMemory>
    ensures { IfOk result
        (λ order. AreAllPlaces (rows_of columns.now) (rows_of columns.now) order.items) }
{
    let mut order = Vec::new(alloc);
    for column in 0..columns.len() {
        push_places(&mut order, column, columns.get(column).len())?;
    }
    Ok(order)
}

/// The rows of the columns, one column behind another, as a column of this type. The columns are
/// of any layouts. Fails only with `NoMemory`.
///
/// The columns are of this type, or of the same without nulls.
pub fn concatenate(alloc: Global, dtype: &DType, columns: &Columns) -> Result<Array, NoMemory>
    requires carried { is_carried (type_of dtype.now) ≡ true }
    requires sources { All (IsSourceOf (type_of dtype.now)) columns.now }
    ensures dtype { IfOk result (λ a. a.dtype ≡ type_of dtype.now) }
    ensures rows { IfOk result (λ a. a.rows ≡ joined (rows_of columns.now)) }
    ensures direct { IfOk result (λ a. is_lazy_layout a.layout ≡ false) }
    ensures unwrapped { is_flat (type_of dtype.now) ≡ true
        → IfOk result (λ a. is_unwrapped a ≡ true) }
    ensures null { AreNulls (type_of dtype.now) columns.now
        → sum (map length (rows_of columns.now)) < 2 ^ 64 → IsOk result }
{
    if are_nulls(dtype, columns) {
        return match total_rows(columns) {
            Some(len) => Ok(NullArray::new(len).into_array()),
            None => Err(NoMemory),
        };
    }
    let order = all_places(alloc, columns)?;
    interleave(alloc, dtype, columns, &order)
}
