//! The rows of several columns in any order.
ghost use Rattle.std.specs.Prelude.{◌≡◌, IfOk, IsOk, false, map, true};
ghost use Rattle.std.specs.List.{All};
ghost use Rattle.vx_types.specs.DType.{type_of};
ghost use Rattle.vx_types.specs.RowValue.{null};
ghost use Rattle.vx_types.specs.TypeTree.{is_carried, is_flat};
ghost use Rattle.vx_interleave.specs.Places.{interleaved, placed};
ghost use Rattle.vx_column.specs.Cell.{row_of};
ghost use Rattle.vx_interleave.specs.Rows.{AreCellsOf, IsCellOf, rows_in, shown_as};
ghost use Rattle.vx_interleave.specs.Sources.{AreNulls, ArePlacesFor, IsPlaceFor, IsSourceOf, rows_of};
ghost use Rattle.vx_model.specs.Plain.{is_lazy_layout, is_unwrapped};

use crate::cells::cell_in;
use crate::gathering::gather;
use crate::nulls::are_nulls;
use crate::place::Place;
use std::alloc::Global;
use vx_bits::NoMemory;
use vx_column::{Array, Cell, Columns, DType, NullArray};

// The row at a place; a null where there is no place.
fn cell_at<'a>(dtype: &DType, columns: &'a Columns, place: &Option<Place>) -> Cell<'a>
    requires sources { All (IsSourceOf (type_of dtype.now)) columns.now }
    requires place { IsPlaceFor (type_of dtype.now) (rows_of columns.now) place.now }
    ensures of_kind { IsCellOf (type_of dtype.now).kind result }
    ensures row { shown_as (type_of dtype.now) (row_of result)
        ≡ placed null (rows_of columns.now) place.now }
{
    match place {
        Some(place) => cell_in(dtype, columns.get(place.column), place.row),
        None => Cell::Null,
    }
}

// The rows at the places.
fn cells_at<'a>(
    alloc: Global,
    dtype: &DType,
    columns: &'a Columns,
    order: &[Option<Place>],
) -> Result<Vec<Cell<'a>>, NoMemory>
    requires sources { All (IsSourceOf (type_of dtype.now)) columns.now }
    requires places { ArePlacesFor (type_of dtype.now) (rows_of columns.now) order.now }
    ensures of_kind { IfOk result (λ cells. AreCellsOf (type_of dtype.now).kind cells.items) }
    ensures rows { IfOk result (λ cells. map (shown_as (type_of dtype.now)) (rows_in cells.items)
        ≡ interleaved null (rows_of columns.now) order.now) }
{
    let mut cells = Vec::with_capacity(alloc, order.len())?;
    for place in order {
        cells.push(cell_at(dtype, columns, place))?;
    }
    Ok(cells)
}

/// The rows at these places of the columns, in order, as a column of this type: null at each place
/// that is none. The columns are of any layouts. Fails only with `NoMemory`.
///
/// The columns are of this type, or of the same without nulls, and where it has none there is a
/// row at each place.
pub fn interleave(
    alloc: Global,
    dtype: &DType,
    columns: &Columns,
    order: &[Option<Place>],
) -> Result<Array, NoMemory>
    requires carried { is_carried (type_of dtype.now) ≡ true }
    requires sources { All (IsSourceOf (type_of dtype.now)) columns.now }
    requires places { ArePlacesFor (type_of dtype.now) (rows_of columns.now) order.now }
    ensures dtype { IfOk result (λ a. a.dtype ≡ type_of dtype.now) }
    ensures rows { IfOk result
        (λ a. a.rows ≡ interleaved null (rows_of columns.now) order.now) }
    ensures direct { IfOk result (λ a. is_lazy_layout a.layout ≡ false) }
    ensures unwrapped { is_flat (type_of dtype.now) ≡ true
        → IfOk result (λ a. is_unwrapped a ≡ true) }
    ensures null { AreNulls (type_of dtype.now) columns.now → IsOk result }
{
    if are_nulls(dtype, columns) {
        return Ok(NullArray::new(order.len()).into_array());
    }
    let cells = cells_at(alloc, dtype, columns, order)?;
    gather(alloc, dtype, &cells)
}
