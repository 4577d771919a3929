//! Whether places are those of rows.
ghost use Rattle.std.specs.Bool.{Decides};
ghost use Rattle.vx_types.specs.DType.{type_of};
ghost use Rattle.vx_interleave.specs.Sources.{ArePlacesFor, IsPlaceFor, rows_of};

use crate::place::Place;
use vx_column::{Columns, DType};

// Whether a place is one of a row, or none where the type has nulls.
fn is_place(dtype: &DType, columns: &Columns, place: &Option<Place>) -> bool
    ensures { Decides result (IsPlaceFor (type_of dtype.now) (rows_of columns.now) place.now) }
{
    match place {
        Some(place) => {
            if place.column < columns.len() {
                place.row < columns.get(place.column).len()
            } else {
                false
            }
        }
        None => dtype.is_nullable(),
    }
}

/// Whether each place is one of a row of the columns, or none where the type has nulls: what
/// [`interleave`](crate::interleave) requires.
pub fn are_places(dtype: &DType, columns: &Columns, order: &[Option<Place>]) -> bool
    ensures { Decides result
        (ArePlacesFor (type_of dtype.now) (rows_of columns.now) order.now) }
{
    for place in order {
        if !is_place(dtype, columns, place) {
            return false;
        }
    }
    true
}
