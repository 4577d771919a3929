//! Columns over other columns.
ghost use Rattle.std.specs.Prelude.{◌≡◌, IfOk};
ghost use Rattle.std.specs.List.{items_where_true};
ghost use Rattle.vortex_select.specs.Numbers.{numbers_of};
ghost use Rattle.vortex_select.specs.Mask.{mask_bits};
ghost use Rattle.vortex_select.specs.Positions.{positions_of};
ghost use Rattle.vortex_select.specs.Picks.{at};
ghost use Rattle.vortex_select.specs.RowValue.{null};

use crate::error::BuildError;
use std::alloc::Global;
use vortex_select::{Array, DictArray, FilterArray, Mask};

/// The values that the codes name, one a code, and null where the code is null.
pub(crate) fn dictionary(alloc: Global, codes: Array, values: Array) -> Result<Array, BuildError>
    ensures { IfOk result (λ c. c.rows
        ≡ at null values.rows (positions_of (numbers_of codes))) }
{
    let codes = codes.into_ref(alloc)?;
    let values = values.into_ref(alloc)?;
    Ok(DictArray::try_new(codes, values)?.into_array())
}

/// The rows of a column at the set positions of a mask, which are looked up when they are read.
pub(crate) fn filtered(alloc: Global, child: Array, mask: Mask) -> Result<Array, BuildError>
    ensures { IfOk result (λ c. c.rows ≡ items_where_true (mask_bits mask) child.rows) }
{
    Ok(FilterArray::try_new(child.into_ref(alloc)?, mask)?.into_array())
}
