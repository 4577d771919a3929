//! Rows of columns, as cells of one type.
ghost use Rattle.std.specs.Prelude.{◌≡◌, ◌<◌, length, slice_index_or};
ghost use Rattle.vx_types.specs.DType.{type_of};
ghost use Rattle.vx_types.specs.RowValue.{null};
ghost use Rattle.vx_column.specs.Cell.{row_of};
ghost use Rattle.vx_interleave.specs.Rows.{IsCellOf, is_there, shown_as};
ghost use Rattle.vx_interleave.specs.Sources.{IsSourceOf};

use vx_column::{Array, Cell, DType};

/// A row of a column of the type, or of a column of the same type without nulls.
pub(crate) fn cell_in<'a>(dtype: &DType, column: &'a Array, row: usize) -> Cell<'a>
    requires source { IsSourceOf (type_of dtype.now) column.now }
    requires within { row < length column.now.rows }
    ensures of_kind { IsCellOf (type_of dtype.now).kind result }
    ensures row { shown_as (type_of dtype.now) (row_of result)
        ≡ slice_index_or column.now.rows row null }
{
    // only the contract speaks of it
    let _ = dtype;
    column.cell_at(row)
}

/// Whether a row is there.
pub(crate) fn is_there(cell: Cell<'_>) -> bool
    ensures { result ≡ is_there (row_of cell.entry) }
{
    !matches!(cell, Cell::Null)
}
