//! The cells of key columns, row by row.
ghost use Rattle.std.specs.Prelude.{◌≡◌, ◌<◌, IfOk, map, true};
ghost use Rattle.std.specs.List.{flat_map, list_any};
ghost use Rattle.vx_types.specs.DType.{type_of};
ghost use Rattle.vx_types.specs.RowValue.{null};
ghost use Rattle.vx_types.specs.TypeTree.{is_flat};
ghost use Rattle.vx_column.specs.Cell.{row_of, IsOfType};
ghost use Rattle.vx_table.specs.Table.{AreLong};
ghost use Rattle.vx_join.specs.Cells.{is_null_cell, rows_of, value_of, AreFlat};
ghost use Rattle.vx_join.specs.Keys.{rows_from};

use std::alloc::Global;
use vx_bits::NoMemory;
use vx_column::{Array, Cell, DType};

/// A row of a key column, borrowed from where it is stored. Cells of one type are ordered.
#[derive(Clone, Copy, PartialEq, Eq, PartialOrd, Ord)]
pub(crate) enum KeyCell<'a> {
    /// A null row.
    Null,
    /// A row of a column of bools.
    Bit(bool),
    /// A row's record.
    Bytes(&'a [u8]),
}

// The ordered cell that has the row of a cell of a flat type.
#[tactic(auto, using(crate::proofs::FlatKeys::flat_cells))]
fn key_cell<'a>(dtype: &DType, cell: Cell<'a>) -> KeyCell<'a>
    requires flat { is_flat (type_of dtype.now) ≡ true }
    requires of_type { IsOfType cell (type_of dtype.now) }
    ensures { value_of result ≡ row_of cell.entry }
{
    match cell {
        Cell::Null => KeyCell::Null,
        Cell::Bit(bit) => KeyCell::Bit(bit),
        Cell::Bytes(bytes) => KeyCell::Bytes(bytes),
        Cell::List(_) | Cell::Fields(_) | Cell::Tagged(_) => {
            // no flat type is one of lists, structs or unions
            let _ = dtype;
            unreachable!()
        }
    }
}

impl KeyCell<'_> {
    // Whether it is a null row.
    fn is_null(&self) -> bool
        ensures { result ≡ is_null_cell self.now }
    {
        matches!(self, KeyCell::Null)
    }
}

/// Whether one of the cells is null.
pub(crate) fn has_null(row: &[KeyCell]) -> bool
    ensures { result ≡ list_any is_null_cell row.now }
{
    row.iter().any(|cell| cell.is_null())
}

/// The cells of so many rows, one row after another: each column's row is looked up once.
pub(crate) fn cells_of<'a>(
    alloc: Global,
    columns: &'a [Array],
    count: usize,
) -> Result<Vec<KeyCell<'a>>, NoMemory>
    requires long { AreLong count columns.now }
    requires flat { AreFlat columns.now }
    ensures { IfOk result (λ cells. map value_of cells.items
        ≡ flat_map (λ row. row) (rows_from (rows_of columns.now) 0 count)) }
{
    let mut cells = Vec::new(alloc);
    for i in 0..count {
        for column in columns {
            cells.push(key_cell(column.dtype(), column.cell_at(i)))?;
        }
    }
    Ok(cells)
}
