//! Rows of bools, gathered.
ghost use Rattle.std.specs.Prelude.{◌≡◌, IfOk, map, false, true};
ghost use Rattle.vx_types.specs.RowValue.{bit};
ghost use Rattle.vx_types.specs.TypeTree.{bool_kind, bool_type};
ghost use Rattle.vx_column.specs.Cell.{row_of};
ghost use Rattle.vx_interleave.specs.Rows.{AreCellsOf, IsCellOf, rows_in, shown_as, stored_as};
ghost use Rattle.vx_model.specs.Plain.{is_lazy_layout, is_unwrapped};

use crate::validity::validity_of;
use std::alloc::Global;
use vx_bits::{BitBuffer, BitBuilder, NoMemory};
use vx_column::{Array, BoolArray, Cell, Nullability};

// Whether a row is true; a null isn't.
fn is_true(cell: Cell<'_>) -> bool
    requires { IsCellOf bool_kind cell }
    ensures { bit result ≡ stored_as bool_kind (row_of cell.entry) }
{
    match cell {
        Cell::Null => false,
        Cell::Bit(bit) => bit,
        _ => unreachable!(),
    }
}

// Which of the rows are true.
fn true_bits(alloc: Global, cells: &[Cell<'_>]) -> Result<BitBuffer, NoMemory>
    requires { AreCellsOf bool_kind cells.now }
    ensures { IfOk result (λ b. map bit b.bits ≡ map (stored_as bool_kind) (rows_in cells.now)) }
{
    let mut bits = BitBuilder::with_capacity(alloc, cells.len())?;
    for cell in cells {
        bits.append(is_true(*cell))?;
    }
    bits.finish()
}

/// The rows as a column of bools.
pub(crate) fn gather_bools(
    alloc: Global,
    nullability: Nullability,
    cells: &[Cell<'_>],
) -> Result<Array, NoMemory>
    requires { AreCellsOf bool_kind cells.now }
    ensures dtype { IfOk result (λ a. a.dtype ≡ bool_type nullability) }
    ensures rows { IfOk result
        (λ a. a.rows ≡ map (shown_as (bool_type nullability)) (rows_in cells.now)) }
    ensures direct { IfOk result (λ a. is_lazy_layout a.layout ≡ false) }
    ensures unwrapped { IfOk result (λ a. is_unwrapped a ≡ true) }
{
    let validity = validity_of(alloc, nullability, cells)?;
    let bits = true_bits(alloc, cells)?;
    Ok(BoolArray::of(bits, validity).into_array())
}
