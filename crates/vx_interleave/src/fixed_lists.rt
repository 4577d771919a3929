//! Rows of lists of one size, as their elements one list after another.
ghost use Rattle.std.specs.Prelude.{◌≡◌, IfOk, OnOk, Some, length, map, replicate, false};
ghost use Rattle.std.specs.List.{All};
ghost use Rattle.vx_types.specs.DType.{type_of};
ghost use Rattle.vx_types.specs.TypeTree.{fixed_type};
ghost use Rattle.vx_model.specs.Filler.{filler_row};
ghost use Rattle.vx_model.specs.FixedSizeList.{fixed_of};
ghost use Rattle.vx_model.specs.Lists.{elements_type};
ghost use Rattle.vx_column.specs.Cell.{row_of};
ghost use Rattle.vx_interleave.specs.Places.{joined};
ghost use Rattle.vx_interleave.specs.Lists.{AddsRows, JoinsFixed, elements_of};
ghost use Rattle.vx_interleave.specs.Rows.{AreCellsOf, IsCellOf, rows_in, shown_as};
ghost use Rattle.vx_model.specs.Plain.{is_lazy_layout};

use crate::lists::{list_len, no_memory, push_list};
use crate::validity::validity_of;
use std::alloc::Global;
use vx_bits::NoMemory;
use vx_column::{Array, Cell, DType, FixedSizeListArray, Nullability};

// Appends so many nulls.
#[tactic(auto, using(crate::proofs::ListCells::nulls))]
fn push_nulls(cells: &mut Vec<Cell<'_>>, dtype: &DType, count: usize) -> Result<(), NoMemory>
    ensures { OnOk result (AddsRows (type_of dtype.now)
        (replicate count (filler_row (type_of dtype.now))) cells.old.items cells.new.items) }
{
    // only the contract speaks of it
    let _ = dtype;
    for _ in 0..count {
        cells.push(Cell::Null)?;
    }
    Ok(())
}

// Appends the elements of a list of so many, which are of type `dtype`; so many nulls of a null.
fn push_fixed<'a>(
    cells: &mut Vec<Cell<'a>>,
    lists: &DType,
    dtype: &DType,
    size: usize,
    cell: Cell<'a>,
) -> Result<(), NoMemory>
    requires elements { elements_type (type_of lists.now).kind ≡ Some (type_of dtype.now) }
    requires of_kind { IsCellOf (type_of lists.now).kind cell }
    ensures rows { OnOk result (AddsRows (type_of dtype.now)
        (elements_of (type_of dtype.now) size (row_of cell.entry))
        cells.old.items cells.new.items) }
    ensures size { OnOk result
        (length (elements_of (type_of dtype.now) size (row_of cell.entry)) ≡ size) }
{
    match cell {
        Cell::List(_) => {
            // it has as many, which no clause of `cell_at` says
            if list_len(lists, cell) != size {
                return Err(NoMemory);
            }
            push_list(cells, lists, dtype, cell)
        }
        _ => push_nulls(cells, dtype, size),
    }
}

/// The elements of the rows, each a list of so many; so many nulls of each null.
pub(crate) fn joined_fixed<'a>(
    alloc: Global,
    lists: &DType,
    dtype: &DType,
    size: u32,
    cells: &[Cell<'a>],
) -> Result<Vec<Cell<'a>>, NoMemory>
    requires elements { elements_type (type_of lists.now).kind ≡ Some (type_of dtype.now) }
    requires of_kind { AreCellsOf (type_of lists.now).kind cells.now }
    ensures { IfOk result (λ j. JoinsFixed (type_of dtype.now) size
        (map (elements_of (type_of dtype.now) size) (rows_in cells.now)) j.items) }
{
    let total = cells.len().checked_mul(size as usize).ok_or(NoMemory)?;
    let mut elements = Vec::with_capacity(alloc, total)?;
    for cell in cells {
        push_fixed(&mut elements, lists, dtype, size as usize, *cell)?;
    }
    Ok(elements)
}

/// The rows, whose elements are gathered, as a column of lists of one size.
pub(crate) fn gather_fixed(
    alloc: Global,
    size: u32,
    nullability: Nullability,
    elements: Array,
    cells: &[Cell<'_>],
) -> Result<Array, NoMemory>
    requires of_kind { AreCellsOf (fixed_of elements.dtype size) cells.now }
    requires rows { elements.rows
        ≡ joined (map (elements_of elements.dtype size) (rows_in cells.now)) }
    requires sizes { All (λ l. length l ≡ size)
        (map (elements_of elements.dtype size) (rows_in cells.now)) }
    ensures dtype { IfOk result (λ a. a.dtype ≡ fixed_type elements.dtype size nullability) }
    ensures rows { IfOk result (λ a. a.rows
        ≡ map (shown_as (fixed_type elements.dtype size nullability)) (rows_in cells.now)) }
    ensures direct { IfOk result (λ a. is_lazy_layout a.layout ≡ false) }
{
    let validity = validity_of(alloc, nullability, cells)?;
    let elements = elements.into_ref(alloc)?;
    match FixedSizeListArray::try_new(alloc, elements, size, validity, cells.len()) {
        Ok(lists) => Ok(lists.into_array()),
        Err(fault) => Err(no_memory(fault)),
    }
}
