//! Rows of lists, as their elements one list after another.
ghost use Rattle.std.specs.Prelude.{◌≡◌, ◌≤◌, IfOk, OnOk, Some, length, map, slice_range, false};
ghost use Rattle.vx_types.specs.DType.{type_of};
ghost use Rattle.vx_types.specs.TypeTree.{list_type};
ghost use Rattle.vx_model.specs.List.{list_of};
ghost use Rattle.vx_model.specs.Lists.{elements_type};
ghost use Rattle.vx_column.specs.Cell.{row_of};
ghost use Rattle.vx_interleave.specs.Lists.{AddsRows, CutsLists, JoinsLists, elements_in};
ghost use Rattle.vx_interleave.specs.Rows.{AreCellsOf, IsCellOf, rows_in, shown_as};
ghost use Rattle.vx_interleave.specs.Sources.{IsSourceOf};
ghost use Rattle.vx_model.specs.Plain.{is_lazy_layout};

use crate::cells::cell_in;
use crate::numbers::push_number;
use crate::validity::validity_of;
use std::alloc::Global;
use vx_bits::NoMemory;
use vx_column::{Array, Cell, ColumnError, DType, ListArray, Nullability, PType};
use vx_text::Offsets;

/// The one fault of sound parts.
pub(crate) fn no_memory(fault: ColumnError) -> NoMemory
    requires { fault ≡ ColumnError.NoMemory }
{
    match fault {
        ColumnError::NoMemory => NoMemory,
        _ => unreachable!(),
    }
}

// Appends the rows of a column from `start` up to `end`.
fn push_rows<'a>(
    cells: &mut Vec<Cell<'a>>,
    dtype: &DType,
    column: &'a Array,
    start: usize,
    end: usize,
) -> Result<(), NoMemory>
    requires source { IsSourceOf (type_of dtype.now) column.now }
    requires ordered { start ≤ end }
    requires within { end ≤ length column.now.rows }
    ensures { OnOk result (AddsRows (type_of dtype.now) (slice_range column.now.rows start end)
        cells.old.items cells.new.items) }
{
    for row in start..end {
        cells.push(cell_in(dtype, column, row))?;
    }
    Ok(())
}

/// Appends the elements of a list, which are of type `dtype`; none of a null.
pub(crate) fn push_list<'a>(
    cells: &mut Vec<Cell<'a>>,
    lists: &DType,
    dtype: &DType,
    cell: Cell<'a>,
) -> Result<(), NoMemory>
    requires elements { elements_type (type_of lists.now).kind ≡ Some (type_of dtype.now) }
    requires of_kind { IsCellOf (type_of lists.now).kind cell }
    ensures { OnOk result (AddsRows (type_of dtype.now) (elements_in (row_of cell.entry))
        cells.old.items cells.new.items) }
{
    // only the contract speaks of it
    let _ = lists;
    match cell {
        Cell::List(list) => push_rows(cells, dtype, list.elements, list.start, list.end),
        _ => Ok(()),
    }
}

/// How many elements a list has; none of a null.
pub(crate) fn list_len(lists: &DType, cell: Cell<'_>) -> usize
    requires { IsCellOf (type_of lists.now).kind cell }
    ensures { result ≡ length (elements_in (row_of cell.entry)) }
{
    // only the contract speaks of it
    let _ = lists;
    match cell {
        Cell::List(list) => list.end - list.start,
        _ => 0,
    }
}

// How many elements lists have together. `NoMemory` where that is past `usize::MAX`.
fn total_len(lists: &DType, cells: &[Cell<'_>]) -> Result<usize, NoMemory>
    requires { AreCellsOf (type_of lists.now).kind cells.now }
{
    let mut total = 0usize;
    for cell in cells {
        total = total.checked_add(list_len(lists, *cell)).ok_or(NoMemory)?;
    }
    Ok(total)
}

/// Lists, as their elements one list after another, and where each begins among them.
#[derive(Drop)]
pub(crate) struct JoinedLists<'a> {
    /// Where each list begins.
    pub starts: Offsets,
    /// The elements.
    pub cells: Vec<Cell<'a>>,
}

/// The lists of the rows, whose elements are of type `dtype`; an empty one of each null.
pub(crate) fn joined_lists<'a>(
    alloc: Global,
    lists: &DType,
    dtype: &DType,
    cells: &[Cell<'a>],
) -> Result<JoinedLists<'a>, NoMemory>
    requires elements { elements_type (type_of lists.now).kind ≡ Some (type_of dtype.now) }
    requires of_kind { AreCellsOf (type_of lists.now).kind cells.now }
    ensures { IfOk result (λ j. JoinsLists (type_of dtype.now)
        (map elements_in (rows_in cells.now)) j.starts.numbers j.cells.items) }
{
    let mut starts = Offsets::new(alloc, PType::U64);
    let mut elements = Vec::with_capacity(alloc, total_len(lists, cells)?)?;
    for cell in cells {
        push_number(&mut starts, elements.len())?;
        push_list(&mut elements, lists, dtype, *cell)?;
    }
    Ok(JoinedLists {
        starts,
        cells: elements,
    })
}

/// The rows, whose elements are gathered, as a column of lists.
pub(crate) fn gather_lists(
    alloc: Global,
    nullability: Nullability,
    starts: Offsets,
    elements: Array,
    cells: &[Cell<'_>],
) -> Result<Array, NoMemory>
    requires of_kind { AreCellsOf (list_of elements.dtype) cells.now }
    requires cut { CutsLists (map elements_in (rows_in cells.now)) starts.numbers elements.rows }
    ensures dtype { IfOk result (λ a. a.dtype ≡ list_type elements.dtype nullability) }
    ensures rows { IfOk result (λ a. a.rows
        ≡ map (shown_as (list_type elements.dtype nullability)) (rows_in cells.now)) }
    ensures direct { IfOk result (λ a. is_lazy_layout a.layout ≡ false) }
{
    let validity = validity_of(alloc, nullability, cells)?;
    let mut offsets = starts;
    push_number(&mut offsets, elements.len())?;
    let offsets = offsets.into_primitive()?;
    match ListArray::try_new(alloc, elements.into_ref(alloc)?, offsets, validity) {
        Ok(lists) => Ok(lists.into_array()),
        Err(fault) => Err(no_memory(fault)),
    }
}
