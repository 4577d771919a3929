//! Rows of maps, as their entries one map after another.
ghost use Rattle.std.specs.Prelude.{◌≡◌, IfOk, length, map, true, false};
ghost use Rattle.vx_types.specs.DType.{type_of};
ghost use Rattle.vx_model.specs.ListView.{listview_spans};
ghost use Rattle.vx_model.specs.Lists.{lists_of};
ghost use Rattle.vx_model.specs.Map.{map_of};
ghost use Rattle.vx_types.specs.TypeTree.{is_entry_type};
ghost use Rattle.vx_interleave.specs.Lists.{CutsLists, elements_in};
ghost use Rattle.vx_interleave.specs.Rows.{AreCellsOf, IsValidityOf, rows_in, shown_as};
ghost use Rattle.vx_model.specs.Plain.{is_lazy_layout};

use crate::lists::{list_len, no_memory};
use crate::numbers::push_number;
use crate::validity::validity_of;
use std::alloc::Global;
use vx_bits::NoMemory;
use vx_column::{Array, Cell, DType, ListViewArray, MapArray, PType};
use vx_text::Offsets;

// How many entries each map has; none of a null.
fn map_sizes(alloc: Global, maps: &DType, cells: &[Cell<'_>]) -> Result<Offsets, NoMemory>
    requires { AreCellsOf (type_of maps.now).kind cells.now }
    ensures { IfOk result
        (λ s. s.numbers ≡ map length (map elements_in (rows_in cells.now))) }
{
    let mut sizes = Offsets::new(alloc, PType::U64);
    for cell in cells {
        push_number(&mut sizes, list_len(maps, *cell))?;
    }
    Ok(sizes)
}

// The maps of the rows, whose entries are gathered, as list views.
fn gather_views(
    alloc: Global,
    maps: &DType,
    starts: Offsets,
    entries: Array,
    cells: &[Cell<'_>],
) -> Result<ListViewArray, NoMemory>
    requires of_kind { AreCellsOf (type_of maps.now).kind cells.now }
    requires cut { CutsLists (map elements_in (rows_in cells.now)) starts.numbers entries.rows }
    ensures entries { IfOk result (λ v. v.elements ≡ entries) }
    ensures lists { IfOk result
        (λ v. lists_of (listview_spans v) ≡ map elements_in (rows_in cells.now)) }
    ensures valid { IfOk result
        (λ v. IsValidityOf (type_of maps.now).nullability (rows_in cells.now) v.valid) }
{
    let validity = validity_of(alloc, maps.nullability(), cells)?;
    let sizes = map_sizes(alloc, maps, cells)?.into_primitive()?;
    let offsets = starts.into_primitive()?;
    match ListViewArray::try_new(alloc, entries.into_ref(alloc)?, offsets, sizes, validity) {
        Ok(views) => Ok(views),
        Err(fault) => Err(no_memory(fault)),
    }
}

/// The rows, whose entries are gathered, as a column of maps.
pub(crate) fn gather_maps(
    alloc: Global,
    maps: &DType,
    starts: Offsets,
    entries: Array,
    cells: &[Cell<'_>],
) -> Result<Array, NoMemory>
    requires kind { map_of entries.dtype.kind ≡ (type_of maps.now).kind }
    requires entry { is_entry_type entries.dtype ≡ true }
    requires of_kind { AreCellsOf (type_of maps.now).kind cells.now }
    requires cut { CutsLists (map elements_in (rows_in cells.now)) starts.numbers entries.rows }
    ensures dtype { IfOk result (λ a. a.dtype ≡ type_of maps.now) }
    ensures rows { IfOk result
        (λ a. a.rows ≡ map (shown_as (type_of maps.now)) (rows_in cells.now)) }
    ensures direct { IfOk result (λ a. is_lazy_layout a.layout ≡ false) }
{
    match MapArray::try_new(gather_views(alloc, maps, starts, entries, cells)?) {
        Ok(column) => Ok(column.into_array()),
        Err(_) => unreachable!(),
    }
}
