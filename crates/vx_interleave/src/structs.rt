//! Rows of structs, gathered field by field.
ghost use Rattle.std.specs.Prelude.{◌≡◌, IfOk, Some, length, map, slice_get, true, false};
ghost use Rattle.vx_types.specs.DType.{type_of};
ghost use Rattle.vx_types.specs.TypeTree.{struct_type};
ghost use Rattle.vx_model.specs.Columns.{are_long, types_in};
ghost use Rattle.vx_model.specs.Struct.{struct_column, struct_of};
ghost use Rattle.vx_model.specs.Valid.{is_fitting};
ghost use Rattle.vx_column.specs.Cell.{row_of};
ghost use Rattle.vx_column.specs.StructParts.{struct_parts};
ghost use Rattle.vx_column.specs.Validity.{valid_of};
ghost use Rattle.vx_interleave.specs.Rows.{AreCellsOf, IsCellOf, rows_in, shown_as};
ghost use Rattle.vx_interleave.specs.Structs.{AreFields, field_in};
ghost use Rattle.vx_model.specs.Plain.{is_lazy_layout};

use crate::cells::cell_in;
use crate::validity::validity_of;
use std::alloc::Global;
use vx_bits::NoMemory;
use vx_column::{Array, Cell, Columns, DType, Nullability, StructArray, StructFields, Validity};
use vx_shared::Shared;

// Field `k` of a row, which is of this type; a null of a null.
fn field_at<'a>(fields: &StructFields, k: usize, dtype: &DType, cell: Cell<'a>) -> Cell<'a>
    requires field { slice_get fields.now.types k ≡ Some (type_of dtype.now) }
    requires of_kind { IsCellOf (struct_of fields.now) cell }
    ensures of_kind { IsCellOf (type_of dtype.now).kind result }
    ensures row { shown_as (type_of dtype.now) (row_of result)
        ≡ field_in (type_of dtype.now) k (row_of cell.entry) }
{
    // only the contract speaks of them
    let _ = fields;
    match cell {
        Cell::Null => Cell::Null,
        Cell::Fields(row) => cell_in(dtype, row.columns.get(k), row.row),
        _ => unreachable!(),
    }
}

/// Field `k` of the rows, which is of this type; a null of each null.
pub(crate) fn field_cells<'a>(
    alloc: Global,
    fields: &StructFields,
    k: usize,
    dtype: &DType,
    cells: &[Cell<'a>],
) -> Result<Vec<Cell<'a>>, NoMemory>
    requires field { slice_get fields.now.types k ≡ Some (type_of dtype.now) }
    requires of_kind { AreCellsOf (struct_of fields.now) cells.now }
    ensures of_kind { IfOk result (λ f. AreCellsOf (type_of dtype.now).kind f.items) }
    ensures rows { IfOk result (λ f. map (shown_as (type_of dtype.now)) (rows_in f.items)
        ≡ map (field_in (type_of dtype.now) k) (rows_in cells.now)) }
{
    let mut field = Vec::with_capacity(alloc, cells.len())?;
    for cell in cells {
        field.push(field_at(fields, k, dtype, *cell))?;
    }
    Ok(field)
}

/// The rows, whose fields are gathered, as a column of structs.
pub(crate) fn gather_structs(
    alloc: Global,
    fields: &Shared<StructFields>,
    nullability: Nullability,
    columns: Columns,
    cells: &[Cell<'_>],
) -> Result<Array, NoMemory>
    requires columns { AreFields 0 fields.now.types (rows_in cells.now) columns }
    requires of_kind { AreCellsOf (struct_of fields.now) cells.now }
    ensures dtype { IfOk result
        (λ a. a.dtype ≡ struct_type fields.now.names fields.now.types nullability) }
    ensures rows { IfOk result (λ a. a.rows ≡ map
        (shown_as (struct_type fields.now.names fields.now.types nullability))
        (rows_in cells.now)) }
    ensures direct { IfOk result (λ a. is_lazy_layout a.layout ≡ false) }
{
    let validity = validity_of(alloc, nullability, cells)?;
    Ok(structs(columns, fields, cells.len(), validity))
}

// The structs of these columns.
fn structs(columns: Columns, fields: &Shared<StructFields>, len: usize, validity: Validity) -> Array
    requires types { types_in columns ≡ fields.now.types }
    requires long { are_long len columns ≡ true }
    requires fitting { is_fitting (valid_of validity) len ≡ true }
    ensures { result ≡ struct_column (struct_parts columns fields.now len validity) }
{
    match StructArray::try_new_with_dtype(columns, fields.share(), len, validity) {
        Ok(structs) => structs.into_array(),
        Err(_) => unreachable!(),
    }
}
