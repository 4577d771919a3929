//! Rows of null, flat and text types, gathered.
ghost use Rattle.std.specs.Prelude.{◌≡◌, IfOk, map, replicate, true, false};
ghost use Rattle.vx_types.specs.DType.{type_of};
ghost use Rattle.vx_types.specs.RowValue.{null};
ghost use Rattle.vx_types.specs.Scalar.{has_scalars};
ghost use Rattle.vx_types.specs.TypeTree.{null_kind, is_flat};
ghost use Rattle.vx_interleave.specs.Rows.{AreCellsOf, rows_in, shown_as};
ghost use Rattle.vx_model.specs.Plain.{is_lazy_layout, is_unwrapped};

use crate::bools::gather_bools;
use crate::records::gather_records;
use crate::texts::gather_texts;
use std::alloc::Global;
use vx_bits::NoMemory;
use vx_column::{Array, Cell, DType, NullArray, RecordType, TextKind};

// How many rows there are, each of which is null.
fn null_rows(cells: &[Cell<'_>]) -> usize
    requires { AreCellsOf null_kind cells.now }
    ensures { replicate result null ≡ rows_in cells.now }
{
    let mut len = 0;
    for cell in cells {
        match *cell {
            Cell::Null => len += 1,
            _ => unreachable!(),
        }
    }
    len
}

/// The rows as a column of the type, which is flat or text, with fillers in place of nulls where it
/// has none.
pub(crate) fn gather_scalars(
    alloc: Global,
    dtype: &DType,
    cells: &[Cell<'_>],
) -> Result<Array, NoMemory>
    requires scalars { has_scalars (type_of dtype.now).kind ≡ true }
    requires of_kind { AreCellsOf (type_of dtype.now).kind cells.now }
    ensures dtype { IfOk result (λ a. a.dtype ≡ type_of dtype.now) }
    ensures rows { IfOk result
        (λ a. a.rows ≡ map (shown_as (type_of dtype.now)) (rows_in cells.now)) }
    ensures direct { IfOk result (λ a. is_lazy_layout a.layout ≡ false) }
    ensures unwrapped { is_flat (type_of dtype.now) ≡ true
        → IfOk result (λ a. is_unwrapped a ≡ true) }
{
    match dtype {
        DType::Null => Ok(NullArray::new(null_rows(cells)).into_array()),
        DType::Bool(n) => gather_bools(alloc, *n, cells),
        DType::Primitive(ptype, n) => {
            gather_records(alloc, RecordType::Primitive(*ptype), *n, cells)
        }
        DType::Decimal(decimal, n) => {
            gather_records(alloc, RecordType::Decimal(*decimal), *n, cells)
        }
        DType::Utf8(n) => gather_texts(alloc, TextKind::Utf8, *n, cells),
        DType::Binary(n) => gather_texts(alloc, TextKind::Binary, *n, cells),
        _ => unreachable!(),
    }
}
