//! Reading one row whole.
ghost use Rattle.std.specs.Prelude.{◌≡◌, ◌<◌, ◌≤◌, length, map, true, IfOk, slice_index_or, slice_range};
ghost use Rattle.vx_types.specs.Row.{row_value, rows_in};
ghost use Rattle.vx_types.specs.RowValue.{null};
ghost use Rattle.vx_model.specs.Columns.{are_long_past};

use std::alloc::Global;
use vx_bits::NoMemory;
use vx_column::{Array, ByteList, Cell, Columns, Row, RowList};

// The rows from `start` up to `end`.
#[cycle(rows)]
#[tactic(auto, using(crate::proofs::RowLists::more_rows))]
fn rows_from(alloc: Global, column: &Array, start: usize, end: usize) -> Result<RowList, NoMemory>
    requires ordered { start ≤ end }
    requires within { end ≤ length column.now.rows }
    ensures { IfOk result (λ r. rows_in r ≡ slice_range column.now.rows start end) }
{
    let mut rows = Vec::with_capacity(alloc, end - start)?;
    for i in start..end {
        rows.push(row_at(alloc, column, i)?)?;
    }
    Ok(RowList::from_vec(rows))
}

// Row `i` of each column.
#[cycle(rows)]
#[tactic(auto, using(crate::proofs::RowLists::row_of_each))]
fn fields_at(alloc: Global, columns: &Columns, i: usize) -> Result<RowList, NoMemory>
    requires { are_long_past i columns.now ≡ true }
    ensures { IfOk result (λ r. rows_in r
        ≡ map (λ c. slice_index_or c.rows i null) columns.now) }
{
    let mut rows = Vec::with_capacity(alloc, columns.len())?;
    for column in columns.as_slice() {
        rows.push(row_at(alloc, column, i)?)?;
    }
    Ok(RowList::from_vec(rows))
}

/// Row `i`, with all that is in it. Fails only with `NoMemory`.
#[cycle(rows)]
pub fn row_at(alloc: Global, column: &Array, i: usize) -> Result<Row, NoMemory>
    requires { i < length column.now.rows }
    ensures { IfOk result (λ r. row_value r ≡ slice_index_or column.now.rows i null) }
{
    match column.cell_at(i) {
        Cell::Null => Ok(Row::Null),
        Cell::Bit(bit) => Ok(Row::Bit(bit)),
        Cell::Bytes(bytes) => Ok(Row::Bytes(ByteList::from_vec(Vec::from_slice(alloc, bytes)?))),
        Cell::List(list) => Ok(Row::List(rows_from(alloc, list.elements, list.start, list.end)?)),
        Cell::Fields(fields) => { Ok(Row::Fields(fields_at(alloc, fields.columns, fields.row)?)) }
        Cell::Tagged(tagged) => {
            let row = row_at(alloc, tagged.column, tagged.row)?;
            Ok(Row::Tagged(tagged.id, Box::new(alloc, row)?))
        }
    }
}
