//! The rows of a table that a list of indices names.
ghost use Rattle.std.specs.Prelude.{◌≡◌, IfOk, None, length, true};
ghost use Rattle.vx_types.specs.RowValue.{null};
ghost use Rattle.vx_types.specs.TypeTree.{also_nullable, is_flat};
ghost use Rattle.vx_model.specs.Plain.{is_unwrapped};
ghost use Rattle.vx_take.specs.Picks.{at};
ghost use Rattle.vx_pieces.specs.Indices.{index_fault, index_nullability, index_picks, index_value};
ghost use Rattle.vx_table.specs.Table.{AreLong};
ghost use Rattle.vx_table.specs.Taken.{AreTaken, IsTaken};

use crate::beside::append_names;
use crate::table::Table;
use std::alloc::Global;
use vx_bits::NoMemory;
use vx_column::{Array, ArrayRef, Columns};
use vx_mask::Policy;
use vx_pieces::Indices;
use vx_select::{SelectError, Step, select};

// The rows of a column that the indices name, by one take.
fn taken_column(
    alloc: Global,
    column: &Array,
    indices: &Indices,
    policy: &Policy,
) -> Result<ArrayRef, NoMemory>
    requires { index_fault (index_value indices.now) (length column.now.rows) ≡ None }
    ensures rows { IfOk result
        (λ a. a.rows ≡ at null column.now.rows (index_picks (index_value indices.now))) }
    ensures dtype { IfOk result (λ a. a.dtype
        ≡ also_nullable column.now.dtype (index_nullability (index_value indices.now))) }
    ensures unwrapped { IfOk result (λ a. is_flat a.dtype ≡ true → is_unwrapped a ≡ true) }
{
    let steps = [Step::Take(indices.share())];
    match select(alloc, column, &steps, policy) {
        Ok(rows) => rows.into_ref(alloc),
        Err(SelectError::NoMemory) => Err(NoMemory),
        Err(SelectError::Broken { .. }) => unreachable!(),
    }
}

// The rows that the indices name of each of these columns, all of them `len` rows long.
fn taken_columns(
    alloc: Global,
    columns: &Columns,
    len: usize,
    indices: &Indices,
    policy: &Policy,
) -> Result<Columns, NoMemory>
    requires long { AreLong len columns.now }
    requires sound { index_fault (index_value indices.now) len ≡ None }
    ensures { IfOk result (AreTaken columns.now
        (λ t. also_nullable t (index_nullability (index_value indices.now)))
        (index_picks (index_value indices.now))) }
{
    let mut taken = Vec::with_capacity(alloc, columns.len())?;
    for i in 0..columns.len() {
        taken.push(taken_column(alloc, columns.get(i), indices, policy)?)?;
    }
    Columns::new(alloc, taken)
}

impl Table {
    /// The rows that the indices name, in order, and a null for each null: one list of indices
    /// serves all columns. A column's type is nullable also where the indices' is, and a flat
    /// column is unwrapped. Fails only with `NoMemory`.
    pub fn take(&self, alloc: Global, indices: &Indices, policy: &Policy) -> Result<Table, NoMemory>
        requires { index_fault (index_value indices.now) self.now.len ≡ None }
        ensures { IfOk result (IsTaken self.now
            (λ t. also_nullable t (index_nullability (index_value indices.now)))
            (index_picks (index_value indices.now))) }
    {
        let mut names = Vec::new(alloc);
        append_names(&mut names, self.names())?;
        let columns = taken_columns(alloc, self.columns(), self.len(), indices, policy)?;
        match Table::try_new(names, columns, indices.len()) {
            Ok(table) => Ok(table),
            Err(_) => unreachable!(),
        }
    }
}
