//! Two tables side by side.
ghost use Rattle.std.specs.Prelude.{◌≡◌, ◌++◌, IfOk, OnOk};
ghost use Rattle.vx_table.specs.Table.{names_of};
ghost use Rattle.vx_table.specs.Taken.{beside};

use crate::table::Table;
use std::alloc::Global;
use std::rc::RcStr;
use vx_bits::NoMemory;
use vx_column::{ArrayRef, Columns};

/// Appends the names once again.
pub(crate) fn append_names(to: &mut Vec<RcStr>, names: &[RcStr]) -> Result<(), NoMemory>
    ensures { OnOk result (names_of to.new.items ≡ names_of to.old.items ++ names_of names.now) }
{
    for name in names {
        to.push(name.clone()?)?;
    }
    Ok(())
}

// Appends the columns once again. None of their rows is copied.
fn append_columns(to: &mut Vec<ArrayRef>, columns: &Columns) -> Result<(), NoMemory>
    ensures { OnOk result (to.new.items ≡ to.old.items ++ columns.now) }
{
    for i in 0..columns.len() {
        to.push(columns.get(i).share())?;
    }
    Ok(())
}

impl Table {
    /// Its columns and then those of another table that is as long, with their names. No row is
    /// copied. Fails only with `NoMemory`.
    pub fn beside(&self, alloc: Global, other: &Table) -> Result<Table, NoMemory>
        requires { other.now.len ≡ self.now.len }
        ensures { IfOk result (λ t. t ≡ beside self.now other.now) }
    {
        let mut names = Vec::new(alloc);
        append_names(&mut names, self.names())?;
        append_names(&mut names, other.names())?;
        let mut columns = Vec::new(alloc);
        append_columns(&mut columns, self.columns())?;
        append_columns(&mut columns, other.columns())?;
        match Table::try_new(names, Columns::new(alloc, columns)?, self.len()) {
            Ok(table) => Ok(table),
            Err(_) => unreachable!(),
        }
    }
}
