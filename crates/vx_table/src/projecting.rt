//! Some of the columns of a table.
ghost use Rattle.std.specs.Prelude.{◌≡◌, ◌<◌, IfOk, find, length, nat_le};
ghost use Rattle.std.specs.List.{All};
ghost use Rattle.vx_table.specs.Table.{names_of};
ghost use Rattle.vx_table.specs.Taken.{items_by_number, columns_at};

use crate::table::Table;
use std::alloc::Global;
use std::rc::RcStr;
use vx_bits::NoMemory;
use vx_column::Columns;

// The names of these numbers.
fn chosen_names(
    alloc: Global,
    names: &[RcStr],
    projection: &[usize],
) -> Result<Vec<RcStr>, NoMemory>
    requires { All (λ i. i < length names.now) projection.now }
    ensures { IfOk result
        (λ copy. names_of copy.items ≡ items_by_number projection.now (names_of names.now)) }
{
    let mut copy = Vec::with_capacity(alloc, projection.len())?;
    for i in projection {
        copy.push(names[*i].clone()?)?;
    }
    Ok(copy)
}

// The columns of these numbers.
fn chosen_columns(
    alloc: Global,
    columns: &Columns,
    projection: &[usize],
) -> Result<Columns, NoMemory>
    requires { All (λ i. i < length columns.now) projection.now }
    ensures { IfOk result (λ copy. copy ≡ items_by_number projection.now columns.now) }
{
    let mut copy = Vec::with_capacity(alloc, projection.len())?;
    for i in projection {
        copy.push(columns.get(*i).share())?;
    }
    Columns::new(alloc, copy)
}

/// The first number that isn't below a bound.
pub(crate) fn first_missing(projection: &[usize], count: usize) -> Option<usize>
    ensures { result ≡ find (λ i. nat_le count i) projection.now }
{
    projection.iter().copied().find(|i| count <= *i)
}

impl Table {
    /// The columns of these numbers, in this order, with their names: a number may stand twice. No
    /// row is copied. Fails only with `NoMemory`.
    pub fn project(&self, alloc: Global, projection: &[usize]) -> Result<Table, NoMemory>
        requires { All (λ i. i < length self.now.columns) projection.now }
        ensures { IfOk result (λ t. t ≡ columns_at self.now projection.now) }
    {
        let names = chosen_names(alloc, self.names(), projection)?;
        let columns = chosen_columns(alloc, self.columns(), projection)?;
        match Table::try_new(names, columns, self.len()) {
            Ok(table) => Ok(table),
            Err(_) => unreachable!(),
        }
    }
}
