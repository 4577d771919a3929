//! Pages of a table, and of a join of two.
ghost use Rattle.std.specs.Prelude.{◌≡◌, ◌≤◌, ◌<◌, [], ◌∷◌, IfOk, length};
ghost use Rattle.vortex_select.specs.Keys.{matching_pairs};

use crate::printing::print_numbers;
use std::alloc::Global;
use std::rc::RcStr;
use std::test::Fail;
use vortex_select::build::{numbers, slice};
use vortex_select::{ArrayRef, Columns, JoinError, PageError, Policy, Step, Table, join, page};

/// Of the rows that the steps leave, page `number` of four rows, of these columns.
fn four_rows(
    alloc: Global,
    table: &Table,
    projection: &[usize],
    steps: &[Step],
    number: usize,
) -> Result<Table, PageError>
    ensures { IfOk result (λ p. p.len ≤ 4) }
{
    page(
        alloc,
        table,
        projection,
        steps,
        number,
        4,
        &Policy::vortex(),
    )
}

// A table of these columns, under the names `c0`, `c1` and so on.
fn numbered(alloc: Global, columns: Vec<ArrayRef>, len: usize) -> Result<Table, Fail> {
    let mut names = Vec::new(alloc);
    for i in 0..columns.len() {
        names.push(RcStr::from_string(format!(in alloc; "c{i}")?)?)?;
    }
    Ok(Table::try_new(names, Columns::new(alloc, columns)?, len)?)
}

// A table of these columns of numbers.
fn table_of(alloc: Global, columns: &[&[u64]], len: usize) -> Result<Table, Fail> {
    let mut made = Vec::with_capacity(alloc, columns.len())?;
    for rows in columns {
        made.push(numbers(alloc, *rows)?.into_ref(alloc)?)?;
    }
    numbered(alloc, made, len)
}

// Column k of those ten: row i is 10 * k + i.
fn seven_rows(alloc: Global, k: u64) -> Result<ArrayRef, Fail>
    requires { k < 10 }
{
    let mut rows = Vec::with_capacity(alloc, 7)?;
    for i in 0..7_u64 {
        rows.push(10 * k + i)?;
    }
    Ok(numbers(alloc, rows.as_slice())?.into_ref(alloc)?)
}

// Ten columns of seven rows.
fn ten_columns(alloc: Global) -> Result<Table, Fail> {
    let mut columns = Vec::with_capacity(alloc, 10)?;
    for k in 0..10_u64 {
        columns.push(seven_rows(alloc, k)?)?;
    }
    numbered(alloc, columns, 7)
}

// The name and the rows of each column.
fn print_columns(rt: &impl Print, table: &Table) -> Result<(), Fail> {
    let columns = table.columns();
    for (i, name) in table.names().iter().enumerate() {
        let name = name.as_str();
        print!(rt; "  {name}:")?;
        if i < columns.len() {
            print_numbers(rt, columns.get(i))?;
        }
    }
    Ok(())
}

/// The second page of three columns out of ten, the same where a step is broken, and a page of two
/// joined tables.
pub(crate) fn print_pages(rt: &impl Print, alloc: Global) -> Result<(), Fail> {
    print_ten(rt, alloc, &ten_columns(alloc)?)?;
    print_join(rt, alloc)
}

fn print_ten(rt: &impl Print, alloc: Global, table: &Table) -> Result<(), Fail> {
    for end in [7, 8] {
        print!(rt; "page 1 of 1..{end}:")?;
        print_page(rt, alloc, table, &[slice(1, end)])?;
    }
    Ok(())
}

// Page 1 of three columns, or why there is none.
fn print_page(rt: &impl Print, alloc: Global, table: &Table, steps: &[Step]) -> Result<(), Fail> {
    match four_rows(alloc, table, &[7, 2, 0], steps, 1) {
        Ok(rows) => {
            println!(rt; "")?;
            print_columns(rt, &rows)
        }
        Err(error) => Ok(println!(rt; " {error:?}")?),
    }
}

/// The orders with their buyers: a row for each pair of them whose first columns are equal.
fn with_buyers(
    alloc: Global,
    orders: &Table,
    buyers: &Table,
    policy: &Policy,
) -> Result<Table, JoinError>
    ensures { IfOk result
        (λ t. t.len ≡ length (matching_pairs orders.now buyers.now ((0, 0) ∷ []))) }
{
    join(alloc, orders, buyers, &[(0, 0)], policy)
}

// Orders by their buyers, and the buyers' codes.
fn print_join(rt: &impl Print, alloc: Global) -> Result<(), Fail> {
    let orders = table_of(alloc, &[&[2, 1, 2, 3], &[10, 20, 30, 40]], 4)?;
    let buyers = table_of(alloc, &[&[1, 2], &[100, 200]], 2)?;
    let joined = with_buyers(alloc, &orders, &buyers, &Policy::vortex())?;
    print_joined(rt, alloc, &joined)
}

// The first page of two pairs, amounts and codes.
fn print_joined(rt: &impl Print, alloc: Global, joined: &Table) -> Result<(), Fail> {
    println!(rt; "{} pairs, the first two:", joined.len())?;
    let policy = Policy::vortex();
    let rows = page(alloc, joined, &[1, 3], &[], 0, 2, &policy)?;
    print_columns(rt, &rows)
}
