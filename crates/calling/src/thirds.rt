//! The people who are in, and every third of them.

use crate::printing::print_fault;
use std::alloc::Global;
use std::test::Fail;
use vortex_select::build::{bools, filter_by, structs, take, take_every, texts};
use vortex_select::{Array, Policy, ReadLayout, SelectError, field, select, text_of_row};

/// Six people, of whom four are in.
fn people(alloc: Global) -> Result<Array, Fail> {
    let names = texts(alloc, &["ann", "bo", "cy", "dee", "ed", "flo"])?;
    let is_in = bools(alloc, &[true, false, true, true, true, false])?;
    let fields = vec![in alloc; ("name", names), ("is_in", is_in)]?;
    Ok(structs(alloc, fields)?)
}

/// Every third of the rows whose bool `is_in` is true.
fn thirds(alloc: Global, people: &Array) -> Result<Array, Fail> {
    let Some(structs) = people.as_struct() else {
        return Err("no structs".into());
    };
    let Some(is_in) = field(structs, "is_in") else {
        return Err("no field is_in".into());
    };
    let kept = select(alloc, people, &[filter_by(is_in)?], &Policy::vortex())?;
    let every_third = take_every(alloc, 3, kept.len())?;
    Ok(select(alloc, &kept, &[every_third], &Policy::vortex())?)
}

/// Prints each row as the program does.
fn print_shown(rt: &impl Print, alloc: Global, column: &Array) -> Result<(), Fail> {
    for i in 0..column.len() {
        println!(rt; "{}", text_of_row(alloc, column, i)?)?;
    }
    Ok(())
}

/// Prints every third of those who are in, and why a row past them can't be taken.
pub(crate) fn print_thirds(rt: &impl Print, alloc: Global) -> Result<(), Fail> {
    let thirds = thirds(alloc, &people(alloc)?)?;
    print_shown(rt, alloc, &thirds)?;
    match select(
        alloc,
        &thirds,
        &[take(alloc, &[Some(9)])?],
        &Policy::vortex(),
    ) {
        Err(SelectError::Broken { step, cause }) => print_fault(rt, step, cause),
        _ => Err("no fault".into()),
    }
}
