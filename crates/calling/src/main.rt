//! Calls the library as its users do: builds columns, steps and policies, selects rows of a column
//! in memory and of values behind a decoder of its own, and prints what it is given.
#![tactic(auto)]

mod built;
mod chunks;
mod columns;
mod error;
mod first;
mod names;
mod people;
mod picked;
mod policies;
mod printing;
mod reading;
mod selecting;
mod squares;
mod steps;
mod tables;
mod thirds;

use std::test::Fail;

fn main(rt: HostRuntime) -> Result<(), Fail> {
    first::print_picked(&rt, rt.alloc())?;
    built::print_built(&rt, rt.alloc())?;
    people::print_people(&rt, rt.alloc())?;
    selecting::print_refusals(&rt, rt.alloc())?;
    selecting::print_answers(&rt, rt.alloc())?;
    selecting::print_faults(&rt, rt.alloc())?;
    selecting::print_rows(&rt, rt.alloc())?;
    names::print_names(&rt, rt.alloc())?;
    chunks::print_squares(&rt, rt.alloc())?;
    tables::print_pages(&rt, rt.alloc())?;
    thirds::print_thirds(&rt, rt.alloc())
}
