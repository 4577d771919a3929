//! Calls the filters of lists and of bits, the takes and the filters of chunks as their users do,
//! and prints what each gives.
#![tactic(auto)]

mod bits;
mod bytes;
mod chunks;
mod compact;
mod decoded;
mod filters;
mod masks;
mod needs;
mod packed;
mod picks;
mod ranks;
mod readers;
mod widths;

use std::alloc::Global;
use std::test::Fail;

fn add_rows(alloc: Global, rows: &mut Vec<String>) -> Result<(), Fail> {
    filters::add_rows(alloc, rows)?;
    compact::add_rows(alloc, rows)?;
    widths::add_rows(alloc, rows)?;
    bytes::add_rows(alloc, rows)?;
    packed::add_rows(alloc, rows)?;
    bits::add_rows(alloc, rows)?;
    readers::add_rows(alloc, rows)
}

fn main(rt: HostRuntime) -> Result<(), Fail> {
    let mut rows = Vec::new(rt.alloc());
    add_rows(rt.alloc(), &mut rows)?;
    for row in rows {
        println!(rt; "{row}")?;
    }
    picks::print_rows(&rt, rt.alloc())?;
    ranks::print_rows(&rt, rt.alloc())?;
    needs::print_rows(&rt, rt.alloc())?;
    chunks::print_rows(&rt, rt.alloc())?;
    decoded::print_rows(&rt, rt.alloc())
}
