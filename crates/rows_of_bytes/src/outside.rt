//! Calls sources, sinks, and what reads or delivers over them, and prints a line for each case:
//! what was called, and what it gave.

mod flaky;
mod memory;
mod transfers;

use std::alloc::Global;
use std::test::Fail;

/// A row for each case.
pub(crate) fn print_rows(rt: &impl Print, alloc: Global) -> Result<(), Fail> {
    memory::print_sources(rt, alloc)?;
    memory::print_sink(rt, alloc)?;
    memory::print_counting_sink(rt)?;
    flaky::print_retries(rt)?;
    transfers::print_readings(rt, alloc)?;
    transfers::print_bounds(rt, alloc)?;
    transfers::print_deliveries(rt, alloc)
}
