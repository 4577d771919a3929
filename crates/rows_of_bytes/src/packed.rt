//! Calls the spellings of chunks as their users do, and prints what each gives.

mod decoders;
mod faults;
mod numbers;
mod spellings;

use std::alloc::Global;
use std::test::Fail;

/// A row for each call.
pub(crate) fn print_rows(rt: &impl Print, alloc: Global) -> Result<(), Fail> {
    spellings::print_rows(rt, alloc)?;
    faults::print_rows(rt, alloc)?;
    decoders::print_rows(rt, alloc)
}
