//! The first program: rows of a column of numbers, by a filter and a take.

use crate::picked::picked;
use crate::printing::print_column;
use std::alloc::Global;
use std::test::Fail;
use vortex_select::build::numbers;

/// The type of what is picked of four ids, and a line for each row.
pub(crate) fn print_picked(rt: &impl Print, alloc: Global) -> Result<(), Fail> {
    let ids = numbers(alloc, &[7_u64, 8, 9, 10])?;
    print_column(rt, alloc, &picked(alloc, &ids)?)
}
