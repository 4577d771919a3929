//! A filter and a take of any column.

use std::alloc::Global;
use std::test::Fail;
use vortex_select::build::{filter, take};
use vortex_select::{Array, Policy, select};

/// All but the second, and of these the second, none, and the first.
pub(crate) fn picked(alloc: Global, people: &Array) -> Result<Array, Fail> {
    let kept = filter(alloc, &[true, false, true, true])?;
    let steps = [kept, take(alloc, &[Some(1), None, Some(0)])?];
    Ok(select(alloc, people, &steps, &Policy::vortex())?)
}
