//! The slices that a layout answers itself: two traits, for two times. What they promise is the
//! same.
//!
//! No layout leaves a slice to its caller. One that answers slices is marked, and a slice of it is
//! the one over every layout.
ghost use Rattle.std.specs.Prelude.{◌≤◌, length};
ghost use Rattle.vx_layouts.specs.Answers.{AnswersSlice};

use crate::always::{SliceKernelAlways, SliceReduceAlways};
use crate::answer::Answer;
use std::alloc::Global;
use vx_column::Array;
use vx_dispatch::slice;
use vx_plain::{ArrayView, VTable};

/// A layout that answers a slice while columns are put together: Vortex's `SliceReduce`.
pub trait SliceReduce: VTable {
    /// The rows from `start` up to `end`, as [`crate::slice`] gives them: never `None`.
    fn slice(alloc: Global, array: ArrayView<'_, Self>, start: usize, end: usize) -> Answer
        requires ordered { start ≤ end }
        requires within { end ≤ length array.array.now.rows }
        ensures { AnswersSlice array.entry.array.now start end result };
}

/// A layout that answers a slice while columns are executed: Vortex's `SliceKernel`.
pub trait SliceKernel: VTable {
    /// The rows from `start` up to `end`, as [`crate::slice`] gives them: never `None`.
    fn slice(alloc: Global, array: ArrayView<'_, Self>, start: usize, end: usize) -> Answer
        requires ordered { start ≤ end }
        requires within { end ≤ length array.array.now.rows }
        ensures { AnswersSlice array.entry.array.now start end result };
}

fn sliced(alloc: Global, array: &Array, start: usize, end: usize) -> Answer
    requires ordered { start ≤ end }
    requires within { end ≤ length array.now.rows }
    ensures { AnswersSlice array.now start end result }
{
    Ok(Some(slice(alloc, array, start, end)?))
}

impl<V: SliceReduceAlways> SliceReduce for V {
    fn slice(alloc: Global, array: ArrayView<'_, V>, start: usize, end: usize) -> Answer
        requires ordered { start ≤ end }
        requires within { end ≤ length array.array.now.rows }
        ensures { AnswersSlice array.entry.array.now start end result }
    {
        sliced(alloc, array.array(), start, end)
    }
}

impl<V: SliceKernelAlways> SliceKernel for V {
    fn slice(alloc: Global, array: ArrayView<'_, V>, start: usize, end: usize) -> Answer
        requires ordered { start ≤ end }
        requires within { end ≤ length array.array.now.rows }
        ensures { AnswersSlice array.entry.array.now start end result }
    {
        sliced(alloc, array.array(), start, end)
    }
}
