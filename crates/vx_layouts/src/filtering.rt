//! The filters that a layout answers itself: two traits, for two times. What they promise is the
//! same, but that only a filter while columns are executed may be left to the caller.
//!
//! A layout that leaves no filter to its caller is marked, and a filter of it is the one over every
//! layout.
ghost use Rattle.std.specs.Prelude.{◌≡◌, Bool, List, false, length};
ghost use Rattle.vx_mask.specs.Mask.{mask_bits};
ghost use Rattle.vx_model.specs.Column.{Column};
ghost use Rattle.vx_layouts.specs.Answers.{AnswersFilter};

use crate::always::{FilterKernelAlways, FilterReduceAlways};
use crate::answer::Answer;
use std::alloc::Global;
use vx_column::Array;
use vx_dispatch::filter;
use vx_mask::{Mask, Policy};
use vx_plain::{ArrayView, VTable};

/// A layout that answers a filter while columns are put together: Vortex's `FilterReduce`.
pub trait FilterReduce: VTable {
    /// The rows at the set positions of a mask that is as long, as [`crate::filter`] gives them by
    /// the policy of Vortex: never `None`.
    fn filter(alloc: Global, array: ArrayView<'_, Self>, mask: &Mask) -> Answer
        requires { length (mask_bits mask.now) ≡ length array.array.now.rows }
        ensures { AnswersFilter array.entry.array.now (mask_bits mask.now) false result };
}

/// A layout that answers a filter while columns are executed: Vortex's `FilterKernel`.
pub trait FilterKernel: VTable {
    // whether a filter of a column by these bits is left to the caller
    ghost declines: { Column → List Bool → Bool };

    /// The rows at the set positions of a mask that is as long, as [`crate::filter`] gives them by
    /// the policy of Vortex; none where the filter is left to the caller.
    fn filter(alloc: Global, array: ArrayView<'_, Self>, mask: &Mask) -> Answer
        requires { length (mask_bits mask.now) ≡ length array.array.now.rows }
        ensures { AnswersFilter array.entry.array.now (mask_bits mask.now)
            (declines array.entry.array.now (mask_bits mask.now)) result };
}

fn kept(alloc: Global, array: &Array, mask: &Mask) -> Answer
    requires { length (mask_bits mask.now) ≡ length array.now.rows }
    ensures { AnswersFilter array.now (mask_bits mask.now) false result }
{
    Ok(Some(filter(alloc, array, mask, &Policy::vortex())?))
}

impl<V: FilterReduceAlways> FilterReduce for V {
    fn filter(alloc: Global, array: ArrayView<'_, V>, mask: &Mask) -> Answer
        requires { length (mask_bits mask.now) ≡ length array.array.now.rows }
        ensures { AnswersFilter array.entry.array.now (mask_bits mask.now) false result }
    {
        kept(alloc, array.array(), mask)
    }
}

impl<V: FilterKernelAlways> FilterKernel for V {
    ghost declines = { λ _ _. false };

    fn filter(alloc: Global, array: ArrayView<'_, V>, mask: &Mask) -> Answer
        requires { length (mask_bits mask.now) ≡ length array.array.now.rows }
        ensures { AnswersFilter array.entry.array.now (mask_bits mask.now) false result }
    {
        kept(alloc, array.array(), mask)
    }
}
