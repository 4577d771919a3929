//! Laws on lists that no single call carries: each is the contract of a function that does nothing.
ghost use Rattle.vx_steps.specs.Laws.{SliceOfSlice};

/// Cutting a list and cutting what was cut is one cut.
pub fn slice_of_slice<T>(items: &[T])
    ensures { SliceOfSlice items.now }
{
    // Only the contract speaks of it.
    let _ = items;
}
