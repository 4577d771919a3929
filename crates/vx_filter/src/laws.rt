//! What holds of every filter of a list.
ghost use Rattle.std.specs.Prelude.{Bool, List};
ghost use Rattle.vx_filter.specs.Kept.{IsListAtTheSet};

/// The items where the bits are set are the list's items at the set positions, in order.
pub fn filter_law<T>()
    ensures { (bits : List Bool) (items : List T) → IsListAtTheSet bits items }
{}
