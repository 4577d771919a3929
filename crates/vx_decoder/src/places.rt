//! Values that are copied from their places within a chunk.
ghost use Rattle.std.specs.Prelude.{◌≡◌, Some, true, length, map, slice_get};
ghost use Rattle.vx_mask.specs.Positions.{ascending};

/// Copies the values at the places to `dst`, one by one.
pub(crate) fn copy_places<T: Copy>(values: &[T], places: &[usize], dst: &mut [T])
    requires chunk { length values.now ≡ 1024 }
    requires ascend { ascending 0 1024 places.now ≡ true }
    requires room { length dst.old ≡ length places.now }
    ensures { map Some dst.new ≡ map (slice_get values.now) places.now }
{
    for k in 0..places.len() {
        dst[k] = values[places[k]];
    }
}
