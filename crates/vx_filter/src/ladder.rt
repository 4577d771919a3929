//! Filtering by the kernel that serves a mask best.
ghost use Rattle.std.specs.Prelude.{◌≡◌, ◌<◌, IfOk, length};
ghost use Rattle.std.specs.List.{items_where_true};

use crate::bitmap::filter_slice_by_bitmap;
use crate::choice::{dense_from, is_dense, useful_indices, useful_slices};
use crate::compress::byte_compress;
use crate::lists::{filter_slice_by_indices, filter_slice_by_slices};
use std::alloc::Global;
use vx_bits::NoMemory;
use vx_mask::{MaskValues, Policy};

/// The items of `src` at the set positions of `mask`, in order: Vortex's `filter_slice`. Fails only
/// with `NoMemory`.
///
/// By runs that the mask keeps where they are one or long enough, else by indices that it keeps
/// where they are few enough, else by its bytes where it is as dense as the policy asks for items
/// of this width, else by its words. The items do not depend on the policy.
pub fn filter_slice<T: Copy>(
    alloc: Global,
    src: &[T],
    mask: &MaskValues,
    policy: &Policy,
) -> Result<Vec<T>, NoMemory>
    requires { length mask.now.bits.bits ≡ length src.now }
    ensures { IfOk result (λ kept. kept.items ≡ items_where_true mask.now.bits.bits src.now) }
{
    let fields = policy.fields();
    if let Some(slices) = useful_slices(mask, fields) {
        return filter_slice_by_slices(alloc, src, slices);
    }
    if let Some(indices) = useful_indices(mask, fields) {
        return filter_slice_by_indices(alloc, src, indices);
    }
    if !src.is_empty() && is_dense(mask, dense_from(fields, width_of(src))) {
        return byte_compress(alloc, src, mask);
    }
    filter_slice_by_bitmap(alloc, src, mask)
}

// How many bytes an item takes.
fn width_of<T>(src: &[T]) -> usize
    requires { 0 < length src.now }
{
    src.len() * size_of::<T>() / src.len()
}
