//! A column that is known to be of one layout.
ghost use Rattle.std.specs.Prelude.{◌≡◌, ⊤};

use std::alloc::AllocError;
use std::marker::PhantomData;
use vx_column::Array;

/// A borrowed column of the layout `V`: Vortex's `ArrayView`.
/// [`ReadLayout::as_opt`](crate::ReadLayout::as_opt) alone makes one.
#[derive(Drop)]
pub struct ArrayView<'a, V> {
    pub(crate) array: &'a Array,
    pub(crate) vtable: PhantomData<V>,
}

impl<'a, V> Copy for ArrayView<'a, V> {}

impl<'a, V> Clone for ArrayView<'a, V> {
    ghost is_clone = { λ s copy. copy ≡ s };

    ghost is_infallible = { λ _. ⊤ };

    fn clone(&self) -> Result<ArrayView<'a, V>, AllocError> {
        Ok(*self)
    }
}

impl<'a, V> ArrayView<'a, V> {
    /// The column.
    pub fn array(&self) -> &'a Array
        ensures { result ≡ self.now.array }
    {
        self.array
    }
}
