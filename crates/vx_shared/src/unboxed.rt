//! A box as its pointer and its allocator.
ghost use Rattle.std.specs.Prelude.{◌≡◌};
ghost use Rattle.std.specs.Box.Ownership.{box_owns};

use std::alloc::Allocator;
use std::marker::Model;

/// What a box owns, with its fields in sight of this crate.
pub(crate) struct Unboxed<T, A: Allocator> {
    pub(crate) ptr: *mut T,
    pub(crate) alloc: A,
    pub(crate) ghost value: { T },
}

impl<T, A: Allocator> Model for Unboxed<T, A> {
    ghost also_owns = { λ u. box_owns (A.dealloc_token u.alloc) T.row u.ptr u.value };
}

impl<T: Drop, A: Allocator> Unboxed<T, A> {
    /// The box, taken apart.
    pub(crate) fn of(whole: Box<T, A>) -> Unboxed<T, A>
        ensures { result.value ≡ whole.value }
    {
        let (ptr, alloc) = Box::into_raw_with_allocator(whole);
        Unboxed { ptr, alloc }
    }
}

impl<T, A: Allocator> Unboxed<T, A> {
    /// The box again.
    pub(crate) fn into_box(self) -> Box<T, A>
        ensures { result.value ≡ self.value }
    {
        let Unboxed { ptr, alloc } = self;
        unsafe { Box::from_raw(alloc, ptr) }
    }
}
