//! The block that the owners of a value share, and the pointer to it that each of them holds.
ghost use Rattle.std.specs.Prelude.{◌≡◌, IfSome};
ghost use Rattle.vx_shared.specs.Counted.{counted_owns, counted_shares};

use crate::unboxed::Unboxed;
use std::alloc::Global;
use std::marker::Model;

/// A full count. It's never changed again, so its value stays for good.
const FULL: usize = usize::MAX;

/// The number of the owners, and what they own together.
#[derive(Drop)]
pub(crate) struct Block<T> {
    count: usize,
    value: T,
}

impl<T> Block<T> {
    /// The block of a value with one owner.
    pub(crate) fn first(value: T) -> Block<T>
        ensures { result ≡ record { count = 1; value = value } }
    {
        Block { count: 1, value }
    }

    /// The value, out of the block.
    pub(crate) fn into_value(self) -> T
        ensures { result ≡ self.value }
    {
        let Block { count: _, value } = self;
        value
    }
}

/// One owner, without the allocator that the block came from.
pub(crate) struct Counted<T> {
    ptr: *const Block<T>,
    pub(crate) ghost value: { T },
}

impl<T> Model for Counted<T> {
    ghost also_owns = { λ c. counted_owns T.row c.ptr c.value };

    ghost also_shares = { λ c _ κ. counted_shares T.row c.ptr c.value κ };
}

impl<T> Counted<T> {
    /// The first owner of the block.
    pub(crate) fn first(block: Unboxed<Block<T>, Global>) -> Counted<T>
        requires { block.value.count ≡ 1 }
        ensures { result.value ≡ block.value.value }
    {
        let Unboxed { ptr, alloc: _ } = block;
        Counted { ptr }
    }

    /// The value that the owners share.
    pub(crate) fn value(&self) -> &T
        ensures { result.now ≡ self.now.value }
    {
        unsafe { &(*self.ptr).value }
    }

    /// One owner more. A full count stays, and the value then stays for good.
    pub(crate) fn share(&self) -> Counted<T>
        ensures { result.value ≡ self.now.value }
    {
        let ptr = self.ptr.cast_mut();
        unsafe {
            let count = (*ptr).count;
            if count != FULL {
                (*ptr).count = count + 1;
            }
        }
        Counted { ptr }
    }

    /// One owner less. The last one gets the block, unless the count was ever full.
    pub(crate) fn step_down(self, alloc: Global) -> Option<Unboxed<Block<T>, Global>>
        ensures { IfSome result (λ last. last.value.value ≡ self.value) }
    {
        let Counted { ptr } = self;
        let ptr = ptr.cast_mut();
        unsafe {
            let count = (*ptr).count;
            if count == FULL {
                return None;
            }
            if count != 1 {
                (*ptr).count = count - 1;
                return None;
            }
        }
        Some(Unboxed { ptr, alloc })
    }
}
