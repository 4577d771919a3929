//! A counted pointer whose `share` can't be refused.
//!
//! A [`Shared`] is one owner of a value on the heap. The last owner drops the value. Another owner
//! needs no allocation, and there is always one more: a count of owners that is full stays full,
//! and its value is then never dropped.
#![tactic(auto)]

ghost use Rattle.std.specs.Prelude.{◌≡◌, IfOk, IfErr, ⊤};

use std::alloc::{AllocError, AllocFailed, Global};
use std::fmt;
use std::marker::Model;
use std::ops::Deref;

mod counted;
mod unboxed;

use counted::{Block, Counted};
use unboxed::Unboxed;

/// One owner of a value on the heap, in one thread. A contract sees it as the value.
pub struct Shared<T> {
    counted: Counted<T>,
    alloc: Global,
}

impl<T> Model for Shared<T> {
    ghost Value = { T };

    ghost coded = { T.code };

    ghost view = { λ s. s.counted.value };
}

impl<T: Drop> Shared<T> {
    /// The first owner of `value`, in a block of its own.
    ///
    /// # Errors
    ///
    /// The value comes back where there is no memory for the block.
    pub fn new(alloc: Global, value: T) -> Result<Shared<T>, AllocFailed<T>>
        ensures ok { IfOk result (λ s. s ≡ value) }
        ensures value_returned { IfErr result (λ e. e.value ≡ value) }
    {
        match Box::new(alloc, Block::first(value)) {
            Ok(block) => Ok(Shared {
                counted: Counted::first(Unboxed::of(block)),
                alloc,
            }),
            Err(refused) => Err(AllocFailed {
                value: refused.value.into_value(),
            }),
        }
    }
}

impl<T> Shared<T> {
    /// Another owner of the same value. It can't fail.
    pub fn share(&self) -> Shared<T>
        ensures { result ≡ self.now }
    {
        Shared {
            counted: self.counted.share(),
            alloc: self.alloc,
        }
    }

    /// The value.
    pub fn as_ref(&self) -> &T
        ensures { result.now ≡ self.now }
    {
        self.counted.value()
    }
}

impl<T: Drop> Drop for Shared<T> {
    fn drop(self) {
        let Shared { counted, alloc } = self;
        match counted.step_down(alloc) {
            Some(last) => drop(last.into_box()),
            None => {}
        }
    }
}

impl<T> Deref for Shared<T> {
    type Target = T;

    ghost deref_gives = { λ s x. x ≡ s };

    fn deref(&self) -> &T
        ensures { result.now ≡ self.now }
    {
        self.as_ref()
    }
}

/// A clone is another owner, as by [`Shared::share`], so it's always `Ok`.
impl<T: Drop> Clone for Shared<T> {
    ghost is_clone = { λ s copy. copy ≡ s };

    ghost is_infallible = { λ _. ⊤ };

    fn clone(&self) -> Result<Shared<T>, AllocError> {
        Ok(self.share())
    }
}

/// Two owners are equal where their values are.
impl<T: PartialEq> PartialEq for Shared<T> {
    ghost eq = { T.eq };

    ghost laws = { T.laws };

    fn eq(&self, other: &Shared<T>) -> bool {
        *self.as_ref() == *other.as_ref()
    }
}

impl<T: Eq> Eq for Shared<T> {
    ghost laws = { T.Eq.laws };
}

/// It is printed as its value is.
impl<T: fmt::Debug> fmt::Debug for Shared<T> {
    ghost debug_output = { T.debug_output };

    fn fmt<W: fmt::Write>(&self, f: &mut fmt::Formatter<W>) -> fmt::Result {
        fmt::Debug::fmt(self.as_ref(), f)
    }
}
