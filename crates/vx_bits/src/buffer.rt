//! A shared list of values.
ghost use Rattle.std.specs.Prelude.{◌≡◌, ◌≤◌, ◌↔◌, IsTrue, IfOk, length, slice_range};

use crate::error::NoMemory;
use std::alloc::Global;
use std::marker::Model;
use vx_shared::Shared;

/// A list of values that is shared, not copied: Vortex's `Buffer`.
///
/// Clauses see the list. A slice of a buffer keeps the whole list alive.
pub struct Buffer<T: Copy> {
    list: Shared<Vec<T>>,
    start: usize,
    len: usize,
}

impl<T: Copy> Model for Buffer<T> {
    ghost use Rattle.std.specs.Prelude.{List, ◌+◌, ◌≤◌, length, take, drop};

    ghost Value = { List T };

    ghost view = { λ b. take b.len (drop b.start b.list.items) };

    ghost invariant = { λ b. b.start + b.len ≤ length b.list.items };
}

impl<T: Copy> Drop for Buffer<T> {
    fn drop(self) {
        let Buffer {
            list,
            start: _,
            len: _,
        } = self;
        drop(list)
    }
}

impl<T: Copy> Buffer<T> {
    /// The list of `values`. Fails only with `NoMemory`, where the shared list gets no memory.
    pub fn from_vec(alloc: Global, values: Vec<T>) -> Result<Buffer<T>, NoMemory>
        ensures { IfOk result (λ b. b ≡ values.items) }
    {
        let len = values.len();
        let list = Shared::new(alloc, values)?;
        Ok(Buffer {
            list,
            start: 0,
            len,
        })
    }

    /// The values, in order.
    pub fn as_slice(&self) -> &[T]
        ensures { result.now ≡ self.now }
    {
        &self.list.as_ref().as_slice()[self.start..self.start + self.len]
    }

    /// The number of values.
    pub fn len(&self) -> usize
        ensures { result ≡ length self.now }
    {
        self.len
    }

    /// Whether there is no value.
    pub fn is_empty(&self) -> bool
        ensures { IsTrue result ↔ (length self.now ≡ 0) }
    {
        self.len == 0
    }

    /// The values from `start` up to `end`, which it leaves out.
    pub fn slice(&self, start: usize, end: usize) -> Buffer<T>
        requires ordered { start ≤ end }
        requires within { end ≤ length self.now }
        ensures { result ≡ slice_range self.now start end }
    {
        Buffer {
            list: self.list.share(),
            start: self.start + start,
            len: end - start,
        }
    }

    /// Another handle to the same list.
    pub fn share(&self) -> Buffer<T>
        ensures { result ≡ self.now }
    {
        Buffer {
            list: self.list.share(),
            start: self.start,
            len: self.len,
        }
    }
}
