//! Layout `Null`: rows that are all null.
ghost use Rattle.std.specs.Prelude.{◌≡◌};
ghost use Rattle.vx_model.specs.Null.{null_column};

use crate::array::{Array, Layout};
use std::marker::Model;
use vx_types::DType;

/// A column of nulls: Vortex's `NullArray`. A contract sees it as the number of its rows.
#[derive(Drop)]
pub struct NullArray {
    len: usize,
}

impl Model for NullArray {
    ghost use Rattle.std.specs.Prelude.{ℕ};

    ghost Value = { ℕ };

    ghost view = { λ a. a.len };
}

impl NullArray {
    /// A column of `len` nulls.
    pub fn new(len: usize) -> NullArray
        ensures { result ≡ len }
    {
        NullArray { len }
    }

    /// How many rows it has.
    pub fn len(&self) -> usize
        ensures { result ≡ self.now }
    {
        self.len
    }

    /// Another handle to the same column.
    pub fn share(&self) -> NullArray
        ensures { result ≡ self.now }
    {
        NullArray { len: self.len }
    }

    /// The column of this layout.
    pub fn into_array(self) -> Array
        ensures { result ≡ null_column self }
    {
        Array::new(DType::Null, self.len, Layout::Null(self))
    }
}
