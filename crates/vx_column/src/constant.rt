//! Layout `Constant`: one value for every row.
ghost use Rattle.std.specs.Prelude.{◌≡◌};
ghost use Rattle.vx_model.specs.Constant.{constant_column};

use crate::array::{Array, Layout};
use crate::cell::{Cell, ReadRow};
use std::marker::Model;
use vx_types::{Scalar, ScalarValue};

/// A column of one value for every row: Vortex's `ConstantArray`.
#[derive(Drop)]
pub struct ConstantArray {
    scalar: Scalar,
    len: usize,
}

impl Model for ConstantArray {
    ghost use Rattle.vx_model.specs.Constant.{ConstantParts, coded_constant};

    ghost Value = { ConstantParts };

    ghost coded = { coded_constant };

    ghost view = { λ a. record { scalar = a.scalar; len = a.len } };
}

impl ConstantArray {
    /// A column of `len` rows of one value.
    pub fn new(scalar: Scalar, len: usize) -> ConstantArray
        ensures { result ≡ record { scalar = scalar; len = len } }
    {
        ConstantArray { scalar, len }
    }

    /// The value, with its type.
    pub fn scalar(&self) -> &Scalar
        ensures { result.now ≡ self.now.scalar }
    {
        &self.scalar
    }

    /// How many rows it has.
    pub fn len(&self) -> usize
        ensures { result ≡ self.now.len }
    {
        self.len
    }

    /// Another handle to the same column.
    pub fn share(&self) -> ConstantArray
        ensures { result ≡ self.now }
    {
        ConstantArray {
            scalar: self.scalar.share(),
            len: self.len,
        }
    }

    /// The column of this layout.
    #[tactic(auto, using(vx_model::proofs::LazyRows::lazy_rows, vx_model::proofs::Scalars::scalars))]
    pub fn into_array(self) -> Array
        ensures { result ≡ constant_column self }
    {
        let dtype = self.scalar.dtype().share();
        let len = self.len;
        Array::new(dtype, len, Layout::Constant(self))
    }
}

// Each row.
impl ReadRow for ConstantArray {
    ghost column = { constant_column };

    #[tactic(auto, using(vx_model::proofs::LazyRows::lazy_rows, vx_model::proofs::Scalars::scalars))]
    fn cell_at(&self, i: usize) -> Cell<'_> {
        // Only the contract speaks of it.
        let _ = i;
        let scalar = self.scalar();
        // What its clauses say is used below.
        let _ = scalar.dtype();
        match scalar.value() {
            ScalarValue::Null => Cell::Null,
            ScalarValue::Bit(bit) => Cell::Bit(*bit),
            ScalarValue::Bytes(bytes) => Cell::Bytes(bytes.as_slice()),
        }
    }
}
