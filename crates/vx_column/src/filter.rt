//! Layout `Filter`: the rows of a child at the set positions of a mask.
ghost use Rattle.std.specs.Prelude.{◌≡◌, None};
ghost use Rattle.vx_bits.specs.Results.{ok_unless};
ghost use Rattle.vx_model.specs.Filter.{filter_fault, filter_column};
ghost use Rattle.vx_column.specs.Part.{IsPart};

use crate::array::{Array, ArrayRef, Layout};
use crate::cell::{Cell, ReadRow};
use std::marker::Model;
use vx_mask::Mask;
use vx_types::ColumnError;

/// A column of the rows that a mask keeps of a child: Vortex's `FilterArray`.
///
/// Clauses see the child and the mask, with the indices, slices and block counts that it keeps.
#[cycle(array)]
#[derive(Drop)]
pub struct FilterArray {
    child: ArrayRef,
    mask: Mask,
}

impl Model for FilterArray {
    ghost use Rattle.vx_model.specs.Filter.{FilterParts, coded_filter};

    ghost Value = { FilterParts };

    ghost coded = { coded_filter };

    ghost use Rattle.std.specs.Prelude.{◌≡◌, None};
    ghost use Rattle.std.proofs.Common.{arith};
    ghost use Rattle.vx_model.specs.Filter.{filter_fault, filter_size};

    ghost view = { λ a. record { child = a.child; mask = a.mask } };

    ghost invariant = { λ a. filter_fault (record { child = a.child; mask = a.mask }) ≡ None };

    ghost size = { λ p. filter_size p };

    ghost size_decreases = { λ a h. Prim.grind arith };
}

impl FilterArray {
    /// A column with one row a set position of the mask: the child's row there.
    ///
    /// `WrongLength` exactly where the mask isn't as long as the child. A row is found by
    /// `Mask::rank`, which is fast where the mask keeps its indices or its block counts.
    pub fn try_new(child: ArrayRef, mask: Mask) -> Result<FilterArray, ColumnError>
        ensures { result
            ≡ ok_unless (filter_fault (record { child = child; mask = mask }))
            (record { child = child; mask = mask }) }
    {
        if mask.len() != child.len() {
            return Err(ColumnError::WrongLength);
        }
        Ok(FilterArray { child, mask })
    }

    /// The column whose rows are kept.
    pub fn child(&self) -> &ArrayRef
        ensures { IsPart (filter_fault self.now) result.now self.now.child }
    {
        &self.child
    }

    /// Which of them, with the lists that the mask was handed in with.
    pub fn mask(&self) -> &Mask
        ensures { IsPart (filter_fault self.now) result.now self.now.mask }
    {
        &self.mask
    }

    /// The column of these parts, which fit: what a step leaves.
    pub fn of(child: ArrayRef, mask: Mask) -> FilterArray
        requires { filter_fault (record { child = child; mask = mask }) ≡ None }
        ensures { result ≡ record { child = child; mask = mask } }
    {
        FilterArray { child, mask }
    }

    /// Another handle to the same column.
    pub fn share(&self) -> FilterArray
        ensures { result ≡ self.now }
    {
        FilterArray {
            child: self.child.share(),
            mask: self.mask.share(),
        }
    }

    /// The column of this layout.
    #[tactic(auto, using(vx_model::proofs::LazyRows::lazy_rows))]
    pub fn into_array(self) -> Array
        ensures { result ≡ filter_column self }
    {
        let dtype = self.child.dtype().share();
        let len = self.mask.true_count();
        Array::new(dtype, len, Layout::Filter(self))
    }
}

// Row `i`: the child's row at the mask's set position of that rank.
impl ReadRow for FilterArray {
    ghost column = { filter_column };

    #[cycle(cell)]
    #[tactic(auto, using(vx_model::proofs::LazyRows::lazy_rows))]
    fn cell_at(&self, i: usize) -> Cell<'_> {
        let mask = self.mask();
        self.child().cell_at(mask.rank(i))
    }
}
