//! Layout `List`: lists whose elements stand one after another, cut by offsets.
ghost use Rattle.std.specs.Prelude.{◌≡◌, ◌≤◌, ◌<◌, None, length, slice_index_or, IfOk};
ghost use Rattle.vx_bits.specs.Results.{FailsBy};
ghost use Rattle.vx_offsets.specs.Offsets.{offset_positions};
ghost use Rattle.vx_model.specs.List.{list_column, list_fault, list_spans};
ghost use Rattle.vx_model.specs.Numbers.{integers_of};
ghost use Rattle.vx_column.specs.ListParts.{list_parts};
ghost use Rattle.vx_column.specs.Part.{IsPart};
ghost use Rattle.vx_column.specs.Validity.{valid_of};

use crate::array::{Array, ArrayRef, Layout};
use crate::elements::Elements;
use crate::offsets::{are_integers, cuts_list, position_at, row_count};
use crate::primitive::PrimitiveArray;
use crate::validity::Validity;
use std::alloc::Global;
use std::marker::Model;
use vx_types::{ColumnError, DType};

/// A column of lists of one column's elements, each from its offset up to the next: Vortex's
/// `ListArray`.
#[cycle(array)]
#[derive(Drop)]
pub struct ListArray {
    elements: Elements,
    offsets: PrimitiveArray,
    validity: Validity,
}

impl Model for ListArray {
    ghost use Rattle.vx_model.specs.List.{ListParts, coded_list_parts};

    ghost Value = { ListParts };

    ghost coded = { coded_list_parts };

    ghost use Rattle.std.specs.Prelude.{◌≡◌, ◌+◌, None, max};
    ghost use Rattle.std.proofs.Common.{arith};
    ghost use Rattle.vx_model.specs.List.{list_fault};
    ghost use Rattle.vx_model.specs.Valid.{valid_size};
    ghost use Rattle.vx_column.specs.ListParts.{list_parts};

    ghost view = { λ a. list_parts a.elements a.offsets a.validity };

    ghost invariant = { λ a. list_fault (list_parts a.elements a.offsets a.validity) ≡ None };

    ghost size = { λ p. max p.elements.depth (valid_size p.valid) + 2 };

    ghost size_decreases = { λ a h. Prim.grind arith };
}

impl ListArray {
    /// A column with one row fewer than offsets: the elements from each offset up to the next.
    ///
    /// `WrongType` exactly where the offsets aren't a non-nullable column of integers. Else
    /// `BadValidity` exactly where the validity can't be that of so many rows. Else `BadOffsets`
    /// exactly where there is no offset, or one is negative, below the one before, or past the
    /// elements. Otherwise it fails only with `NoMemory`.
    pub fn try_new(
        alloc: Global,
        elements: ArrayRef,
        offsets: PrimitiveArray,
        validity: Validity,
    ) -> Result<ListArray, ColumnError>
        ensures made { IfOk result (λ a. a ≡ list_parts elements offsets validity) }
        ensures refusal { FailsBy result (list_fault (list_parts elements offsets validity))
            ColumnError.NoMemory }
    {
        if !are_integers(&offsets) {
            return Err(ColumnError::WrongType);
        }
        if !validity.is_fitting(row_count(&offsets)) {
            return Err(ColumnError::BadValidity);
        }
        if !cuts_list(&offsets, elements.len()) {
            return Err(ColumnError::BadOffsets);
        }
        Ok(ListArray {
            elements: Elements::new(alloc, elements)?,
            offsets,
            validity,
        })
    }

    /// Other sound parts, of which the elements have the same type: what a step leaves. It doesn't
    /// test what it requires; `try_new` does.
    pub fn with_parts(
        &self,
        elements: ArrayRef,
        offsets: PrimitiveArray,
        validity: Validity,
    ) -> ListArray
        requires valid { list_fault (list_parts elements offsets validity) ≡ None }
        requires dtype { elements.dtype ≡ self.now.elements.dtype }
        ensures { result ≡ list_parts elements offsets validity }
    {
        ListArray {
            elements: self.elements.with_column(elements),
            offsets,
            validity,
        }
    }

    /// The column that has the elements of all rows.
    pub fn elements(&self) -> &ArrayRef
        ensures { IsPart (list_fault self.now) result.now self.now.elements }
    {
        self.elements.column()
    }

    /// Which rows are valid.
    pub fn validity(&self) -> &Validity
        ensures { IsPart (list_fault self.now) (valid_of result.now) self.now.valid }
    {
        &self.validity
    }

    /// Where the elements of each row begin, and where those of the last end.
    pub fn offsets(&self) -> &PrimitiveArray
        ensures { IsPart (list_fault self.now) result.now self.now.offsets }
    {
        &self.offsets
    }

    /// How many rows it has.
    #[tactic(auto, using(vx_model::proofs::ListRows::list_rows))]
    pub fn len(&self) -> usize
        ensures { result ≡ length (list_spans self.now).spans }
    {
        row_count(&self.offsets)
    }

    // Where the elements of row `i` begin, and those of the one before it end.
    #[tactic(auto, using(vx_model::proofs::ListRows::list_offsets))]
    fn offset_at(&self, i: usize) -> usize
        requires { i < length self.now.offsets.records }
        ensures { result ≡ slice_index_or (offset_positions (integers_of self.now.offsets)) i 0 }
    {
        position_at(&self.offsets, i, self.elements().len())
    }

    /// Where the elements of row `i` begin and end, of a null row too.
    #[tactic(auto, using(vx_model::proofs::ListRows::list_offsets))]
    pub fn span_at(&self, i: usize) -> (usize, usize)
        requires { i < length (list_spans self.now).spans }
        ensures span { slice_index_or (list_spans self.now).spans i (0, 0) ≡ result }
        ensures ordered { result.0 ≤ result.1 }
        ensures within { result.1 ≤ length self.now.elements.rows }
    {
        // row `i` has an offset behind it
        let _ = self.elements();
        let _ = self.len();
        (self.offset_at(i), self.offset_at(i + 1))
    }

    /// Another handle to the same column.
    pub fn share(&self) -> ListArray
        ensures { result ≡ self.now }
    {
        self.with_parts(
            self.elements().share(),
            self.offsets.share(),
            self.validity.share(),
        )
    }

    /// The column of this layout.
    #[tactic(auto, using(vx_model::proofs::ListRows::list_rows))]
    pub fn into_array(self) -> Array
        ensures { result ≡ list_column self }
    {
        let dtype = DType::List(self.elements.element(), self.validity.nullability());
        let len = row_count(&self.offsets);
        Array::new(dtype, len, Layout::List(self))
    }
}
