//! Layout `FixedSizeList`: lists of one size, one after another.
ghost use Rattle.std.specs.Prelude.{◌≡◌, ◌≤◌, ◌<◌, None, length, slice_index_or, IfOk};
ghost use Rattle.vx_bits.specs.Results.{FailsBy};
ghost use Rattle.vx_model.specs.FixedSizeList.{fixed_column, fixed_fault, fixed_spans};
ghost use Rattle.vx_column.specs.ListParts.{fixed_parts};
ghost use Rattle.vx_column.specs.Part.{IsPart};
ghost use Rattle.vx_column.specs.Validity.{valid_of};

use crate::array::{Array, ArrayRef, Layout};
use crate::elements::Elements;
use crate::validity::Validity;
use std::alloc::Global;
use std::marker::Model;
use vx_types::{ColumnError, DType};

/// A column of lists that each have as many of one column's elements, one list after another:
/// Vortex's `FixedSizeListArray`.
#[cycle(array)]
#[derive(Drop)]
pub struct FixedSizeListArray {
    elements: Elements,
    list_size: u32,
    len: usize,
    validity: Validity,
}

impl Model for FixedSizeListArray {
    ghost use Rattle.vx_model.specs.FixedSizeList.{FixedParts, coded_fixed};

    ghost Value = { FixedParts };

    ghost coded = { coded_fixed };

    ghost use Rattle.std.specs.Prelude.{◌≡◌, ◌+◌, None, max};
    ghost use Rattle.std.proofs.Common.{arith};
    ghost use Rattle.vx_model.specs.FixedSizeList.{fixed_fault};
    ghost use Rattle.vx_model.specs.Valid.{valid_size};
    ghost use Rattle.vx_column.specs.ListParts.{fixed_parts};

    ghost view = { λ a. fixed_parts a.elements a.list_size a.len a.validity };

    ghost invariant = { λ a.
        fixed_fault (fixed_parts a.elements a.list_size a.len a.validity) ≡ None };

    ghost size = { λ p. max p.elements.depth (valid_size p.valid) + 2 };

    ghost size_decreases = { λ a h. Prim.grind arith };
}

impl FixedSizeListArray {
    /// A column of `len` rows, each of `list_size` elements, behind those of the row before.
    ///
    /// `WrongLength` exactly where the elements don't number `list_size * len`. Else `BadValidity`
    /// exactly where the validity can't be that of so many rows. Otherwise it fails only with
    /// `NoMemory`.
    pub fn try_new(
        alloc: Global,
        elements: ArrayRef,
        list_size: u32,
        validity: Validity,
        len: usize,
    ) -> Result<FixedSizeListArray, ColumnError>
        ensures made { IfOk result (λ a. a ≡ fixed_parts elements list_size len validity) }
        ensures refusal { FailsBy result
            (fixed_fault (fixed_parts elements list_size len validity)) ColumnError.NoMemory }
    {
        if elements.len() as u128 != list_size as u128 * len as u128 {
            return Err(ColumnError::WrongLength);
        }
        if !validity.is_fitting(len) {
            return Err(ColumnError::BadValidity);
        }
        Ok(FixedSizeListArray {
            elements: Elements::new(alloc, elements)?,
            list_size,
            len,
            validity,
        })
    }

    /// The column that has the elements of all rows.
    pub fn elements(&self) -> &ArrayRef
        ensures { IsPart (fixed_fault self.now) result.now self.now.elements }
    {
        self.elements.column()
    }

    /// How many elements each row has.
    pub fn list_size(&self) -> u32
        ensures { IsPart (fixed_fault self.now) result self.now.size }
    {
        self.list_size
    }

    /// Which rows are valid.
    pub fn validity(&self) -> &Validity
        ensures { IsPart (fixed_fault self.now) (valid_of result.now) self.now.valid }
    {
        &self.validity
    }

    /// How many rows it has.
    #[tactic(auto, using(vx_model::proofs::ListRows::fixed_rows))]
    pub fn len(&self) -> usize
        ensures value { result ≡ self.now.len }
        ensures rows { result ≡ length (fixed_spans self.now).spans }
    {
        self.len
    }

    /// Other sound parts, of which the elements have the same type: what a step leaves. It doesn't
    /// test what it requires; `try_new` does.
    pub fn with_parts(
        &self,
        elements: ArrayRef,
        validity: Validity,
        len: usize,
    ) -> FixedSizeListArray
        requires valid { fixed_fault (fixed_parts elements self.now.size len validity) ≡ None }
        requires dtype { elements.dtype ≡ self.now.elements.dtype }
        ensures { result ≡ fixed_parts elements self.now.size len validity }
    {
        FixedSizeListArray {
            elements: self.elements.with_column(elements),
            list_size: self.list_size,
            len,
            validity,
        }
    }

    /// Where the elements of row `i` begin and end, of a null row too.
    #[tactic(auto, using(vx_model::proofs::ListRows::fixed_runs))]
    pub fn span_at(&self, i: usize) -> (usize, usize)
        requires { i < length (fixed_spans self.now).spans }
        ensures span { slice_index_or (fixed_spans self.now).spans i (0, 0) ≡ result }
        ensures ordered { result.0 ≤ result.1 }
        ensures within { result.1 ≤ length self.now.elements.rows }
    {
        // the row ends within the elements
        let _ = self.elements().len();
        let size = self.list_size as usize;
        let start = i * size;
        (start, start + size)
    }

    /// Another handle to the same column.
    pub fn share(&self) -> FixedSizeListArray
        ensures { result ≡ self.now }
    {
        self.with_parts(self.elements().share(), self.validity.share(), self.len)
    }

    /// The column of this layout.
    #[tactic(auto, using(vx_model::proofs::ListRows::fixed_rows))]
    pub fn into_array(self) -> Array
        ensures { result ≡ fixed_column self }
    {
        let nullability = self.validity.nullability();
        let dtype = DType::FixedSizeList(self.elements.element(), self.list_size, nullability);
        let len = self.len;
        Array::new(dtype, len, Layout::FixedSizeList(self))
    }
}
