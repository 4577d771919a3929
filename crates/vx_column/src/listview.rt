//! Layout `ListView`: lists that each have an offset and a size.
ghost use Rattle.std.specs.Prelude.{◌≡◌, ◌≤◌, ◌<◌, None, length, slice_index_or, IfOk};
ghost use Rattle.vx_bits.specs.Results.{FailsBy};
ghost use Rattle.vx_offsets.specs.Offsets.{offset_positions};
ghost use Rattle.vx_model.specs.ListView.{listview_column, listview_fault, listview_spans};
ghost use Rattle.vx_model.specs.Numbers.{integers_of};
ghost use Rattle.vx_column.specs.ListParts.{listview_parts};
ghost use Rattle.vx_column.specs.Part.{IsPart};
ghost use Rattle.vx_column.specs.Validity.{valid_of};

use crate::array::{Array, ArrayRef, Layout};
use crate::elements::Elements;
use crate::offsets::{are_integers, are_natural, are_views, integer_at, position_at};
use crate::primitive::PrimitiveArray;
use crate::validity::Validity;
use std::alloc::Global;
use std::marker::Model;
use vx_types::{ColumnError, DType};

/// A column of lists of one column's elements, each as many as its size from its offset on:
/// Vortex's `ListViewArray`.
#[cycle(array)]
#[derive(Drop)]
pub struct ListViewArray {
    elements: Elements,
    offsets: PrimitiveArray,
    sizes: PrimitiveArray,
    validity: Validity,
}

impl Model for ListViewArray {
    ghost use Rattle.vx_model.specs.ListView.{ListViewParts, coded_listview};

    ghost Value = { ListViewParts };

    ghost coded = { coded_listview };

    ghost use Rattle.std.specs.Prelude.{◌≡◌, ◌+◌, None, max};
    ghost use Rattle.std.proofs.Common.{arith};
    ghost use Rattle.vx_model.specs.ListView.{listview_fault};
    ghost use Rattle.vx_model.specs.Valid.{valid_size};
    ghost use Rattle.vx_column.specs.ListParts.{listview_parts};

    ghost view = { λ a. listview_parts a.elements a.offsets a.sizes a.validity };

    ghost invariant = { λ a.
        listview_fault (listview_parts a.elements a.offsets a.sizes a.validity) ≡ None };

    ghost size = { λ p. max p.elements.depth (valid_size p.valid) + 2 };

    ghost size_decreases = { λ a h. Prim.grind arith };
}

impl ListViewArray {
    /// A column with one row an offset: as many elements as its size, from the offset on.
    ///
    /// `WrongType` exactly where the offsets or the sizes aren't a non-nullable column of integers.
    /// Else `WrongLength` exactly where these aren't as many. Else `BadValidity` exactly where the
    /// validity can't be that of so many rows. Else `BadOffsets` exactly where an offset is
    /// negative. Else `BadSizes` exactly where a size is negative or passes the elements, in a null
    /// row too. Otherwise it fails only with `NoMemory`.
    pub fn try_new(
        alloc: Global,
        elements: ArrayRef,
        offsets: PrimitiveArray,
        sizes: PrimitiveArray,
        validity: Validity,
    ) -> Result<ListViewArray, ColumnError>
        ensures made { IfOk result (λ a. a ≡ listview_parts elements offsets sizes validity) }
        ensures refusal { FailsBy result
            (listview_fault (listview_parts elements offsets sizes validity))
            ColumnError.NoMemory }
    {
        if let Some(fault) = fault_of(&elements, &offsets, &sizes, &validity) {
            return Err(fault);
        }
        Ok(ListViewArray {
            elements: Elements::new(alloc, elements)?,
            offsets,
            sizes,
            validity,
        })
    }

    /// Other sound parts, of which the elements have the same type: what a step leaves. It doesn't
    /// test what it requires; `try_new` does.
    pub fn with_parts(
        &self,
        elements: ArrayRef,
        offsets: PrimitiveArray,
        sizes: PrimitiveArray,
        validity: Validity,
    ) -> ListViewArray
        requires valid { listview_fault (listview_parts elements offsets sizes validity) ≡ None }
        requires dtype { elements.dtype ≡ self.now.elements.dtype }
        ensures { result ≡ listview_parts elements offsets sizes validity }
    {
        ListViewArray {
            elements: self.elements.with_column(elements),
            offsets,
            sizes,
            validity,
        }
    }

    /// The column that has the elements of all rows.
    pub fn elements(&self) -> &ArrayRef
        ensures { IsPart (listview_fault self.now) result.now self.now.elements }
    {
        self.elements.column()
    }

    /// Where the elements of each row begin.
    pub fn offsets(&self) -> &PrimitiveArray
        ensures { IsPart (listview_fault self.now) result.now self.now.offsets }
    {
        &self.offsets
    }

    /// How many elements each row has.
    pub fn sizes(&self) -> &PrimitiveArray
        ensures { IsPart (listview_fault self.now) result.now self.now.sizes }
    {
        &self.sizes
    }

    /// Which rows are valid.
    pub fn validity(&self) -> &Validity
        ensures { IsPart (listview_fault self.now) (valid_of result.now) self.now.valid }
    {
        &self.validity
    }

    /// How many rows it has.
    #[tactic(auto, using(vx_model::proofs::ListRows::listview_rows))]
    pub fn len(&self) -> usize
        ensures { result ≡ length (listview_spans self.now).spans }
    {
        // there is a span for each offset
        let _ = self.elements();
        self.offsets.values().len()
    }

    // Where the elements of row `i` begin.
    #[tactic(auto, using(vx_model::proofs::ListRows::listview_offsets))]
    fn offset_at(&self, i: usize) -> usize
        requires { i < length (listview_spans self.now).spans }
        ensures { result ≡ slice_index_or (offset_positions (integers_of self.now.offsets)) i 0 }
    {
        position_at(&self.offsets, i, self.elements().len())
    }

    // How many elements row `i` has.
    #[tactic(auto, using(vx_model::proofs::ListRows::listview_offsets))]
    fn size_at(&self, i: usize) -> usize
        requires { i < length (listview_spans self.now).spans }
        ensures { result ≡ slice_index_or (offset_positions (integers_of self.now.sizes)) i 0 }
    {
        // its sizes are integers, none of them negative or past the elements
        let _ = self.elements().len();
        integer_at(&self.sizes, i) as usize
    }

    /// Where the elements of row `i` begin and end, of a null row too.
    #[tactic(auto, using(vx_model::proofs::ListRows::listview_offsets))]
    pub fn span_at(&self, i: usize) -> (usize, usize)
        requires { i < length (listview_spans self.now).spans }
        ensures span { slice_index_or (listview_spans self.now).spans i (0, 0) ≡ result }
        ensures ordered { result.0 ≤ result.1 }
        ensures within { result.1 ≤ length self.now.elements.rows }
    {
        // the row ends within the elements
        let _ = self.elements().len();
        let start = self.offset_at(i);
        let size = self.size_at(i);
        (start, start + size)
    }

    /// Another handle to the same column.
    pub fn share(&self) -> ListViewArray
        ensures { result ≡ self.now }
    {
        self.with_parts(
            self.elements().share(),
            self.offsets.share(),
            self.sizes.share(),
            self.validity.share(),
        )
    }

    /// The column of this layout.
    #[tactic(auto, using(vx_model::proofs::ListRows::listview_rows))]
    pub fn into_array(self) -> Array
        ensures { result ≡ listview_column self }
    {
        let dtype = DType::List(self.elements.element(), self.validity.nullability());
        let len = self.len();
        Array::new(dtype, len, Layout::ListView(self))
    }
}

// Why the parts are no column, the first that holds.
fn fault_of(
    elements: &Array,
    offsets: &PrimitiveArray,
    sizes: &PrimitiveArray,
    validity: &Validity,
) -> Option<ColumnError>
    ensures { result
        ≡ listview_fault (listview_parts elements.now offsets.now sizes.now validity.now) }
{
    if !are_integers(offsets) {
        return Some(ColumnError::WrongType);
    }
    if !are_integers(sizes) {
        return Some(ColumnError::WrongType);
    }
    if offsets.values().len() != sizes.values().len() {
        return Some(ColumnError::WrongLength);
    }
    if !validity.is_fitting(offsets.values().len()) {
        return Some(ColumnError::BadValidity);
    }
    if !are_natural(offsets) {
        return Some(ColumnError::BadOffsets);
    }
    if !are_natural(sizes) {
        return Some(ColumnError::BadSizes);
    }
    if !are_views(offsets, sizes, elements.len()) {
        return Some(ColumnError::BadSizes);
    }
    None
}
