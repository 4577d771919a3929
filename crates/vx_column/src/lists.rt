//! The layouts of lists, taken together.
ghost use Rattle.std.specs.Prelude.{◌≡◌, ◌≤◌, ◌<◌, Some, length, slice_index_or, true};
ghost use Rattle.vx_types.specs.RowValue.{null};
ghost use Rattle.vx_model.specs.Extension.{storage_kind};
ghost use Rattle.vx_model.specs.Lists.{elements_type, lists_column};
ghost use Rattle.vx_model.specs.Valid.{is_fitting};
ghost use Rattle.vx_column.specs.Cell.{cell_depth, row_of, IsOfType};
ghost use Rattle.vx_column.specs.Lists.{spans_of};
ghost use Rattle.vx_column.specs.Validity.{valid_of};

use crate::array::ArrayRef;
use crate::cell::{Cell, ListCell};
use crate::fixed_size_list::FixedSizeListArray;
use crate::list::ListArray;
use crate::listview::ListViewArray;
use crate::map::MapArray;
use crate::validity::Validity;

/// A borrowed column of a layout of lists: a row is the elements of a span.
#[derive(Clone, Copy)]
pub enum Lists<'a> {
    /// Cut by offsets.
    List(&'a ListArray),
    /// An offset and a size a row.
    View(&'a ListViewArray),
    /// Lists of one size.
    Fixed(&'a FixedSizeListArray),
    /// Lists of entries.
    Map(&'a MapArray),
}

impl<'a> Lists<'a> {
    /// How many rows it has.
    pub fn len(self) -> usize
        ensures { result ≡ length (spans_of self.entry).spans }
    {
        match self {
            Lists::List(array) => array.len(),
            Lists::View(array) => array.len(),
            Lists::Fixed(array) => array.len(),
            Lists::Map(array) => array.entries().len(),
        }
    }

    /// The column that has the elements of all rows.
    #[tactic(auto, using(crate::proofs::Fields::typed))]
    pub fn elements(self) -> &'a ArrayRef
        ensures value { result.now ≡ (spans_of self.entry).elements }
        ensures typed { elements_type (storage_kind (spans_of self.entry).kind)
            ≡ Some (spans_of self.entry).elements.dtype }
    {
        match self {
            Lists::List(array) => array.elements(),
            Lists::View(array) => array.elements(),
            Lists::Fixed(array) => array.elements(),
            Lists::Map(array) => array.entries().elements(),
        }
    }

    /// Which rows are valid.
    #[tactic(auto, using(vx_model::proofs::ListRows::list_rows, vx_model::proofs::ListRows::listview_rows, vx_model::proofs::ListRows::fixed_rows))]
    pub fn validity(self) -> &'a Validity
        ensures value { valid_of result.now ≡ (spans_of self.entry).valid }
        ensures fitting { is_fitting (spans_of self.entry).valid
            (length (spans_of self.entry).spans) ≡ true }
    {
        match self {
            Lists::List(array) => array.validity(),
            Lists::View(array) => array.validity(),
            Lists::Fixed(array) => array.validity(),
            Lists::Map(array) => array.entries().validity(),
        }
    }

    /// Where the elements of row `i` begin and end, of a null row too.
    pub fn span_at(self, i: usize) -> (usize, usize)
        requires { i < length (spans_of self).spans }
        ensures span { slice_index_or (spans_of self.entry).spans i (0, 0) ≡ result }
        ensures ordered { result.0 ≤ result.1 }
        ensures within { result.1 ≤ length (spans_of self.entry).elements.rows }
    {
        match self {
            Lists::List(array) => array.span_at(i),
            Lists::View(array) => array.span_at(i),
            Lists::Fixed(array) => array.span_at(i),
            Lists::Map(array) => array.entries().span_at(i),
        }
    }

    /// Row `i`.
    #[cycle(cell)]
    #[tactic(auto, using(vx_model::proofs::ListRows::any_lists, vx_model::proofs::Layouts::absent_nullable, crate::proofs::Cells::there))]
    pub(crate) fn cell_at(self, i: usize) -> Cell<'a>
        requires { i < length (lists_column (spans_of self)).rows }
        ensures row { row_of result
            ≡ slice_index_or (lists_column (spans_of self.entry)).rows i null }
        ensures of_type { IsOfType result (lists_column (spans_of self.entry)).dtype }
        ensures nested { cell_depth result < (lists_column (spans_of self.entry)).depth }
    {
        let validity = self.validity();
        if validity.is_valid_at(i) {
            let (start, end) = self.span_at(i);
            let elements = self.elements();
            Cell::List(ListCell {
                elements,
                start,
                end,
            })
        } else {
            Cell::Null
        }
    }
}
