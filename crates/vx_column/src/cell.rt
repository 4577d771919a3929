//! One row as it is stored: the one walk that every reader of a row takes.
ghost use Rattle.std.specs.Prelude.{◌≡◌, ◌↔◌, ◌<◌, None, true, length, slice_index_or};
ghost use Rattle.vx_types.specs.RowValue.{null};
ghost use Rattle.vx_model.specs.Column.{Column};
ghost use Rattle.vx_model.specs.Numbers.{number_in};
ghost use Rattle.vx_types.specs.DType.{type_of};
ghost use Rattle.vx_types.specs.TypeTree.{is_int_type};
ghost use Rattle.vx_types.specs.Nullability.{is_nullable};
ghost use Rattle.vx_column.specs.Cell.{cell_depth, row_of, IsOfType};

use crate::array::{Array, Layout};
use crate::columns::Columns;
use crate::lists::Lists;
use vx_types::DType;

/// The rows of a column from `start` up to `end`.
#[derive(Clone, Copy)]
pub struct ListCell<'a> {
    /// The column.
    pub elements: &'a Array,
    /// The first row.
    pub start: usize,
    /// One past the last row.
    pub end: usize,
}

/// A row of each of some columns.
#[derive(Clone, Copy)]
pub struct FieldsCell<'a> {
    /// The columns, one a field.
    pub columns: &'a Columns,
    /// The row.
    pub row: usize,
}

/// A row of a column under the id of a variant.
#[derive(Clone, Copy)]
pub struct TaggedCell<'a> {
    /// The id.
    pub id: u8,
    /// The column.
    pub column: &'a Array,
    /// The row.
    pub row: usize,
}

/// A row of a column, borrowed from where it is stored.
#[derive(Clone, Copy)]
pub enum Cell<'a> {
    /// A null row.
    Null,
    /// A row of a column of bools.
    Bit(bool),
    /// A row's record or text.
    Bytes(&'a [u8]),
    /// A list's elements.
    List(ListCell<'a>),
    /// A struct's fields.
    Fields(FieldsCell<'a>),
    /// A union's id and its variant's row.
    Tagged(TaggedCell<'a>),
}

impl Cell<'_> {
    /// The number that it holds, as a row of a column of this integer type; none exactly at a null.
    pub(crate) fn number(self, dtype: &DType) -> Option<i128>
        requires int { is_int_type (type_of dtype.now) ≡ true }
        requires of_type { IsOfType self (type_of dtype.now) }
        ensures value { result ≡ number_in (type_of dtype.now).kind (row_of self.entry) }
        ensures null { (result ≡ None) ↔ (row_of self.entry ≡ null) }
        ensures nullable { result ≡ None
            → is_nullable (type_of dtype.now).nullability ≡ true }
    {
        match self {
            Cell::Null => None,
            Cell::Bytes(bytes) => match dtype {
                DType::Primitive(ptype, _) => Some(ptype.number(bytes)),
                _ => unreachable!(),
            },
            Cell::Bit(_) | Cell::List(_) | Cell::Fields(_) | Cell::Tagged(_) => unreachable!(),
        }
    }
}

/// A layout that reads a row of its own.
pub(crate) trait ReadRow {
    // the column of the layout
    ghost column: { Self → Column };

    // Row `i`.
    fn cell_at(&self, i: usize) -> Cell<'_>
        requires { i < length (column self.now).rows }
        ensures row { row_of result ≡ slice_index_or (column self.now).rows i null }
        ensures of_type { IsOfType result (column self.now).dtype }
        ensures nested { cell_depth result < (column self.now).depth };
}

impl Array {
    /// Row `i`.
    #[cycle(cell)]
    #[tactic(auto, using(vx_model::proofs::Layouts::layout_rows))]
    pub fn cell_at(&self, i: usize) -> Cell<'_>
        requires { i < length self.now.rows }
        ensures row { row_of result ≡ slice_index_or self.now.rows i null }
        ensures of_type { IsOfType result self.now.dtype }
        ensures nested { cell_depth result < self.now.depth }
    {
        match self.layout() {
            Layout::Null(_) => Cell::Null,
            Layout::Bool(a) => a.cell_at(i),
            Layout::Primitive(a) => a.rows().cell_at(i),
            Layout::Decimal(a) => a.rows().cell_at(i),
            Layout::VarBin(a) => a.cell_at(i),
            Layout::VarBinView(a) => a.cell_at(i),
            Layout::List(a) => Lists::List(a).cell_at(i),
            Layout::ListView(a) => Lists::View(a).cell_at(i),
            Layout::FixedSizeList(a) => Lists::Fixed(a).cell_at(i),
            Layout::Map(a) => Lists::Map(a).cell_at(i),
            Layout::Struct(a) => a.cell_at(i),
            Layout::Union(a) => a.cell_at(i),
            Layout::Extension(a) => a.cell_at(i),
            Layout::Constant(a) => a.cell_at(i),
            Layout::Dict(a) => a.cell_at(i),
            Layout::Filter(a) => a.cell_at(i),
        }
    }
}
