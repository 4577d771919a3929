//! Columns of any layout.
ghost use Rattle.std.specs.Prelude.{◌≡◌, length, true, IfOk};
ghost use Rattle.vx_types.specs.DType.{type_of};
ghost use Rattle.vx_types.specs.TypeTree.{is_carried, is_flat};
ghost use Rattle.vx_column.specs.Layout.{column_of};

use crate::boolean::BoolArray;
use crate::constant::ConstantArray;
use crate::decimal::DecimalArray;
use crate::dict::DictArray;
use crate::extension::ExtensionArray;
use crate::filter::FilterArray;
use crate::fixed_size_list::FixedSizeListArray;
use crate::list::ListArray;
use crate::listview::ListViewArray;
use crate::map::MapArray;
use crate::null::NullArray;
use crate::primitive::PrimitiveArray;
use crate::struct_::StructArray;
use crate::union_::UnionArray;
use crate::varbin::VarBinArray;
use crate::varbinview::VarBinViewArray;
use std::alloc::Global;
use std::marker::Model;
use vx_bits::NoMemory;
use vx_shared::Shared;
use vx_types::DType;

/// A shared column: Vortex's `ArrayRef`.
pub type ArrayRef = Shared<Array>;

/// A column: a type, and rows in one of the layouts. Vortex's `Array`.
#[cycle(array)]
pub struct Array {
    dtype: DType,
    len: usize,
    layout: Layout,
}

/// How the rows of a column are stored.
#[cycle(array)]
#[derive(Drop)]
pub enum Layout {
    /// Rows that are all null.
    Null(NullArray),
    /// A bit a row.
    Bool(BoolArray),
    /// A record of a primitive type a row.
    Primitive(PrimitiveArray),
    /// A record of a decimal number a row.
    Decimal(DecimalArray),
    /// Texts that stand one after another, cut by offsets.
    VarBin(VarBinArray),
    /// A view of its text a row.
    VarBinView(VarBinViewArray),
    /// Lists of one column's elements, cut by offsets.
    List(ListArray),
    /// Lists of one column's elements, by an offset and a size a row.
    ListView(ListViewArray),
    /// Lists of one column's elements, of one size.
    FixedSizeList(FixedSizeListArray),
    /// List views of entries, each a struct of a key and a value.
    Map(MapArray),
    /// Columns side by side, each a field.
    Struct(StructArray),
    /// For each row an id, and a row of the column of its variant.
    Union(UnionArray),
    /// A storage column under a name.
    Extension(ExtensionArray),
    /// One value for every row.
    Constant(ConstantArray),
    /// For each row a code that names one of the values.
    Dict(DictArray),
    /// The rows of a child at the set positions of a mask.
    Filter(FilterArray),
}

impl Model for Array {
    ghost use Rattle.vx_model.specs.Column.{Column};
    ghost use Rattle.vx_model.specs.ColumnCode.{coded_column};

    ghost Value = { Column };

    ghost coded = { coded_column };

    ghost use Rattle.std.proofs.Common.{arith};
    ghost use Rattle.vx_column.specs.Layout.{column_of};
    ghost use Rattle.vx_column.specs.Typed.{IsTyped};

    ghost view = { λ a. column_of a.layout };

    ghost invariant = { λ a. IsTyped a.dtype a.len (column_of a.layout) };

    ghost size = { λ c. c.depth };

    ghost size_decreases = { λ a h. Prim.grind arith };
}

// Written out, so that a function that drops an `Array` calls it; a derived one would be opened
// there, layout by layout.
impl Drop for Array {
    #[cycle(drops)]
    fn drop(self) {
        let Array {
            dtype: _,
            len: _,
            layout,
        } = self;
        drop(layout)
    }
}

impl Layout {
    /// Another handle to the same layout.
    pub fn share(&self) -> Layout
        ensures { result ≡ self.now }
    {
        match self {
            Layout::Null(a) => Layout::Null(a.share()),
            Layout::Bool(a) => Layout::Bool(a.share()),
            Layout::Primitive(a) => Layout::Primitive(a.share()),
            Layout::Decimal(a) => Layout::Decimal(a.share()),
            Layout::VarBin(a) => Layout::VarBin(a.share()),
            Layout::VarBinView(a) => Layout::VarBinView(a.share()),
            Layout::List(a) => Layout::List(a.share()),
            Layout::ListView(a) => Layout::ListView(a.share()),
            Layout::FixedSizeList(a) => Layout::FixedSizeList(a.share()),
            Layout::Map(a) => Layout::Map(a.share()),
            Layout::Struct(a) => Layout::Struct(a.share()),
            Layout::Union(a) => Layout::Union(a.share()),
            Layout::Extension(a) => Layout::Extension(a.share()),
            Layout::Constant(a) => Layout::Constant(a.share()),
            Layout::Dict(a) => Layout::Dict(a.share()),
            Layout::Filter(a) => Layout::Filter(a.share()),
        }
    }
}

impl Array {
    /// The column of this layout, which is of this type and has so many rows.
    pub(crate) fn new(dtype: DType, len: usize, layout: Layout) -> Array
        requires typed { type_of dtype ≡ (column_of layout).dtype }
        requires long { len ≡ length (column_of layout).rows }
        requires carried { is_carried (column_of layout).dtype ≡ true }
        ensures { result ≡ column_of layout }
    {
        Array { dtype, len, layout }
    }

    /// Its type, which is one that a column may have.
    pub fn dtype(&self) -> &DType
        ensures value { type_of result.now ≡ self.now.dtype }
        ensures carried { is_carried self.now.dtype ≡ true }
    {
        &self.dtype
    }

    /// How many rows it has.
    pub fn len(&self) -> usize
        ensures { result ≡ length self.now.rows }
    {
        self.len
    }

    /// How its rows are stored.
    pub fn layout(&self) -> &Layout
        ensures { column_of result.now ≡ self.now }
    {
        &self.layout
    }

    /// Whether its type is null, bool, primitive or decimal.
    pub fn is_flat(&self) -> bool
        ensures { result ≡ is_flat self.now.dtype }
    {
        self.dtype.is_flat()
    }

    /// Another handle to the same column.
    pub fn share(&self) -> Array
        ensures { result ≡ self.now }
    {
        Array {
            dtype: self.dtype.share(),
            len: self.len,
            layout: self.layout.share(),
        }
    }

    /// The column behind a counted pointer. Fails only with `NoMemory`.
    pub fn into_ref(self, alloc: Global) -> Result<ArrayRef, NoMemory>
        ensures { IfOk result (λ r. r ≡ self) }
    {
        Ok(Shared::new(alloc, self)?)
    }
}
