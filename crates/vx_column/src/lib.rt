//! Columns: layouts, the constructors that refuse, and readers of one row.
//!
//! A contract sees an `Array` as a `Column` of `vx_model`: its type, its rows, and how it stores
//! them.
#![tactic(auto)]

mod array;
mod boolean;
mod cell;
mod columns;
mod constant;
mod decimal;
mod dict;
mod elements;
mod extension;
mod filter;
mod fixed_size_list;
mod list;
mod lists;
mod listview;
mod map;
mod null;
mod numbers;
mod offsets;
mod plain;
mod positions;
mod primitive;
mod records;
mod struct_;
mod union_;
mod union_check;
mod validity;
mod varbin;
mod varbinview;

pub use array::{Array, ArrayRef, Layout};
pub use boolean::BoolArray;
pub use cell::{Cell, FieldsCell, ListCell, TaggedCell};
pub use columns::Columns;
pub use constant::ConstantArray;
pub use decimal::DecimalArray;
pub use dict::DictArray;
pub use extension::ExtensionArray;
pub use filter::FilterArray;
pub use fixed_size_list::FixedSizeListArray;
pub use list::ListArray;
pub use lists::Lists;
pub use listview::ListViewArray;
pub use map::MapArray;
pub use null::NullArray;
pub use offsets::{number_column, slice_offsets};
pub use primitive::PrimitiveArray;
pub use records::{RecordArray, record_column};
pub use struct_::StructArray;
pub use union_::UnionArray;
pub use validity::Validity;
pub use varbin::VarBinArray;
pub use varbinview::VarBinViewArray;
pub use vx_types::{
    BinaryView, ByteList, ColumnError, DType, DecimalDType, ElementType, ExtDType, InlineBytes,
    LayoutName, Nullability, PType, RecordType, Row, RowList, Runs, Scalar, ScalarValue,
    StructFields, TextKind, UnionVariants, match_each_integer_ptype, record_of,
};
