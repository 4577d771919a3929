//! Types of columns, as plain values.
//!
//! A contract sees a `DType` by `type_of`, as a tree with no pointers in it
//! (`specs/TypeTree.antt`), and a row by `specs/RowValue.antt`.
#![tactic(auto)]

mod decimal;
mod dtype;
mod element;
mod error;
mod extension;
mod fields;
mod layout_name;
mod nullability;
mod ptype;
mod record_type;
mod row;
mod runs;
mod same;
mod scalar;
mod text;
mod variants;

pub use decimal::DecimalDType;
pub use dtype::DType;
pub use element::ElementType;
pub use error::ColumnError;
pub use extension::ExtDType;
pub use fields::{StructFields, is_entry_type};
pub use layout_name::LayoutName;
pub use nullability::Nullability;
pub use ptype::{PType, record_of};
pub use record_type::RecordType;
pub use row::{ByteList, Row, RowList};
pub use runs::Runs;
pub use scalar::{Scalar, ScalarValue};
pub use text::{BinaryView, InlineBytes, TextKind};
pub use variants::{UnionVariants, is_id_type, variant_of};
