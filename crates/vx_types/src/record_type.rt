//! Types whose values are stored as records.
ghost use Rattle.std.specs.Prelude.{◌≡◌, true, false, Some, is_some, IfSome};
ghost use Rattle.vx_types.specs.DType.{type_of};
ghost use Rattle.vx_types.specs.Decimal.{is_width};
ghost use Rattle.vx_types.specs.RecordType.{kind_of};
ghost use Rattle.vx_types.specs.TypeTree.{is_bool_kind, kind_width, type_width};

use crate::decimal::DecimalDType;
use crate::dtype::DType;
use crate::nullability::Nullability;
use crate::ptype::PType;

/// The type of a record, without its nullability.
#[derive(Debug, Clone, Copy, PartialEq, Eq)]
pub enum RecordType {
    /// A number of a primitive type.
    Primitive(PType),
    /// A decimal number.
    Decimal(DecimalDType),
}

impl RecordType {
    /// The type of the records of a column of this type; some exactly where it is primitive or
    /// decimal.
    pub fn of(dtype: &DType) -> Option<RecordType>
        ensures kind { IfSome result (λ t. kind_of t ≡ (type_of dtype.now).kind) }
        ensures exactly { is_some result ≡ is_some (type_width (type_of dtype.now)) }
    {
        match dtype {
            DType::Primitive(ptype, _) => Some(RecordType::Primitive(*ptype)),
            DType::Decimal(decimal, _) => Some(RecordType::Decimal(*decimal)),
            _ => None,
        }
    }

    /// How many bytes a record has.
    pub fn width(&self) -> usize
        ensures number { is_bool_kind (kind_of self.now) ≡ false }
        ensures value { kind_width (kind_of self.now) ≡ Some result }
        ensures known { is_width result ≡ true }
    {
        match self {
            RecordType::Primitive(ptype) => ptype.width(),
            RecordType::Decimal(decimal) => decimal.width() as usize,
        }
    }

    /// The type of a column of such records.
    pub fn dtype(&self, nullability: Nullability) -> DType
        ensures { type_of result ≡ record { kind = kind_of self.now; nullability = nullability } }
    {
        match self {
            RecordType::Primitive(ptype) => DType::Primitive(*ptype, nullability),
            RecordType::Decimal(decimal) => DType::Decimal(*decimal, nullability),
        }
    }
}
