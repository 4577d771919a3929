//! The types of columns.
ghost use Rattle.std.specs.Prelude.{◌≡◌, None, Some, true};
ghost use Rattle.vx_types.specs.DType.{type_of};
ghost use Rattle.vx_types.specs.TypeTree.{with_nullability, also_nullable, is_flat, int_type_of, type_width};
ghost use Rattle.vx_types.specs.Nullability.{is_nullable};
ghost use Rattle.vx_types.specs.Scalar.{has_scalars};

use crate::decimal::DecimalDType;
use crate::element::ElementType;
use crate::extension::ExtDType;
use crate::fields::StructFields;
use crate::nullability::Nullability;
use crate::ptype::PType;
use crate::variants::UnionVariants;
use vx_shared::Shared;

/// The type of a column: Vortex's `DType`.
#[cycle(dtype)]
#[derive(Drop)]
pub enum DType {
    /// Rows that are all null.
    Null,
    /// A bit a row.
    Bool(Nullability),
    /// Numbers of one width, stored as little-endian bytes.
    Primitive(PType, Nullability),
    /// Decimal numbers, stored as little-endian bytes.
    Decimal(DecimalDType, Nullability),
    /// Text, which is printed in quotes.
    Utf8(Nullability),
    /// Bytes of any number.
    Binary(Nullability),
    /// Lists of any number of elements of one type.
    List(ElementType, Nullability),
    /// Lists of so many elements of one type.
    FixedSizeList(ElementType, u32, Nullability),
    /// Lists of entries, each of a key and a value.
    Map(Shared<StructFields>, Nullability),
    /// A row of each field.
    Struct(Shared<StructFields>, Nullability),
    /// A row of one variant.
    Union(Shared<UnionVariants>, Nullability),
    /// A named type over a storage type.
    Extension(Shared<ExtDType>, Nullability),
}

impl DType {
    /// Another handle to the same type.
    pub fn share(&self) -> DType
        ensures { result ≡ self.now }
    {
        match self {
            DType::Null => DType::Null,
            DType::Bool(nullability) => DType::Bool(*nullability),
            DType::Primitive(ptype, nullability) => DType::Primitive(*ptype, *nullability),
            DType::Decimal(decimal, nullability) => DType::Decimal(*decimal, *nullability),
            DType::Utf8(nullability) => DType::Utf8(*nullability),
            DType::Binary(nullability) => DType::Binary(*nullability),
            DType::List(element, nullability) => DType::List(element.share(), *nullability),
            DType::FixedSizeList(element, size, nullability) => {
                DType::FixedSizeList(element.share(), *size, *nullability)
            }
            DType::Map(fields, nullability) => DType::Map(fields.share(), *nullability),
            DType::Struct(fields, nullability) => DType::Struct(fields.share(), *nullability),
            DType::Union(variants, nullability) => DType::Union(variants.share(), *nullability),
            DType::Extension(ext, nullability) => DType::Extension(ext.share(), *nullability),
        }
    }

    /// The outer nullability; `Null` is always nullable.
    pub fn nullability(&self) -> Nullability
        ensures { result ≡ (type_of self.now).nullability }
    {
        match self {
            DType::Null => Nullability::Nullable,
            DType::Bool(nullability)
            | DType::Primitive(_, nullability)
            | DType::Decimal(_, nullability)
            | DType::Utf8(nullability)
            | DType::Binary(nullability)
            | DType::List(_, nullability)
            | DType::FixedSizeList(_, _, nullability)
            | DType::Map(_, nullability)
            | DType::Struct(_, nullability)
            | DType::Union(_, nullability)
            | DType::Extension(_, nullability) => *nullability,
        }
    }

    /// Whether null rows are allowed.
    pub fn is_nullable(&self) -> bool
        ensures { result ≡ is_nullable (type_of self.now).nullability }
    {
        self.nullability().is_nullable()
    }

    /// This type with the outer nullability `n`; `Null` stays as it is.
    pub fn with_nullability(&self, n: Nullability) -> DType
        ensures { type_of result ≡ with_nullability (type_of self.now) n }
    {
        match self {
            DType::Null => DType::Null,
            DType::Bool(_) => DType::Bool(n),
            DType::Primitive(ptype, _) => DType::Primitive(*ptype, n),
            DType::Decimal(decimal, _) => DType::Decimal(*decimal, n),
            DType::Utf8(_) => DType::Utf8(n),
            DType::Binary(_) => DType::Binary(n),
            DType::List(element, _) => DType::List(element.share(), n),
            DType::FixedSizeList(element, size, _) => {
                DType::FixedSizeList(element.share(), *size, n)
            }
            DType::Map(fields, _) => DType::Map(fields.share(), n),
            DType::Struct(fields, _) => DType::Struct(fields.share(), n),
            DType::Union(variants, _) => DType::Union(variants.share(), n),
            DType::Extension(ext, _) => DType::Extension(ext.share(), n),
        }
    }

    /// This type, nullable where it or `n` is.
    pub fn also_nullable(&self, n: Nullability) -> DType
        ensures { type_of result ≡ also_nullable (type_of self.now) n }
    {
        self.with_nullability(self.nullability().or(n))
    }

    /// Whether it is null, bool, primitive or decimal.
    pub fn is_flat(&self) -> bool
        ensures { result ≡ is_flat (type_of self.now) }
    {
        match self {
            DType::Null | DType::Bool(_) | DType::Primitive(..) | DType::Decimal(..) => true,
            _ => false,
        }
    }

    /// Whether it is flat or text: a row is null, a bit or bytes.
    pub fn has_scalars(&self) -> bool
        ensures { result ≡ has_scalars (type_of self.now).kind }
    {
        match self {
            DType::Null | DType::Bool(_) | DType::Primitive(..) | DType::Decimal(..) => true,
            DType::Utf8(_) | DType::Binary(_) => true,
            _ => false,
        }
    }

    /// The primitive type, where it is one of integers.
    pub fn int_type(&self) -> Option<PType>
        ensures { result ≡ int_type_of (type_of self.now) }
    {
        match self {
            DType::Primitive(ptype, _) if ptype.is_int() => Some(*ptype),
            _ => None,
        }
    }

    /// How many bytes a value has; none where the type isn't primitive or decimal.
    pub fn width(&self) -> Option<usize>
        ensures { result ≡ type_width (type_of self.now) }
    {
        match self {
            DType::Primitive(ptype, _) => Some(ptype.width()),
            DType::Decimal(decimal, _) => Some(decimal.width() as usize),
            _ => None,
        }
    }
}
