//! Whether two types are one.
ghost use Rattle.std.specs.Bool.{Decides};
ghost use Rattle.std.specs.Cmp.{on_per};
ghost use Rattle.std.specs.Prelude.{◌≡◌, map};
ghost use Rattle.vx_types.specs.DType.{type_of};
ghost use Rattle.vx_types.specs.Fields.{names_of};
ghost use Rattle.vx_types.specs.PType.{is_same_ptype};
ghost use Rattle.vx_types.specs.Same.{are_same_bytes, are_same_names, are_same_types, is_same_kind, is_same_nullability, is_same_type};
ghost use Rattle.vx_types.specs.SameLaws.{type_per};

use crate::dtype::DType;
use crate::nullability::Nullability;
use crate::ptype::PType;
use std::rc::RcStr;

impl Nullability {
    /// Whether both have nulls, or neither has.
    pub(crate) fn is_same(self, other: Nullability) -> bool
        ensures { result ≡ is_same_nullability self other }
    {
        self.is_nullable() == other.is_nullable()
    }
}

impl PType {
    fn is_same(self, other: PType) -> bool
        ensures { result ≡ is_same_ptype self other }
    {
        match self {
            PType::U8 => matches!(other, PType::U8),
            PType::U16 => matches!(other, PType::U16),
            PType::U32 => matches!(other, PType::U32),
            PType::U64 => matches!(other, PType::U64),
            PType::I8 => matches!(other, PType::I8),
            PType::I16 => matches!(other, PType::I16),
            PType::I32 => matches!(other, PType::I32),
            PType::I64 => matches!(other, PType::I64),
            PType::F16 => matches!(other, PType::F16),
            PType::F32 => matches!(other, PType::F32),
            PType::F64 => matches!(other, PType::F64),
        }
    }
}

/// Whether the bytes are the same.
pub(crate) fn are_same_bytes(xs: &[u8], ys: &[u8]) -> bool
    ensures { result ≡ are_same_bytes xs.now ys.now }
{
    xs == ys
}

/// Whether the names are the same, in order.
#[tactic(auto, using(crate::proofs::Alike::names_apart))]
pub(crate) fn are_same_names(xs: &[RcStr], ys: &[RcStr]) -> bool
    ensures { result ≡ are_same_names (names_of xs.now) (names_of ys.now) }
{
    xs == ys
}

/// Whether the types are the same, in order.
#[cycle(same)]
#[tactic(auto, using(crate::proofs::Alike::alike))]
pub(crate) fn are_same_types(xs: &[DType], ys: &[DType]) -> bool
    ensures { result ≡ are_same_types (map type_of xs.now) (map type_of ys.now) }
{
    if xs.len() != ys.len() {
        return false;
    }
    for i in 0..xs.len() {
        if !xs[i].is_same_kind(&ys[i]) {
            return false;
        }
        if !xs[i].nullability().is_same(ys[i].nullability()) {
            return false;
        }
    }
    true
}

impl DType {
    /// Whether the two are one type but for their outer nullability.
    #[cycle(same)]
    pub(crate) fn is_same_kind(&self, other: &DType) -> bool
        ensures { result ≡ is_same_kind (type_of self.now).kind (type_of other.now).kind }
    {
        match (self, other) {
            (DType::Null, DType::Null)
            | (DType::Bool(_), DType::Bool(_))
            | (DType::Utf8(_), DType::Utf8(_))
            | (DType::Binary(_), DType::Binary(_)) => true,
            (DType::Primitive(p, _), DType::Primitive(q, _)) => p.is_same(*q),
            (DType::Decimal(d, _), DType::Decimal(e, _)) => {
                d.precision() == e.precision() && d.scale() == e.scale() && d.width() == e.width()
            }
            (DType::List(t, _), DType::List(u, _)) => t.is_same(u),
            (DType::FixedSizeList(t, n, _), DType::FixedSizeList(u, m, _)) => {
                t.is_same(u) && *n == *m
            }
            (DType::Map(f, _), DType::Map(g, _)) => f.is_same(g),
            (DType::Struct(f, _), DType::Struct(g, _)) => f.is_same(g),
            (DType::Union(v, _), DType::Union(w, _)) => v.is_same(w),
            (DType::Extension(e, _), DType::Extension(f, _)) => e.is_same(f),
            _ => false,
        }
    }

    fn is_same(&self, other: &DType) -> bool
        ensures { result ≡ is_same_type (type_of self.now) (type_of other.now) }
    {
        self.is_same_kind(other) && self.nullability().is_same(other.nullability())
    }

    /// Whether the two are one type: Vortex's `==`.
    #[tactic(auto, using(crate::specs::SameLaws::type_decides))]
    pub fn same(&self, other: &DType) -> bool
        ensures { Decides result (type_of self.now ≡ type_of other.now) }
    {
        self.is_same(other)
    }

    /// Whether the two are one type but for their outer nullability: Vortex's
    /// `eq_ignore_nullability`, of the outer one alone.
    #[tactic(auto, using(crate::specs::SameLaws::kind_decides))]
    pub fn same_kind(&self, other: &DType) -> bool
        ensures { Decides result ((type_of self.now).kind ≡ (type_of other.now).kind) }
    {
        self.is_same_kind(other)
    }
}

impl PartialEq for DType {
    ghost eq = { λ x y. is_same_type (type_of x) (type_of y) };

    ghost laws = { on_per type_of type_per };

    fn eq(&self, other: &DType) -> bool {
        self.is_same(other)
    }
}
