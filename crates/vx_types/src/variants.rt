//! The variants of a union type.
ghost use Rattle.std.specs.Prelude.{◌≡◌, None, map, IfOk};
ghost use Rattle.vx_bits.specs.Results.{FailsBy};
ghost use Rattle.vx_types.specs.DType.{type_of};
ghost use Rattle.vx_types.specs.Fields.{names_of};
ghost use Rattle.vx_types.specs.Same.{are_same_variants};
ghost use Rattle.vx_types.specs.Variants.{are_distinct, index_of, is_id_type, variants_fault, variants_of};

use crate::dtype::DType;
use crate::error::ColumnError;
use crate::ptype::PType;
use crate::same::{are_same_bytes, are_same_names, are_same_types};
use std::alloc::Global;
use std::marker::Model;
use std::rc::RcStr;
use vx_shared::Shared;

/// The ids, names and types of the variants of a union: Vortex's `UnionVariants`. There is at
/// least one, and no id occurs twice.
#[cycle(dtype)]
#[derive(Drop)]
pub struct UnionVariants {
    ids: Vec<u8>,
    names: Vec<RcStr>,
    types: Vec<DType>,
}

impl Model for UnionVariants {
    ghost use Rattle.vx_types.specs.FieldTypes.{VariantTypes, coded_variants};

    ghost Value = { VariantTypes };

    ghost coded = { coded_variants };

    ghost use Rattle.std.specs.Prelude.{◌≡◌, None, map};
    ghost use Rattle.vx_types.specs.DType.{type_of};
    ghost use Rattle.vx_types.specs.Fields.{names_of};
    ghost use Rattle.vx_types.specs.TypeTree.{types_of, types_size};
    ghost use Rattle.vx_types.specs.Variants.{variants_fault};

    ghost view = { λ v. record {
      ids = v.ids.items;
      names = names_of v.names.items;
      types = map type_of v.types.items;
    } };

    ghost invariant = { λ v. variants_fault (record {
      ids = v.ids.items;
      names = names_of v.names.items;
      types = map type_of v.types.items;
    }) ≡ None };

    ghost size = { λ v. types_size (types_of v.types) };

    ghost use Rattle.std.proofs.Common.{arith};
    ghost use Rattle.vx_types.specs.Nesting.{most_le};

    ghost size_decreases = { λ a h. omega (arith, most_le a.types.items) };
}

// Whether no id occurs twice.
#[tactic(auto, using(crate::proofs::Ids::apart))]
fn are_distinct(ids: &[u8]) -> bool
    ensures { result ≡ are_distinct ids.now }
{
    for i in 0..ids.len() {
        if ids[i + 1..].contains(&ids[i]) {
            return false;
        }
    }
    true
}

impl UnionVariants {
    /// Variants of these ids, names and types.
    ///
    /// `WrongLength` exactly where their numbers differ or there is none; else `BadTypeId` exactly
    /// where an id occurs twice; otherwise only `NoMemory`.
    pub fn try_new(
        alloc: Global,
        ids: Vec<u8>,
        names: Vec<RcStr>,
        types: Vec<DType>,
    ) -> Result<Shared<UnionVariants>, ColumnError>
        ensures made { IfOk result (λ v. v ≡ variants_of ids names types) }
        ensures refusal { FailsBy result (variants_fault (variants_of ids names types))
            ColumnError.NoMemory }
    {
        if ids.len() != names.len() || names.len() != types.len() || ids.is_empty() {
            return Err(ColumnError::WrongLength);
        }
        if !are_distinct(&ids) {
            return Err(ColumnError::BadTypeId);
        }
        match Shared::new(alloc, UnionVariants { ids, names, types }) {
            Ok(variants) => Ok(variants),
            Err(_) => Err(ColumnError::NoMemory),
        }
    }

    /// The variants' types, in order.
    pub fn types(&self) -> &[DType]
        ensures value { map type_of result.now ≡ self.now.types }
        ensures valid { variants_fault self.now ≡ None }
    {
        &self.types
    }

    /// The variants' names, in order.
    pub fn names(&self) -> &[RcStr]
        ensures value { names_of result.now ≡ self.now.names }
        ensures valid { variants_fault self.now ≡ None }
    {
        &self.names
    }

    /// The variants' ids, in order.
    pub fn ids(&self) -> &[u8]
        ensures value { result.now ≡ self.now.ids }
        ensures valid { variants_fault self.now ≡ None }
    {
        &self.ids
    }

    /// Whether ids, names and types are the same, in order.
    #[cycle(same)]
    pub(crate) fn is_same(&self, other: &UnionVariants) -> bool
        ensures { result ≡ are_same_variants self.now other.now }
    {
        are_same_bytes(&self.ids, &other.ids)
            && are_same_names(&self.names, &other.names)
            && are_same_types(&self.types, &other.types)
    }
}

/// Whether it is the type of ids: unsigned integers of one byte.
pub fn is_id_type(dtype: &DType) -> bool
    ensures { result ≡ is_id_type (type_of dtype.now) }
{
    matches!(dtype, DType::Primitive(PType::U8, _))
}

/// The place of the variant of this id among the variants.
#[tactic(auto, using(crate::proofs::Places::places))]
pub fn variant_of(ids: &[u8], id: u8) -> Option<usize>
    ensures { result ≡ index_of ids.now id }
{
    for k in 0..ids.len() {
        if ids[k] == id {
            return Some(k);
        }
    }
    None
}
