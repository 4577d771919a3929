//! The fields of a struct type.
ghost use Rattle.std.specs.Prelude.{◌≡◌, None, map, IfOk};
ghost use Rattle.vx_bits.specs.Results.{FailsBy};
ghost use Rattle.vx_types.specs.DType.{type_of};
ghost use Rattle.vx_types.specs.Fields.{fields_fault, fields_of, names_of};
ghost use Rattle.vx_types.specs.Same.{are_same_fields};
ghost use Rattle.vx_types.specs.TypeTree.{are_entries, is_entry_type, types_of};

use crate::dtype::DType;
use crate::error::ColumnError;
use crate::same::{are_same_names, are_same_types};
use std::alloc::Global;
use std::marker::Model;
use std::rc::RcStr;
use vx_shared::Shared;

/// The names and types of the fields of a struct, or of a map's entries: Vortex's `StructFields`.
/// Names may repeat.
#[cycle(dtype)]
#[derive(Drop)]
pub struct StructFields {
    names: Vec<RcStr>,
    types: Vec<DType>,
}

impl Model for StructFields {
    ghost use Rattle.vx_types.specs.FieldTypes.{FieldTypes, coded_fields};

    ghost Value = { FieldTypes };

    ghost coded = { coded_fields };

    ghost use Rattle.std.specs.Prelude.{◌≡◌, None, map};
    ghost use Rattle.vx_types.specs.DType.{type_of};
    ghost use Rattle.vx_types.specs.Fields.{fields_fault, names_of};
    ghost use Rattle.vx_types.specs.TypeTree.{types_of, types_size};

    ghost view = { λ f. record {
      names = names_of f.names.items;
      types = map type_of f.types.items;
    } };

    ghost invariant = { λ f. fields_fault (record {
      names = names_of f.names.items;
      types = map type_of f.types.items;
    }) ≡ None };

    ghost size = { λ f. types_size (types_of f.types) };

    ghost use Rattle.std.proofs.Common.{arith};
    ghost use Rattle.vx_types.specs.Nesting.{most_le};

    ghost size_decreases = { λ a h. omega (arith, most_le a.types.items) };
}

impl StructFields {
    /// Fields of these names and types.
    ///
    /// `WrongLength` exactly where the numbers of names and types differ; otherwise only
    /// `NoMemory`.
    pub fn try_new(
        alloc: Global,
        names: Vec<RcStr>,
        types: Vec<DType>,
    ) -> Result<Shared<StructFields>, ColumnError>
        ensures made { IfOk result (λ f. f ≡ fields_of names types) }
        ensures refusal { FailsBy result (fields_fault (fields_of names types))
            ColumnError.NoMemory }
    {
        if names.len() != types.len() {
            return Err(ColumnError::WrongLength);
        }
        match Shared::new(alloc, StructFields { names, types }) {
            Ok(fields) => Ok(fields),
            Err(_) => Err(ColumnError::NoMemory),
        }
    }

    /// The fields' names, in order.
    pub fn names(&self) -> &[RcStr]
        ensures value { names_of result.now ≡ self.now.names }
        ensures valid { fields_fault self.now ≡ None }
    {
        &self.names
    }

    /// The fields' types, in order.
    pub fn types(&self) -> &[DType]
        ensures value { map type_of result.now ≡ self.now.types }
        ensures valid { fields_fault self.now ≡ None }
    {
        &self.types
    }

    /// Whether names and types are the same, in order.
    #[cycle(same)]
    pub(crate) fn is_same(&self, other: &StructFields) -> bool
        ensures { result ≡ are_same_fields self.now other.now }
    {
        are_same_names(&self.names, &other.names) && are_same_types(&self.types, &other.types)
    }
}

// Whether these are two types, the first of them non-nullable.
#[tactic(auto, using(crate::proofs::Entries::entries))]
fn are_entries(types: &[DType]) -> bool
    ensures { result ≡ are_entries (types_of (map type_of types.now)) }
{
    if types.len() != 2 {
        return false;
    }
    !types[0].is_nullable()
}

/// Whether it is the type of a map's entries: a struct of two fields, the first non-nullable, that
/// is non-nullable itself.
pub fn is_entry_type(dtype: &DType) -> bool
    ensures { result ≡ is_entry_type (type_of dtype.now) }
{
    match dtype {
        DType::Struct(fields, nullability) => {
            are_entries(fields.types()) && !nullability.is_nullable()
        }
        _ => false,
    }
}
