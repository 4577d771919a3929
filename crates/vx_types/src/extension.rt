//! Extension types.
ghost use Rattle.std.specs.Prelude.{◌≡◌, IfOk};
ghost use Rattle.std.specs.Rc.{rc_str_bytes};
ghost use Rattle.vx_types.specs.DType.{type_of};
ghost use Rattle.vx_types.specs.Extension.{extension_of};
ghost use Rattle.vx_types.specs.Same.{is_same_extension};

use crate::dtype::DType;
use crate::nullability::Nullability;
use std::alloc::Global;
use std::marker::Model;
use std::rc::RcStr;
use vx_bits::NoMemory;
use vx_shared::Shared;

/// A named type over a storage type: Vortex's `ExtDType`. The storage type is kept without its
/// outer nullability, which is the extension's.
#[cycle(dtype)]
#[derive(Drop)]
pub struct ExtDType {
    name: RcStr,
    storage: DType,
}

impl Model for ExtDType {
    ghost use Rattle.vx_types.specs.FieldTypes.{ExtensionType, coded_extension};

    ghost Value = { ExtensionType };

    ghost coded = { coded_extension };

    ghost use Rattle.std.specs.Rc.{rc_str_bytes};
    ghost use Rattle.vx_types.specs.DType.{type_of};
    ghost use Rattle.vx_types.specs.TypeTree.{kind_size};

    ghost view = { λ e. record {
      name = rc_str_bytes e.name;
      storage = type_of e.storage;
    } };

    ghost size = { λ e. kind_size e.storage.kind };

    ghost use Rattle.std.proofs.Common.{arith};
    ghost use Rattle.vx_types.specs.Nesting.{deep_le};

    ghost size_decreases = { λ a h. omega (arith, deep_le a.storage) };
}

impl ExtDType {
    /// The type of this name over this storage. Fails only with `NoMemory`.
    pub fn new(alloc: Global, name: RcStr, storage: DType) -> Result<Shared<ExtDType>, NoMemory>
        ensures { IfOk result (λ e. e ≡ extension_of name storage) }
    {
        let storage = storage.with_nullability(Nullability::NonNullable);
        Ok(Shared::new(alloc, ExtDType { name, storage })?)
    }

    /// The extension type's name.
    pub fn name(&self) -> &RcStr
        ensures { rc_str_bytes result.now ≡ self.now.name }
    {
        &self.name
    }

    /// The type that stores it, without its outer nullability.
    pub fn storage(&self) -> &DType
        ensures { type_of result.now ≡ self.now.storage }
    {
        &self.storage
    }

    /// Whether the names are the same, and the storage types but for their nullability.
    #[cycle(same)]
    pub(crate) fn is_same(&self, other: &ExtDType) -> bool
        ensures { result ≡ is_same_extension self.now other.now }
    {
        self.name == other.name && self.storage.is_same_kind(&other.storage)
    }
}
