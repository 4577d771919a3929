//! The type of a list's elements.
ghost use Rattle.std.specs.Prelude.{◌≡◌, IfOk};
ghost use Rattle.vx_types.specs.DType.{type_of};
ghost use Rattle.vx_types.specs.Same.{is_same_type};

use crate::dtype::DType;
use std::alloc::Global;
use std::marker::Model;
use vx_bits::NoMemory;
use vx_shared::Shared;

/// A shared `DType`: what Vortex has as `Arc<DType>`. A contract sees the type.
#[cycle(dtype)]
#[derive(Drop)]
pub struct ElementType {
    dtype: Shared<DType>,
}

impl Model for ElementType {
    ghost use Rattle.vx_types.specs.TypeTree.{TypeTree, type_size};
    ghost use Rattle.vx_types.specs.TypeTreeCode.{coded_type};

    ghost Value = { TypeTree };

    ghost coded = { coded_type };

    ghost use Rattle.vx_types.specs.DType.{type_of};

    ghost view = { λ t. type_of t.dtype };

    ghost size = { type_size };

    ghost use Rattle.std.proofs.Common.{arith};
    ghost use Rattle.vx_types.specs.Nesting.{deep_le};

    ghost size_decreases = { λ a h. omega (arith, deep_le a.dtype) };
}

impl ElementType {
    /// The type of these elements. Fails only with `NoMemory`.
    pub fn new(alloc: Global, dtype: DType) -> Result<ElementType, NoMemory>
        ensures { IfOk result (λ t. t ≡ type_of dtype) }
    {
        Ok(ElementType {
            dtype: Shared::new(alloc, dtype)?,
        })
    }

    /// The elements' type.
    pub fn dtype(&self) -> &DType
        ensures { type_of result.now ≡ self.now }
    {
        &self.dtype
    }

    /// Another handle to the same type.
    pub fn share(&self) -> ElementType
        ensures { result ≡ self.now }
    {
        ElementType {
            dtype: self.dtype.share(),
        }
    }

    /// Whether the element types are the same.
    #[cycle(same)]
    pub(crate) fn is_same(&self, other: &ElementType) -> bool
        ensures { result ≡ is_same_type self.now other.now }
    {
        let (this, that) = (self.dtype.as_ref(), other.dtype.as_ref());
        this.is_same_kind(that) && this.nullability().is_same(that.nullability())
    }
}
