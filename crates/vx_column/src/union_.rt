//! Layout `Union`: for each row an id, and a row of the column of the variant of that id.
ghost use Rattle.std.specs.Prelude.{◌≡◌, length, None, Some, option_map, true};
ghost use Rattle.vx_bits.specs.Results.{ok_unless};
ghost use Rattle.vx_types.specs.TypeTree.{are_carried, types_of};
ghost use Rattle.vx_model.specs.Union.{place_at, union_column, union_fault};
ghost use Rattle.vx_column.specs.UnionParts.{union_parts};
ghost use Rattle.vx_column.specs.Part.{IsPart};

use crate::array::{Array, ArrayRef, Layout};
use crate::cell::{Cell, ReadRow, TaggedCell};
use crate::columns::Columns;
use crate::primitive::PrimitiveArray;
use crate::union_check::{fault_of, place_at, tag_at};
use std::marker::Model;
use vx_shared::Shared;
use vx_types::{ColumnError, DType, UnionVariants, variant_of};

/// A column of which each row is one of a variant's column, which an id tells: Vortex's
/// `UnionArray`. It is sparse, where row i is row i of that column, or dense, where it is the row
/// at offset i.
#[cycle(array)]
#[derive(Drop)]
pub struct UnionArray {
    type_ids: ArrayRef,
    offsets: Option<PrimitiveArray>,
    variants: Shared<UnionVariants>,
    children: Columns,
}

impl Model for UnionArray {
    ghost use Rattle.vx_model.specs.Union.{UnionParts, coded_union};

    ghost Value = { UnionParts };

    ghost coded = { coded_union };

    ghost use Rattle.std.proofs.Common.{arith};
    ghost use Rattle.vx_model.specs.Union.{union_size};
    ghost use Rattle.vx_column.specs.UnionParts.{union_parts, IsUnion};

    ghost view = { λ a. union_parts a.type_ids a.offsets a.variants a.children };

    ghost invariant = { λ a. IsUnion (union_parts a.type_ids a.offsets a.variants a.children) };

    ghost size = { union_size };

    ghost size_decreases = { λ a h. Prim.grind arith };
}

// The offsets once again.
fn shared(offsets: &Option<PrimitiveArray>) -> Option<PrimitiveArray>
    ensures { result ≡ offsets.now }
{
    match offsets {
        Some(offsets) => Some(offsets.share()),
        None => None,
    }
}

// A column of these parts.
fn made(
    type_ids: ArrayRef,
    offsets: Option<PrimitiveArray>,
    variants: Shared<UnionVariants>,
    children: Columns,
) -> Result<UnionArray, ColumnError>
    ensures { result ≡ ok_unless (union_fault (union_parts type_ids offsets variants children))
        (union_parts type_ids offsets variants children) }
{
    if let Some(fault) = fault_of(&type_ids, &offsets, &variants, &children) {
        return Err(fault);
    }
    Ok(UnionArray {
        type_ids,
        offsets,
        variants,
        children,
    })
}

impl UnionArray {
    /// A sparse union: row i is row i of the column of its id's variant, or null where the id is.
    /// Vortex's `try_new`.
    ///
    /// `WrongType` exactly where the ids aren't `U8`, or the columns aren't of the variants' types,
    /// one by one. Else `WrongLength` exactly where a column isn't as long as the ids. Else
    /// `BadTypeId` exactly where an id that isn't null is no variant's.
    pub fn try_new(
        type_ids: ArrayRef,
        variants: Shared<UnionVariants>,
        children: Columns,
    ) -> Result<UnionArray, ColumnError>
        ensures { result ≡ ok_unless (union_fault (union_parts type_ids None variants children))
            (union_parts type_ids None variants children) }
    {
        made(type_ids, None, variants, children)
    }

    /// A dense union: row i is the row at offset i of the column of its id's variant, or null where
    /// the id is.
    ///
    /// `WrongType` exactly where the ids aren't `U8`, the offsets aren't a non-nullable column of
    /// integers, or the columns aren't of the variants' types, one by one. Else `WrongLength`
    /// exactly where there isn't an offset for each id. Else `BadOffsets` exactly where the offset
    /// at an id that isn't null and is a variant's isn't a place of that variant's column. Else
    /// `BadTypeId` exactly where an id that isn't null is no variant's. An offset at a null isn't
    /// looked at.
    pub fn try_new_dense(
        type_ids: ArrayRef,
        offsets: PrimitiveArray,
        variants: Shared<UnionVariants>,
        children: Columns,
    ) -> Result<UnionArray, ColumnError>
        ensures { result
            ≡ ok_unless (union_fault (union_parts type_ids (Some offsets) variants children))
            (union_parts type_ids (Some offsets) variants children) }
    {
        made(type_ids, Some(offsets), variants, children)
    }

    /// Other sound parts of the same type: what a step leaves. It doesn't test what it requires;
    /// `try_new` and `try_new_dense` do.
    pub fn with_parts(
        &self,
        type_ids: ArrayRef,
        offsets: Option<PrimitiveArray>,
        children: Columns,
    ) -> UnionArray
        requires { union_fault (record self.now {
          ids = type_ids;
          offsets = offsets;
          columns = children;
        }) ≡ None }
        ensures { result
            ≡ record self.now { ids = type_ids; offsets = offsets; columns = children } }
    {
        UnionArray {
            type_ids,
            offsets,
            variants: self.variants.share(),
            children,
        }
    }

    /// For each row the id of its variant.
    pub fn type_ids(&self) -> &ArrayRef
        ensures { IsPart (union_fault self.now) result.now self.now.ids }
    {
        &self.type_ids
    }

    /// For each row its place in its variant's column; some exactly for a dense union.
    pub fn offsets(&self) -> Option<&PrimitiveArray>
        ensures { IsPart (union_fault self.now) (option_map (λ o. o.now) result) self.now.offsets }
    {
        self.offsets.as_ref()
    }

    /// Another handle to the offsets; some exactly for a dense union.
    pub fn shared_offsets(&self) -> Option<PrimitiveArray>
        ensures { result ≡ self.now.offsets }
    {
        shared(&self.offsets)
    }

    /// The ids, names and types of the variants.
    pub fn variants(&self) -> &Shared<UnionVariants>
        ensures value { result.now ≡ self.now.variants }
        ensures valid { union_fault self.now ≡ None }
        ensures carried { are_carried (types_of self.now.variants.types) ≡ true }
    {
        &self.variants
    }

    /// The columns, one a variant.
    pub fn children(&self) -> &Columns
        ensures { IsPart (union_fault self.now) result.now self.now.columns }
    {
        &self.children
    }

    /// How many rows it has.
    pub fn len(&self) -> usize
        ensures { result ≡ length self.now.ids.rows }
    {
        self.type_ids.len()
    }

    /// Another handle to the same column.
    pub fn share(&self) -> UnionArray
        ensures { result ≡ self.now }
    {
        UnionArray {
            type_ids: self.type_ids.share(),
            offsets: shared(&self.offsets),
            variants: self.variants.share(),
            children: self.children.share(),
        }
    }

    /// The column of this layout.
    #[tactic(auto, using(vx_model::proofs::UnionSteps::rows_of_unions))]
    pub fn into_array(self) -> Array
        ensures { result ≡ union_column self }
    {
        let dtype = DType::Union(self.variants.share(), self.type_ids.dtype().nullability());
        let len = self.len();
        Array::new(dtype, len, Layout::Union(self))
    }
}

// Row `i`: that of its variant's column.
impl ReadRow for UnionArray {
    ghost column = { union_column };

    #[cycle(cell)]
    #[tactic(auto, using(vx_model::proofs::UnionSteps::rows_of_unions))]
    fn cell_at(&self, i: usize) -> Cell<'_> {
        let Some(id) = tag_at(self.type_ids(), i) else {
            return Cell::Null;
        };
        match variant_of(self.variants().ids(), id) {
            Some(k) => {
                let column = self.children().get(k);
                let row = place_at(&self.offsets, i, column.len());
                Cell::Tagged(TaggedCell { id, column, row })
            }
            None => unreachable!(),
        }
    }
}
