//! Layout `Union`.
ghost use Rattle.std.specs.Prelude.{◌≡◌, ◌≤◌, length, IfOk};
ghost use Rattle.vx_bits.specs.Results.{FailsBy};
ghost use Rattle.vx_model.specs.Step.{IsSlice};
ghost use Rattle.vx_model.specs.Union.{IsUnionFilter, union_column};
ghost use Rattle.vx_pieces.specs.Indices.{index_nullability, index_picks, index_value};
ghost use Rattle.vx_dispatch.specs.Union.{IsUnionSlice, IsUnionTake};
ghost use Rattle.vx_layouts.specs.Answers.{IsFilterOf};
ghost use Rattle.vx_layouts.specs.Taking.{IsTakeBy, take_fault};

use crate::taking::{TakeError, take_fault};
use std::alloc::Global;
use vx_bits::NoMemory;
use vx_column::UnionArray;
use vx_dispatch::{filter_variants, slice_variants, take_variants};
use vx_mask::{MaskValues, Policy};
use vx_pieces::Indices;

/// The rows of a union at the set positions of a mask that is as long, in the union's form, sparse
/// or dense: Vortex's `filter_union`. A sparse union makes the mask ready for as many consumers as
/// it has columns; a dense one keeps its columns, and the type of its offsets. Fails only with
/// `NoMemory`.
pub fn filter_union(
    alloc: Global,
    array: &UnionArray,
    selection_mask: &MaskValues,
) -> Result<UnionArray, NoMemory>
    requires { length selection_mask.now.bits.bits ≡ length (union_column array.now).rows }
    ensures cut { IfOk result (IsFilterOf union_column array.now selection_mask.now.bits.bits) }
    ensures form { IfOk result (λ a. (union_column a).dense ≡ (union_column array.now).dense) }
    ensures parts { IfOk result (IsUnionFilter array.now selection_mask.now.bits.bits) }
{
    filter_variants(alloc, array, selection_mask, &Policy::vortex())
}

/// The rows of a union from `start` up to `end`, in the union's form, sparse or dense. A dense one
/// keeps its columns, and the type of its offsets. Fails only with `NoMemory`.
pub fn slice_union(
    alloc: Global,
    array: &UnionArray,
    start: usize,
    end: usize,
) -> Result<UnionArray, NoMemory>
    requires within { end ≤ length (union_column array.now).rows }
    requires ordered { start ≤ end }
    ensures cut { IfOk result
        (λ a. IsSlice (union_column array.now) start end (union_column a)) }
    ensures parts { IfOk result (IsUnionSlice array.now start end) }
{
    slice_variants(alloc, array, start, end)
}

/// The rows of a union that indices name, in order, and a null for each null, in the union's form,
/// sparse or dense. A dense one keeps its columns, and the type of its offsets, of which one is 0
/// at a null index. The type is nullable also where the indices' type is.
///
/// `InvalidIndices`, `BadPieces` and `OutOfBounds` exactly where the indices are at fault, also
/// when memory runs out. Otherwise it fails only with `NoMemory`.
pub fn take_union(
    alloc: Global,
    array: &UnionArray,
    indices: &Indices,
) -> Result<UnionArray, TakeError>
    ensures taken { IfOk result (λ a. IsTakeBy (index_value indices.now)
        (union_column array.now) (union_column a)) }
    ensures parts { IfOk result (IsUnionTake array.now (index_picks (index_value indices.now))
        (index_nullability (index_value indices.now))) }
    ensures fault { FailsBy result
        (take_fault (union_column array.now) (index_value indices.now)) TakeError.NoMemory }
{
    let column = array.share().into_array();
    if let Some(error) = take_fault(&column, indices) {
        return Err(error);
    }
    let picks = indices.picks(alloc, column.len())?;
    let nullability = indices.nullability();
    Ok(take_variants(alloc, array, &picks, nullability, &Policy::vortex())?)
}
