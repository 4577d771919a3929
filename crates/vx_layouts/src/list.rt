//! Layout `List`.
ghost use Rattle.std.specs.Prelude.{◌≡◌, length, IfOk};
ghost use Rattle.vx_bits.specs.Results.{FailsBy};
ghost use Rattle.vx_types.specs.TypeTree.{primitive_kind};
ghost use Rattle.vx_types.specs.declared.ptype.PType.TheVariants.{U64};
ghost use Rattle.vx_mask.specs.Mask.{mask_bits};
ghost use Rattle.vx_model.specs.List.{list_column};
ghost use Rattle.vx_pieces.specs.Indices.{index_value};
ghost use Rattle.vx_layouts.specs.Answers.{are_alike, AnswersFilter};
ghost use Rattle.vx_layouts.specs.Taking.{IsTakeBy, take_fault};

use crate::answer::Answer;
use crate::filtering::FilterKernel;
use crate::taking::{TakeError, take_fault};
use std::alloc::Global;
use vx_column::{Array, ListArray};
use vx_dispatch::{filter, take_lists};
use vx_mask::{Mask, Policy};
use vx_pieces::Indices;
use vx_plain::ArrayView;
use vx_plain::vtables::List;

impl FilterKernel for List {
    ghost declines = { λ _ bits. are_alike bits };

    fn filter(alloc: Global, array: ArrayView<'_, List>, mask: &Mask) -> Answer
        requires { length (mask_bits mask.now) ≡ length array.array.now.rows }
        ensures { AnswersFilter array.entry.array.now (mask_bits mask.now)
            (are_alike (mask_bits mask.now)) result }
    {
        let count = mask.true_count();
        if count == 0 || count == mask.len() {
            return Ok(None);
        }
        Ok(Some(filter(alloc, array.array(), mask, &Policy::vortex())?))
    }
}

/// The lists that indices name, as a column of the same layout, whose offsets are of type `U64`:
/// what a take of a column of layout `List` gives.
///
/// `InvalidIndices`, `BadPieces` and `OutOfBounds` exactly where the indices are at fault, also
/// when memory runs out. Otherwise it fails only with `NoMemory`.
pub fn take_list(
    alloc: Global,
    array: &ListArray,
    indices: &Indices,
) -> Result<ListArray, TakeError>
    ensures taken { IfOk result (λ a. IsTakeBy (index_value indices.now)
        (list_column array.now) (list_column a)) }
    ensures offsets { IfOk result (λ a. a.offsets.kind ≡ primitive_kind U64) }
    ensures fault { FailsBy result
        (take_fault (list_column array.now) (index_value indices.now)) TakeError.NoMemory }
{
    let column = array.share().into_array();
    if let Some(error) = take_fault(&column, indices) {
        return Err(error);
    }
    let picks = indices.picks(alloc, column.len())?;
    let nullability = indices.nullability();
    Ok(take_lists(alloc, array, picks, nullability, &Policy::vortex())?)
}
