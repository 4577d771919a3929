//! Layout `FixedSizeList`: what its filters and takes leave.
ghost use Rattle.std.specs.Prelude.{◌≡◌, ◌+◌, ◌<◌, ◌≤◌, [], IfOk, IfSome, IsSome, length, replicate, slice_range};
ghost use Rattle.std.specs.List.{All, items_where_true};
ghost use Rattle.vx_bits.specs.BitBuffer.{true_count_of};
ghost use Rattle.vx_column.specs.Validity.{valid_of};
ghost use Rattle.vx_mask.specs.Mask.{mask_bits, partial_of};
ghost use Rattle.vx_model.specs.FixedSizeList.{fixed_spans};
ghost use Rattle.vx_model.specs.Lists.{lists_of};
ghost use Rattle.vx_take.specs.Picks.{at, in_runs};
ghost use Rattle.vx_types.specs.RowValue.{RowValue};
ghost use Rattle.vx_lists.specs.Fixed.{repeat_bits};
ghost use Rattle.vx_lists.specs.Plans.{MakesFixed};
ghost use Rattle.vx_model.specs.Fits.{FitsFilter, FitsTake};

use crate::fixed::{FixedTake, repeated_mask, take_fixed};
use crate::plans::{FixedFilterPlan, FixedTakePlan};
use std::alloc::Global;
use vx_bits::NoMemory;
use vx_column::{FixedSizeListArray, Validity};
use vx_mask::{MaskValues, Policy};
use vx_take::Picks;

/// The plan of the lists at the set positions of `mask`, in order, with their validity.
///
/// The mask of the elements has each bit `list_size` times, and keeps the runs of selected elements
/// where `list_size` is at least `cached_list_size`. Fails only with `NoMemory`.
pub fn plan_fixed_filter(
    alloc: Global,
    array: &FixedSizeListArray,
    mask: &MaskValues,
    policy: &Policy,
    validity: Validity,
) -> Result<FixedFilterPlan, NoMemory>
    requires { FitsFilter array.now.len mask.now (valid_of validity) }
    ensures lists { IfOk result (λ plan.
        MakesFixed array.now.size (true_count_of mask.now.bits.bits) (valid_of validity)
        (items_where_true (mask_bits plan.mask) array.now.elements.rows)
        (items_where_true mask.now.bits.bits (lists_of (fixed_spans array.now)))) }
    ensures mask { IfOk result
        (λ plan. mask_bits plan.mask ≡ repeat_bits array.now.size mask.now.bits.bits) }
    ensures slices { policy.now.cached_list_size ≤ array.now.size
        → IfOk result (λ plan. IfSome (partial_of plan.mask) (λ p. IsSome p.slices)) }
    ensures valid { IfOk result (λ plan. valid_of plan.validity ≡ valid_of validity) }
{
    let mask = repeated_mask(alloc, mask, array.list_size() as usize, policy)?;
    Ok(FixedFilterPlan { validity, mask })
}

/// The plan of the lists at the picks, in order, with their validity, and of list 0 at a null.
///
/// Where there is no list, each pick is a null, and has `list_size` elements of filler. More
/// elements than `usize::MAX` give `NoMemory`. Fails only with `NoMemory`.
pub fn plan_fixed_take(
    alloc: Global,
    array: &FixedSizeListArray,
    picks: &Picks,
    validity: Validity,
) -> Result<FixedTakePlan, NoMemory>
    requires { FitsTake array.now.len picks.now (valid_of validity) }
    ensures lists { 0 < array.now.len → IfOk result (λ plan.
        MakesFixed array.now.size (length picks.now.picks) (valid_of validity)
        (in_runs array.now.elements.rows plan.runs)
        (at (slice_range array.now.elements.rows 0 array.now.size)
        (lists_of (fixed_spans array.now)) picks.now.picks)) }
    ensures fillers { array.now.len ≡ 0 → IfOk result (λ plan. (x : RowValue) →
        MakesFixed array.now.size (length picks.now.picks) (valid_of validity)
        (replicate plan.filler x)
        (at (replicate array.now.size x) (lists_of (fixed_spans array.now)) picks.now.picks)) }
    ensures filler { 0 < array.now.len → IfOk result (λ plan. plan.filler ≡ 0) }
    ensures none { array.now.len ≡ 0 → IfOk result (λ plan. plan.runs ≡ []) }
    ensures inside { IfOk result
        (λ plan. All (λ run. run.0 + run.1 ≤ length array.now.elements.rows) plan.runs) }
    ensures valid { IfOk result (λ plan. valid_of plan.validity ≡ valid_of validity) }
{
    // There are so many elements.
    let _ = array.elements().len();
    let take = take_fixed(alloc, array.list_size() as usize, array.len(), picks)?;
    let FixedTake { runs, filler } = take;
    Ok(FixedTakePlan {
        validity,
        runs,
        filler,
    })
}
