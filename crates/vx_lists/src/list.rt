//! Layout `List`: what its filters and takes leave.
ghost use Rattle.std.specs.Prelude.{◌≡◌, ◌+◌, ◌≤◌, [], IfOk, length, replicate, slice_range, true};
ghost use Rattle.std.specs.List.{All, items_where_true};
ghost use Rattle.vx_mask.specs.Mask.{mask_bits};
ghost use Rattle.vx_model.specs.List.{list_spans};
ghost use Rattle.vx_model.specs.Lists.{kept_lists, lists_of};
ghost use Rattle.vx_model.specs.Numbers.{integers_of};
ghost use Rattle.vx_model.specs.Records.{records_with};
ghost use Rattle.vx_model.specs.Valid.{non_nullable, present_bits};
ghost use Rattle.vx_offsets.specs.Offsets.{offset_positions};
ghost use Rattle.vx_column.specs.Validity.{valid_of};
ghost use Rattle.vx_take.specs.Picks.{at, in_runs};
ghost use Rattle.vx_offsets.specs.Cut.{type_of};
ghost use Rattle.vx_types.specs.TypeTree.{primitive_kind};
ghost use Rattle.vx_types.specs.declared.ptype.PType.TheVariants.{U64};
ghost use Rattle.vx_lists.specs.Lists.{AreOffsets, last_offset};
ghost use Rattle.vx_lists.specs.Numbers.{AreInType};
ghost use Rattle.vx_lists.specs.Plans.{IsRangeOf, LeavesLists, PlansLists, filter_range, is_all_invalid, lists_left};
ghost use Rattle.vx_model.specs.Fits.{FitsFilter, FitsSlice, FitsTake};

use crate::filter::{ListFilter, filter_lists};
use crate::numbers::{offset_column, offset_numbers, u64_column};
use crate::plans::{ListFilterPlan, ListTakePlan};
use crate::take::{ListTake, taken_where};
use std::alloc::Global;
use vx_bits::NoMemory;
use vx_column::{ListArray, Validity, slice_offsets};
use vx_mask::{Mask, MaskValues, Policy};
use vx_reading::present_mask;
use vx_take::Picks;

// Whether it says no at each row.
fn is_all_invalid(validity: &Validity) -> bool
    ensures { result ≡ is_all_invalid (valid_of validity.now) }
{
    match validity {
        Validity::NonNullable | Validity::AllValid | Validity::Array(_) => false,
        Validity::AllInvalid => true,
    }
}

// The offsets of a column of lists.
#[tactic(auto, using(vx_model::proofs::ListRows::list_rows))]
fn list_offsets(alloc: Global, array: &ListArray) -> Result<Vec<u64>, NoMemory>
    ensures value { IfOk result
        (λ v. v.items ≡ offset_positions (integers_of array.now.offsets)) }
    ensures offsets { IfOk result (λ v. AreOffsets v.items) }
    ensures within { IfOk result
        (λ v. last_offset v.items ≤ length array.now.elements.rows) }
    ensures small { IfOk result (λ v. AreInType (type_of array.now.offsets.kind) v.items) }
{
    offset_numbers(alloc, array.offsets(), array.elements().len())
}

// So many empty lists, of no elements.
fn all_empty(alloc: Global, len: usize) -> Result<ListFilter, NoMemory>
    ensures offsets { IfOk result (λ filter. filter.offsets.items ≡ replicate (len + 1) 0) }
    ensures range { IfOk result (λ filter. filter.range ≡ (0, 0)) }
    ensures mask { IfOk result (λ filter. mask_bits filter.mask ≡ []) }
{
    let count = len.checked_add(1).ok_or(NoMemory)?;
    Ok(ListFilter {
        offsets: vec![in alloc; 0; count]?,
        range: (0, 0),
        mask: Mask::AllFalse(0),
    })
}

// What a filter leaves: no element where no row is valid.
fn left_by(
    alloc: Global,
    array: &ListArray,
    mask: &MaskValues,
    policy: &Policy,
    validity: &Validity,
) -> Result<ListFilter, NoMemory>
    requires { length mask.now.bits.bits ≡ length (list_spans array.now).spans }
    ensures left { IfOk result (λ filter. LeavesLists filter.offsets.items
        (items_where_true (mask_bits filter.mask)
        (slice_range array.now.elements.rows filter.range.0 filter.range.1))
        (lists_left (valid_of validity.now)
        (items_where_true mask.now.bits.bits (lists_of (list_spans array.now))))) }
    ensures small { IfOk result
        (λ filter. AreInType (type_of array.now.offsets.kind) filter.offsets.items) }
    ensures inside { IfOk result (λ filter. IsRangeOf (length array.now.elements.rows)
        filter.range (length (mask_bits filter.mask))) }
    ensures range { IfOk result (λ filter. filter.range
        ≡ filter_range policy.now (valid_of validity.now)
        (offset_positions (integers_of array.now.offsets)) mask.now.bits.bits) }
{
    if is_all_invalid(validity) {
        let filter = all_empty(alloc, mask.true_count())?;
        return Ok(filter);
    }
    // Where the elements end.
    let _ = array.elements().len();
    let offsets = list_offsets(alloc, array)?;
    let filter = filter_lists(alloc, offsets.as_slice(), mask, policy)?;
    Ok(filter)
}

/// The plan of the lists at the set positions of `mask`, in order, with their validity.
///
/// The elements of a selected null row are kept, but where the validity is `AllInvalid` each list
/// is empty. The range of the elements goes from the first offset to the last, and is cut as
/// [`crate::filter_lists`] cuts it; where the validity is `AllInvalid` it is empty. Fails only with
/// `NoMemory`.
pub fn plan_list_filter(
    alloc: Global,
    array: &ListArray,
    mask: &MaskValues,
    policy: &Policy,
    validity: Validity,
) -> Result<ListFilterPlan, NoMemory>
    requires { FitsFilter (length (list_spans array.now).spans) mask.now (valid_of validity) }
    ensures lists { IfOk result (λ plan. PlansLists plan.offsets (valid_of validity)
        (items_where_true (mask_bits plan.mask)
        (slice_range array.now.elements.rows plan.range.0 plan.range.1))
        (lists_left (valid_of validity)
        (items_where_true mask.now.bits.bits (lists_of (list_spans array.now))))) }
    ensures kind { IfOk result (λ plan. plan.offsets.kind ≡ array.now.offsets.kind) }
    ensures valid { IfOk result (λ plan. valid_of plan.validity ≡ valid_of validity) }
    ensures inside { IfOk result (λ plan. IsRangeOf (length array.now.elements.rows)
        plan.range (length (mask_bits plan.mask))) }
    ensures range { IfOk result (λ plan. plan.range
        ≡ filter_range policy.now (valid_of validity)
        (offset_positions (integers_of array.now.offsets)) mask.now.bits.bits) }
{
    let filter = left_by(alloc, array, mask, policy, &validity)?;
    let offsets = offset_column(alloc, array.offsets().ptype(), filter.offsets.as_slice())?;
    let ListFilter {
        offsets: _,
        range,
        mask,
    } = filter;
    Ok(ListFilterPlan {
        offsets,
        validity,
        range,
        mask,
    })
}

// What a take leaves.
fn taken_by(
    alloc: Global,
    array: &ListArray,
    picks: &Picks,
    validity: &Validity,
) -> Result<ListTake, NoMemory>
    requires { FitsTake (length (list_spans array.now).spans) picks.now (valid_of validity.now) }
    ensures left { IfOk result (λ take. LeavesLists take.offsets.items
        (in_runs array.now.elements.rows take.runs)
        (kept_lists (present_bits (valid_of validity.now) (length picks.now.picks))
        (at [] (lists_of (list_spans array.now)) picks.now.picks))) }
    ensures inside { IfOk result
        (λ take. All (λ run. run.0 + run.1 ≤ length array.now.elements.rows) take.runs) }
{
    // Each pick is a row.
    let _ = picks.bound();
    let present = present_mask(alloc, validity, picks.len())?;
    let offsets = list_offsets(alloc, array)?;
    let take = taken_where(alloc, offsets.as_slice(), picks, &present)?;
    Ok(take)
}

/// The plan of the lists at the picks, in order, with their validity: empty where it says no, and
/// at a null.
///
/// The offsets are running sums of the lengths of the lists that are taken, and the last is the
/// number of elements. More elements than `usize::MAX` give `NoMemory`. Fails only with `NoMemory`.
pub fn plan_list_take(
    alloc: Global,
    array: &ListArray,
    picks: &Picks,
    validity: Validity,
) -> Result<ListTakePlan, NoMemory>
    requires { FitsTake (length (list_spans array.now).spans) picks.now (valid_of validity) }
    ensures lists { IfOk result (λ plan. PlansLists plan.offsets (valid_of validity)
        (in_runs array.now.elements.rows plan.runs)
        (kept_lists (present_bits (valid_of validity) (length picks.now.picks))
        (at [] (lists_of (list_spans array.now)) picks.now.picks))) }
    ensures kind { IfOk result (λ plan. plan.offsets.kind ≡ primitive_kind U64) }
    ensures valid { IfOk result (λ plan. valid_of plan.validity ≡ valid_of validity) }
    ensures inside { IfOk result
        (λ plan. All (λ run. run.0 + run.1 ≤ length array.now.elements.rows) plan.runs) }
{
    let take = taken_by(alloc, array, picks, &validity)?;
    let offsets = u64_column(alloc, take.offsets.as_slice())?;
    let ListTake { offsets: _, runs } = take;
    Ok(ListTakePlan {
        offsets,
        validity,
        runs,
    })
}

/// The rows from `start` up to `end`, with their validity: other offsets into the same elements.
pub fn slice_list(array: &ListArray, start: usize, end: usize, validity: Validity) -> ListArray
    requires { FitsSlice (length (list_spans array.now).spans) start end (valid_of validity) }
    ensures parts { result ≡ record array.now {
      offsets = records_with array.now.offsets
          (slice_range array.now.offsets.records start (end + 1)) non_nullable;
      valid = valid_of validity;
    } }
    ensures lists { lists_of (list_spans result)
        ≡ slice_range (lists_of (list_spans array.now)) start end }
{
    let elements = array.elements().share();
    let offsets = slice_offsets(array.offsets(), start, end);
    array.with_parts(elements, offsets, validity)
}
