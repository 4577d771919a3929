//! Layout `ListView`: what its filters, takes and slices leave.
ghost use Rattle.std.specs.Prelude.{◌≡◌, [], IfOk, length, replicate, slice_range};
ghost use Rattle.std.specs.List.{items_where_true};
ghost use Rattle.vx_column.specs.Validity.{valid_of};
ghost use Rattle.vx_model.specs.ListView.{listview_spans};
ghost use Rattle.vx_model.specs.Lists.{lists_of};
ghost use Rattle.vx_model.specs.Records.{records_with};
ghost use Rattle.vx_model.specs.Valid.{non_nullable};
ghost use Rattle.vx_take.specs.Picks.{at};
ghost use Rattle.vx_lists.specs.Plans.{MakesViews};
ghost use Rattle.vx_model.specs.Fits.{FitsFilter, FitsSlice, FitsTake};

use crate::plans::ViewPlan;
use crate::view::{filter_numbers, slice_numbers, take_numbers};
use std::alloc::Global;
use vx_bits::NoMemory;
use vx_column::{ListViewArray, Validity};
use vx_mask::{MaskValues, Policy};
use vx_take::Picks;

/// The plan of the list views at the set positions of `mask`, in order, with their validity. Fails
/// only with `NoMemory`.
#[tactic(auto, using(vx_model::proofs::ListRows::listview_rows))]
pub fn plan_view_filter(
    alloc: Global,
    array: &ListViewArray,
    mask: &MaskValues,
    policy: &Policy,
    validity: Validity,
) -> Result<ViewPlan, NoMemory>
    requires { FitsFilter (length (listview_spans array.now).spans)
        mask.now (valid_of validity) }
    ensures offsets { IfOk result (λ plan. plan.offsets ≡ records_with array.now.offsets
        (items_where_true mask.now.bits.bits array.now.offsets.records) non_nullable) }
    ensures sizes { IfOk result (λ plan. plan.sizes ≡ records_with array.now.sizes
        (items_where_true mask.now.bits.bits array.now.sizes.records) non_nullable) }
    ensures lists { IfOk result (λ plan. MakesViews (record array.now {
      offsets = plan.offsets;
      sizes = plan.sizes;
      valid = valid_of validity;
    }) (items_where_true mask.now.bits.bits (lists_of (listview_spans array.now)))) }
    ensures valid { IfOk result (λ plan. valid_of plan.validity ≡ valid_of validity) }
{
    let offsets = filter_numbers(alloc, array.offsets(), mask, policy)?;
    let sizes = filter_numbers(alloc, array.sizes(), mask, policy)?;
    Ok(ViewPlan {
        offsets,
        sizes,
        validity,
    })
}

/// The plan of the list views at the picks, in order, with their validity: offset 0 and size 0 at a
/// null. Fails only with `NoMemory`.
#[tactic(auto, using(vx_model::proofs::ListRows::listview_rows))]
pub fn plan_view_take(
    alloc: Global,
    array: &ListViewArray,
    picks: &Picks,
    validity: Validity,
) -> Result<ViewPlan, NoMemory>
    requires { FitsTake (length (listview_spans array.now).spans) picks.now (valid_of validity) }
    ensures offsets { IfOk result (λ plan. plan.offsets ≡ records_with array.now.offsets
        (at (replicate array.now.offsets.width 0) array.now.offsets.records picks.now.picks)
        non_nullable) }
    ensures sizes { IfOk result (λ plan. plan.sizes ≡ records_with array.now.sizes
        (at (replicate array.now.sizes.width 0) array.now.sizes.records picks.now.picks)
        non_nullable) }
    ensures lists { IfOk result (λ plan. MakesViews (record array.now {
      offsets = plan.offsets;
      sizes = plan.sizes;
      valid = valid_of validity;
    }) (at [] (lists_of (listview_spans array.now)) picks.now.picks)) }
    ensures valid { IfOk result (λ plan. valid_of plan.validity ≡ valid_of validity) }
{
    // Each pick is a row.
    let _ = picks.bound();
    let offsets = take_numbers(alloc, array.offsets(), picks)?;
    let sizes = take_numbers(alloc, array.sizes(), picks)?;
    Ok(ViewPlan {
        offsets,
        sizes,
        validity,
    })
}

/// The rows from `start` up to `end`, with their validity: other offsets and sizes into the same
/// elements.
#[tactic(auto, using(vx_model::proofs::ListRows::listview_rows))]
pub fn slice_view(
    array: &ListViewArray,
    start: usize,
    end: usize,
    validity: Validity,
) -> ListViewArray
    requires { FitsSlice (length (listview_spans array.now).spans) start end (valid_of validity) }
    ensures parts { result ≡ record array.now {
      offsets = records_with array.now.offsets
          (slice_range array.now.offsets.records start end) non_nullable;
      sizes = records_with array.now.sizes
          (slice_range array.now.sizes.records start end) non_nullable;
      valid = valid_of validity;
    } }
    ensures lists { lists_of (listview_spans result)
        ≡ slice_range (lists_of (listview_spans array.now)) start end }
{
    let elements = array.elements().share();
    let offsets = slice_numbers(array.offsets(), start, end);
    let sizes = slice_numbers(array.sizes(), start, end);
    array.with_parts(elements, offsets, sizes, validity)
}
