//! Layout `ListView`: offsets and sizes are made by a plan, and the elements stay.
ghost use Rattle.std.specs.Prelude.{◌≡◌, ◌≤◌, None, length, IfOk};
ghost use Rattle.std.specs.List.{items_where_true};
ghost use Rattle.vx_types.specs.declared.nullability.Nullability.TheVariants.{NonNullable};
ghost use Rattle.vx_positions.specs.Positions.{AllThere};
ghost use Rattle.vx_model.specs.ListView.{listview_column, listview_fault};
ghost use Rattle.vx_model.specs.Step.{IsCut, IsSlice, IsTake};
ghost use Rattle.vx_column.specs.Validity.{valid_of};

use crate::filtering::FilterRows;
use crate::parts::{Parts, StepResult};
use crate::slicing::SliceRows;
use crate::taking::TakeRows;
use crate::validity::{filter_validity, slice_validity, take_validity};
use std::alloc::Global;
use vx_bits::NoMemory;
use vx_column::{ListViewArray, Nullability};
use vx_lists::{ViewPlan, plan_view_filter, plan_view_take, slice_view};
use vx_mask::{MaskValues, Policy};
use vx_take::Picks;

// The lists of the same elements at these offsets and of these sizes.
fn relisted(array: &ListViewArray, plan: ViewPlan) -> ListViewArray
    requires { listview_fault (record array.now {
      offsets = plan.offsets;
      sizes = plan.sizes;
      valid = valid_of plan.validity;
    }) ≡ None }
    ensures { result ≡ record array.now {
      offsets = plan.offsets;
      sizes = plan.sizes;
      valid = valid_of plan.validity;
    } }
{
    let ViewPlan {
        offsets,
        sizes,
        validity,
    } = plan;
    array.with_parts(array.elements().share(), offsets, sizes, validity)
}

/// The list views of the rows from `start` up to `end`.
#[cycle(slice)]
#[tactic(auto, using(vx_model::proofs::ListRows::listview_rows))]
pub(crate) fn slice_views(
    alloc: Global,
    array: &ListViewArray,
    start: usize,
    end: usize,
) -> Result<ListViewArray, NoMemory>
    requires ordered { start ≤ end }
    requires within { end ≤ length (listview_column array.now).rows }
    ensures { IfOk result (λ a.
        IsSlice (listview_column array.now) start end (listview_column a)) }
{
    let validity = slice_validity(alloc, array.validity(), array.len(), start, end)?;
    Ok(slice_view(array, start, end, validity))
}

impl Parts for ListViewArray {
    ghost column = { listview_column };
}

impl SliceRows for ListViewArray {
    #[cycle(slice)]
    fn slice(&self, alloc: Global, start: usize, end: usize) -> StepResult {
        Ok(slice_views(alloc, self, start, end)?.into_array())
    }
}

/// The list views of the rows at the set positions of a mask.
#[cycle(filter)]
#[tactic(auto, using(vx_model::proofs::ListRows::listview_rows))]
pub(crate) fn filter_views(
    alloc: Global,
    array: &ListViewArray,
    mask: &MaskValues,
    policy: &Policy,
) -> Result<ListViewArray, NoMemory>
    requires { length mask.now.bits.bits ≡ length (listview_column array.now).rows }
    ensures { IfOk result (λ a. IsCut (listview_column array.now)
        (items_where_true mask.now.bits.bits (listview_column array.now).rows)
        (listview_column a)) }
{
    let validity = filter_validity(alloc, array.validity(), mask, policy)?;
    let plan = plan_view_filter(alloc, array, mask, policy, validity)?;
    Ok(relisted(array, plan))
}

impl FilterRows for ListViewArray {
    #[cycle(filter)]
    fn filter(&self, alloc: Global, mask: &MaskValues, policy: &Policy) -> StepResult {
        Ok(filter_views(alloc, self, mask, policy)?.into_array())
    }
}

/// The list views of the rows at the picks, and a null at each null.
#[cycle(take)]
#[tactic(auto, using(vx_model::proofs::ListRows::listview_rows))]
pub(crate) fn take_views(
    alloc: Global,
    array: &ListViewArray,
    picks: &Picks,
    nullability: Nullability,
    policy: &Policy,
) -> Result<ListViewArray, NoMemory>
    requires there { nullability ≡ NonNullable → AllThere picks.now.picks }
    requires bound { picks.now.bound ≡ length (listview_column array.now).rows }
    ensures { IfOk result (λ a.
        IsTake (listview_column array.now) picks.now.picks nullability (listview_column a)) }
{
    let validity = take_validity(alloc, array.validity(), picks, nullability, policy)?;
    let plan = plan_view_take(alloc, array, picks, validity)?;
    Ok(relisted(array, plan))
}

impl TakeRows for ListViewArray {
    #[cycle(take)]
    fn take(&self, alloc: Global, picks: Picks, nulls: Nullability, policy: &Policy) -> StepResult {
        Ok(take_views(alloc, self, &picks, nulls, policy)?.into_array())
    }
}
