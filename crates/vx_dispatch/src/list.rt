//! Layout `List`: the offsets are made by a plan, and the elements by a step over their column.
ghost use Rattle.std.specs.Prelude.{◌≡◌, None, length, IfOk};
ghost use Rattle.vx_types.specs.TypeTree.{primitive_kind};
ghost use Rattle.vx_types.specs.declared.nullability.Nullability.TheVariants.{NonNullable};
ghost use Rattle.vx_types.specs.declared.ptype.PType.TheVariants.{U64};
ghost use Rattle.vx_positions.specs.Positions.{AllThere};
ghost use Rattle.vx_model.specs.List.{list_column, list_fault};
ghost use Rattle.vx_model.specs.Step.{IsTake};
ghost use Rattle.vx_column.specs.ListParts.{list_parts};

use crate::filtering::{FilterRows, filter};
use crate::parts::{Parts, StepResult};
use crate::runs::take_runs;
use crate::slicing::{SliceRows, slice};
use crate::taking::TakeRows;
use crate::validity::{filter_validity, slice_validity, take_validity};
use std::alloc::Global;
use vx_bits::NoMemory;
use vx_column::{Array, ListArray, Nullability, PrimitiveArray, Validity};
use vx_lists::{plan_list_filter, plan_list_take, slice_list};
use vx_mask::{MaskValues, Policy};
use vx_take::Picks;

// The lists that offsets cut these elements into.
fn relisted(
    alloc: Global,
    array: &ListArray,
    elements: Array,
    offsets: PrimitiveArray,
    validity: Validity,
) -> Result<ListArray, NoMemory>
    requires valid { list_fault (list_parts elements offsets validity) ≡ None }
    requires dtype { elements.dtype ≡ array.now.elements.dtype }
    ensures { IfOk result (λ a. a ≡ list_parts elements offsets validity) }
{
    let elements = elements.into_ref(alloc)?;
    Ok(array.with_parts(elements, offsets, validity))
}

impl Parts for ListArray {
    ghost column = { list_column };
}

impl SliceRows for ListArray {
    #[cycle(slice)]
    #[tactic(auto, using(vx_model::proofs::ListRows::list_rows))]
    fn slice(&self, alloc: Global, start: usize, end: usize) -> StepResult {
        let validity = slice_validity(alloc, self.validity(), self.len(), start, end)?;
        Ok(slice_list(self, start, end, validity).into_array())
    }
}

impl FilterRows for ListArray {
    #[cycle(filter)]
    #[tactic(auto, using(vx_model::proofs::ListRows::list_rows))]
    fn filter(&self, alloc: Global, mask: &MaskValues, policy: &Policy) -> StepResult {
        let validity = filter_validity(alloc, self.validity(), mask, policy)?;
        let plan = plan_list_filter(alloc, self, mask, policy, validity)?;
        let part = slice(alloc, self.elements(), plan.range.0, plan.range.1)?;
        let elements = filter(alloc, &part, &plan.mask, policy)?;
        let kept = relisted(alloc, self, elements, plan.offsets, plan.validity)?;
        Ok(kept.into_array())
    }
}

/// The lists at the picks, in order, and a null at each null, with offsets of type `U64`. The type
/// is nullable also where `nullability` is, and no pick is a null where it isn't. Fails only with
/// `NoMemory`.
#[cycle(take)]
#[tactic(auto, using(vx_model::proofs::ListRows::list_rows))]
pub fn take_lists(
    alloc: Global,
    array: &ListArray,
    picks: Picks,
    nullability: Nullability,
    policy: &Policy,
) -> Result<ListArray, NoMemory>
    requires bound { picks.bound ≡ length (list_column array.now).rows }
    requires there { nullability ≡ NonNullable → AllThere picks.picks }
    ensures taken { IfOk result (λ a.
        IsTake (list_column array.now) picks.picks nullability (list_column a)) }
    ensures offsets { IfOk result (λ a. a.offsets.kind ≡ primitive_kind U64) }
{
    let validity = take_validity(alloc, array.validity(), &picks, nullability, policy)?;
    let plan = plan_list_take(alloc, array, &picks, validity)?;
    drop(picks);
    let elements = take_runs(alloc, array.elements(), plan.runs, policy)?;
    relisted(alloc, array, elements, plan.offsets, plan.validity)
}

impl TakeRows for ListArray {
    #[cycle(take)]
    fn take(&self, alloc: Global, picks: Picks, nulls: Nullability, policy: &Policy) -> StepResult {
        Ok(take_lists(alloc, self, picks, nulls, policy)?.into_array())
    }
}
