//! Layout `FixedSizeList`.
ghost use Rattle.std.specs.Prelude.{◌≡◌, length, IfOk};
ghost use Rattle.vx_model.specs.FixedSizeList.{fixed_column};
ghost use Rattle.vx_layouts.specs.Answers.{IsFilterOf};

use std::alloc::Global;
use vx_bits::NoMemory;
use vx_column::FixedSizeListArray;
use vx_dispatch::{filter, filter_validity};
use vx_lists::plan_fixed_filter;
use vx_mask::{MaskValues, Policy};

/// The lists at the set positions of a mask that is as long, of the elements that are theirs:
/// Vortex's `filter_fixed_size_list`. Fails only with `NoMemory`.
#[tactic(auto, using(vx_model::proofs::ListRows::fixed_rows))]
pub fn filter_fixed_size_list(
    alloc: Global,
    array: &FixedSizeListArray,
    selection_mask: &MaskValues,
) -> Result<FixedSizeListArray, NoMemory>
    requires { length selection_mask.now.bits.bits ≡ length (fixed_column array.now).rows }
    ensures { IfOk result (IsFilterOf fixed_column array.now selection_mask.now.bits.bits) }
{
    let policy = Policy::vortex();
    let validity = filter_validity(alloc, array.validity(), selection_mask, &policy)?;
    let plan = plan_fixed_filter(alloc, array, selection_mask, &policy, validity)?;
    let elements = filter(alloc, array.elements(), &plan.mask, &policy)?;
    let elements = elements.into_ref(alloc)?;
    Ok(array.with_parts(elements, plan.validity, selection_mask.true_count()))
}
