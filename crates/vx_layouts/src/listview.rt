//! Layout `ListView`.
ghost use Rattle.std.specs.Prelude.{◌≡◌, length, IfOk};
ghost use Rattle.vx_model.specs.ListView.{listview_column};
ghost use Rattle.vx_layouts.specs.Answers.{IsFilterOf};

use std::alloc::Global;
use vx_bits::NoMemory;
use vx_column::ListViewArray;
use vx_dispatch::filter_validity;
use vx_lists::plan_view_filter;
use vx_mask::{MaskValues, Policy};

/// The lists at the set positions of a mask that is as long, of the same elements: Vortex's
/// `filter_listview`. Fails only with `NoMemory`.
#[tactic(auto, using(vx_model::proofs::ListRows::listview_rows))]
pub fn filter_listview(
    alloc: Global,
    array: &ListViewArray,
    selection_mask: &MaskValues,
) -> Result<ListViewArray, NoMemory>
    requires { length selection_mask.now.bits.bits ≡ length (listview_column array.now).rows }
    ensures { IfOk result (IsFilterOf listview_column array.now selection_mask.now.bits.bits) }
{
    let elements = array.elements().share();
    let policy = Policy::vortex();
    let validity = filter_validity(alloc, array.validity(), selection_mask, &policy)?;
    let plan = plan_view_filter(alloc, array, selection_mask, &policy, validity)?;
    Ok(array.with_parts(elements, plan.offsets, plan.sizes, plan.validity))
}
