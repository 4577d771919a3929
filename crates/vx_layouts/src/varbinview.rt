//! Layout `VarBinView`.
ghost use Rattle.std.specs.Prelude.{◌≡◌, length, IfOk};
ghost use Rattle.vx_model.specs.VarBinView.{views_column};
ghost use Rattle.vx_layouts.specs.Answers.{IsFilterOf};

use std::alloc::Global;
use vx_bits::NoMemory;
use vx_column::VarBinViewArray;
use vx_dispatch::filter_validity;
use vx_mask::{MaskValues, Policy};
use vx_text::filter_views;

/// The rows at the set positions of a mask that is as long: Vortex's `filter_varbinview`. Fails
/// only with `NoMemory`.
pub fn filter_varbinview(
    alloc: Global,
    array: &VarBinViewArray,
    selection_mask: &MaskValues,
) -> Result<VarBinViewArray, NoMemory>
    requires { length selection_mask.now.bits.bits ≡ length (views_column array.now).rows }
    ensures { IfOk result (IsFilterOf views_column array.now selection_mask.now.bits.bits) }
{
    let vortex = &Policy::vortex();
    let validity = filter_validity(alloc, array.validity(), selection_mask, vortex)?;
    filter_views(alloc, array, selection_mask, vortex, validity)
}
