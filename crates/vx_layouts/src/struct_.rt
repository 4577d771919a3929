//! Layout `Struct`.
ghost use Rattle.std.specs.Prelude.{◌≡◌, length, IfOk};
ghost use Rattle.vx_model.specs.Struct.{struct_column};
ghost use Rattle.vx_layouts.specs.Answers.{IsFilterOf};

use std::alloc::Global;
use vx_bits::NoMemory;
use vx_column::StructArray;
use vx_dispatch::filter_fields;
use vx_mask::{MaskValues, Policy};

/// The structs at the set positions of a mask that is as long: Vortex's `filter_struct`. The mask
/// is made ready for as many consumers as there are fields. Fails only with `NoMemory`.
pub fn filter_struct(
    alloc: Global,
    array: &StructArray,
    selection_mask: &MaskValues,
) -> Result<StructArray, NoMemory>
    requires { length selection_mask.now.bits.bits ≡ length (struct_column array.now).rows }
    ensures { IfOk result (IsFilterOf struct_column array.now selection_mask.now.bits.bits) }
{
    filter_fields(alloc, array, selection_mask, &Policy::vortex())
}
