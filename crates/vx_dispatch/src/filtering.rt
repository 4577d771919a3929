//! The rows at the set positions of a mask, over every layout.
ghost use Rattle.std.specs.Prelude.{◌≡◌, ℕ, length, None, true, IfOk, IsOk};
ghost use Rattle.std.specs.List.{items_where_true};
ghost use Rattle.vx_mask.specs.Mask.{mask_bits, partial_of};
ghost use Rattle.vx_model.specs.Plain.{is_null_layout, is_plain};
ghost use Rattle.vx_model.specs.Step.{IsCut};

use crate::parts::{Parts, StepResult};
use crate::slicing::slice;
use crate::union_::filter_variants;
use std::alloc::Global;
use vx_bits::NoMemory;
use vx_column::{Array, Layout};
use vx_mask::{Mask, MaskValues, Policy};
use vx_plain::Stored;
use vx_stored::{filter_constant, filter_nulls};

/// A layout whose rows the recursion filters.
pub(crate) trait FilterRows: Parts {
    // The rows at the set positions of a mask that selects some and not all.
    fn filter(&self, alloc: Global, mask: &MaskValues, policy: &Policy) -> StepResult
        requires { length mask.now.bits.bits ≡ length (Self.column self.now).rows }
        ensures { IfOk result (IsCut (Self.column self.now)
            (items_where_true mask.now.bits.bits (Self.column self.now).rows)) };
}

/// The rows at the set positions of a mask that selects some and not all.
#[cycle(filter)]
pub(crate) fn filter_values(
    alloc: Global,
    array: &Array,
    mask: &MaskValues,
    policy: &Policy,
) -> Result<Array, NoMemory>
    requires { length mask.now.bits.bits ≡ length array.now.rows }
    ensures cut { IfOk result
        (IsCut array.now (items_where_true mask.now.bits.bits array.now.rows)) }
    ensures null { is_null_layout array.now.layout ≡ true → IsOk result }
{
    match array.layout() {
        Layout::Null(a) => Ok(filter_nulls(a, mask)),
        Layout::Bool(a) => Stored::Bits(a).filter(alloc, mask, policy),
        Layout::Primitive(a) => Stored::Records(a.rows()).filter(alloc, mask, policy),
        Layout::Decimal(a) => Stored::Records(a.rows()).filter(alloc, mask, policy),
        Layout::VarBin(a) => Stored::Texts(a).filter(alloc, mask, policy),
        Layout::VarBinView(a) => Stored::Views(a).filter(alloc, mask, policy),
        Layout::List(a) => a.filter(alloc, mask, policy),
        Layout::ListView(a) => a.filter(alloc, mask, policy),
        Layout::FixedSizeList(a) => a.filter(alloc, mask, policy),
        Layout::Map(a) => a.filter(alloc, mask, policy),
        Layout::Struct(a) => a.filter(alloc, mask, policy),
        Layout::Union(a) => Ok(filter_variants(alloc, a, mask, policy)?.into_array()),
        Layout::Extension(a) => a.filter(alloc, mask, policy),
        Layout::Constant(a) => Ok(filter_constant(a, mask)),
        Layout::Dict(a) => a.filter(alloc, mask, policy),
        Layout::Filter(a) => a.filter(alloc, mask, policy),
    }
}

/// The rows at the set positions of a mask that is as long. Fails only with `NoMemory`, and never
/// where the mask keeps all rows, nor where it keeps none of a plain column, nor over layout
/// `Null`.
#[cycle(filter)]
pub fn filter(alloc: Global, array: &Array, mask: &Mask, policy: &Policy) -> Result<Array, NoMemory>
    requires { length (mask_bits mask.now) ≡ length array.now.rows }
    ensures cut { IfOk result
        (IsCut array.now (items_where_true (mask_bits mask.now) array.now.rows)) }
    ensures all { (n : ℕ) → mask.now ≡ Mask.AllTrue n → IsOk result }
    ensures all_or_none { partial_of mask.now ≡ None → is_plain array.now ≡ true → IsOk result }
    ensures null { is_null_layout array.now.layout ≡ true → IsOk result }
{
    match mask {
        Mask::AllTrue(_) => Ok(array.share()),
        Mask::AllFalse(_) => slice(alloc, array, 0, 0),
        Mask::Values(values) => filter_values(alloc, array, values, policy),
    }
}
