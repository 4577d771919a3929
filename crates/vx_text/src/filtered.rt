//! Texts of a `VarBin` at the set positions of a mask.
ghost use Rattle.std.specs.Prelude.{◌≡◌, length, map, replicate, true, IfOk, IsTrue, Some};
ghost use Rattle.std.specs.List.{items_where_true};
ghost use Rattle.vx_bits.specs.BitBuffer.{true_count_of};
ghost use Rattle.vx_mask.specs.Mask.{mask_bits};
ghost use Rattle.vx_mask.specs.Positions.{set_of};
ghost use Rattle.vx_model.specs.Text.{kept_texts};
ghost use Rattle.vx_model.specs.Valid.{present_bits};
ghost use Rattle.vx_model.specs.VarBin.{varbin_texts};
ghost use Rattle.vx_column.specs.Validity.{valid_of};
ghost use Rattle.vx_offsets.specs.Cut.{type_of};
ghost use Rattle.vx_text.specs.Building.{AreTexts};
ghost use Rattle.vx_model.specs.Fits.{FitsFilter};
ghost use Rattle.vx_text.specs.Left.{LeavesTexts};

use crate::picked_texts::texts_in;
use crate::run_texts::texts_in_runs;
use crate::texts::Texts;
use std::alloc::Global;
use vx_bits::NoMemory;
use vx_column::{Validity, VarBinArray};
use vx_mask::{Mask, MaskValues, Policy};
use vx_reading::present_mask;
use vx_take::Picks;

// The set positions of a mask, as picks.
fn set_picks(alloc: Global, mask: &MaskValues) -> Result<Picks, NoMemory>
    ensures { IfOk result (λ p. p ≡ record {
      picks = map Some (set_of mask.now.bits.bits);
      bound = length mask.now.bits.bits;
    }) }
{
    let listed = Mask::Values(mask.share()).with_indices(alloc)?;
    match listed.cached_indices() {
        Some(indices) => {
            let positions = indices.to_vec(alloc)?;
            Ok(Picks::from_vec(positions, mask.len()))
        }
        None => unreachable!(),
    }
}

// Whether texts are copied run by run: no row is null, and the mask is as dense as the policy asks.
fn goes_by_runs(mask: &MaskValues, policy: &Policy, present: &Mask) -> bool
    ensures { IsTrue result
        → mask_bits present.now ≡ replicate (length (mask_bits present.now)) true }
{
    let least = policy.fields().text_indices_below;
    match present {
        Mask::AllTrue(_) => Mask::Values(mask.share()).density_at_least(least.num, least.den),
        _ => false,
    }
}

// The texts at the set positions of a mask, by its runs. Fails only with `NoMemory`.
fn texts_by_mask(alloc: Global, array: &VarBinArray, mask: &MaskValues) -> Result<Texts, NoMemory>
    requires { length mask.now.bits.bits ≡ length (varbin_texts array.now).texts }
    ensures { IfOk result (λ t. AreTexts (type_of array.now.offsets.kind) t.offsets t.bytes.items
        (items_where_true mask.now.bits.bits (varbin_texts array.now).texts)) }
{
    let sliced = Mask::Values(mask.share()).with_slices(alloc)?;
    let offsets = array.offsets();
    let bytes = array.bytes();
    match &sliced {
        Mask::Values(values) => match values.cached_slices() {
            Some(runs) => {
                texts_in_runs(alloc, offsets, bytes.as_slice(), runs, mask.true_count())
            }
            None => unreachable!(),
        },
        _ => unreachable!(),
    }
}

// The texts at the set positions of a mask that are there, and an empty one in place of each other:
// by its runs or by its set positions. Fails only with `NoMemory`.
fn texts_kept(
    alloc: Global,
    array: &VarBinArray,
    mask: &MaskValues,
    policy: &Policy,
    present: &Mask,
) -> Result<Texts, NoMemory>
    requires long { length mask.now.bits.bits ≡ length (varbin_texts array.now).texts }
    requires fitting { length (mask_bits present.now) ≡ true_count_of mask.now.bits.bits }
    ensures { IfOk result (λ t. AreTexts (type_of array.now.offsets.kind) t.offsets t.bytes.items
        (kept_texts (mask_bits present.now)
        (items_where_true mask.now.bits.bits (varbin_texts array.now).texts))) }
{
    if goes_by_runs(mask, policy, present) {
        return texts_by_mask(alloc, array, mask);
    }
    let picks = set_picks(alloc, mask)?;
    let offsets = array.offsets();
    let bytes = array.bytes();
    texts_in(alloc, offsets, bytes.as_slice(), &picks, present)
}

/// The rows at the set positions of `mask`, in order, with their validity; the text of a null row
/// is empty. Their offsets have at least 32 bits, and are as signed as those of the column. Fails
/// only with `NoMemory`.
///
/// By the runs of the mask where no row is null and the mask is as dense as the policy asks, each
/// run's bytes copied at once; else by its set positions.
pub fn filter_varbin(
    alloc: Global,
    array: &VarBinArray,
    mask: &MaskValues,
    policy: &Policy,
    validity: Validity,
) -> Result<VarBinArray, NoMemory>
    requires { FitsFilter
        (length (varbin_texts array.now).texts) mask.now (valid_of validity) }
    ensures { let bits = mask.now.bits.bits in
        IfOk result (LeavesTexts array.now
        (kept_texts (present_bits (valid_of validity) (true_count_of bits))
        (items_where_true bits (varbin_texts array.now).texts)) (valid_of validity)) }
{
    let present = present_mask(alloc, &validity, mask.true_count())?;
    let texts = texts_kept(alloc, array, mask, policy, &present)?;
    texts.finish(alloc, array.kind(), validity)
}
