//! Texts of a `VarBin` at picks, one after another.
ghost use Rattle.std.specs.Prelude.{◌≡◌, ◌+◌, ◌<◌, [], length, false, slice_index_or, true, if◌then◌else◌, IfOk, IfSome, None};
ghost use Rattle.vx_bits.specs.Records.{records_of, width_of};
ghost use Rattle.vx_types.specs.PType.{is_int, width};
ghost use Rattle.vx_mask.specs.Mask.{mask_bits};
ghost use Rattle.vx_take.specs.Picks.{at, item_at};
ghost use Rattle.vx_offsets.specs.Offsets.{are_offsets, lists_at, offset_positions, record_numbers};
ghost use Rattle.vx_model.specs.Numbers.{integers_of};
ghost use Rattle.vx_model.specs.Text.{kept_texts};
ghost use Rattle.vx_model.specs.Valid.{present_bits};
ghost use Rattle.vx_model.specs.VarBin.{are_integers, varbin_texts};
ghost use Rattle.vx_column.specs.Validity.{valid_of};
ghost use Rattle.vx_offsets.specs.Cut.{type_of};
ghost use Rattle.vx_text.specs.Building.{AreTexts};
ghost use Rattle.vx_model.specs.Fits.{FitsTake};
ghost use Rattle.vx_text.specs.Left.{LeavesTexts};

use crate::texts::Texts;
use std::alloc::Global;
use vx_bits::{NoMemory, Records};
use vx_column::{PType, PrimitiveArray, Validity, VarBinArray};
use vx_mask::Mask;
use vx_offsets::span_at;
use vx_positions::by_type;
use vx_reading::present_mask;
use vx_take::Picks;

// The text at a pick, and an empty one at a null.
#[inline(always)]
fn text_at<'a, const W: usize>(
    ptype: PType,
    records: &[[u8; W]],
    bytes: &'a [u8],
    pick: Option<usize>,
) -> &'a [u8]
    requires int { is_int ptype ≡ true }
    requires width { W ≡ width ptype }
    requires offsets { are_offsets (record_numbers ptype records.now) (length bytes.now) ≡ true }
    requires row { IfSome pick (λ row. row + 1 < length records.now) }
    ensures { result.now ≡ item_at []
        (lists_at (offset_positions (record_numbers ptype records.now)) bytes.now) pick }
{
    match pick {
        Some(row) => {
            let (start, end) = span_at(ptype, records, row, bytes.len());
            &bytes[start..end]
        }
        None => &[],
    }
}

// Pick `i`, and none where the row is null.
#[inline(always)]
fn shown_pick(picks: &Picks, present: &Mask, i: usize) -> Option<usize>
    requires pick { i < length picks.now.picks }
    requires row { i < length (mask_bits present.now) }
    ensures value { result ≡ (if slice_index_or (mask_bits present.now) i false then
        slice_index_or picks.now.picks i None else None) }
    ensures below { IfSome result (λ p. p < picks.now.bound) }
{
    if present.value(i) { picks.get(i) } else { None }
}

// How many bytes the texts at the picks have, or the greatest number where they are more.
#[inline(always)]
#[tactic(auto, using(crate::proofs::PickedRows::picked_row))]
fn bytes_at<const W: usize>(
    ptype: PType,
    records: &[[u8; W]],
    bytes: &[u8],
    picks: &Picks,
    present: &Mask,
) -> usize
    requires int { is_int ptype ≡ true }
    requires width { W ≡ width ptype }
    requires offsets { are_offsets (record_numbers ptype records.now) (length bytes.now) ≡ true }
    requires bound { picks.now.bound < length records.now }
    requires long { length (mask_bits present.now) ≡ length picks.now.picks }
{
    let mut total: usize = 0;
    for i in 0..picks.len() {
        let pick = shown_pick(picks, present, i);
        total = total.saturating_add(text_at(ptype, records, bytes, pick).len());
    }
    total
}

#[inline(always)]
fn texts_at<const W: usize>(
    ptype: PType,
    records: &[[u8; W]],
    alloc: Global,
    bytes: &[u8],
    picks: &Picks,
    present: &Mask,
) -> Result<Texts, NoMemory>
    requires int { is_int ptype ≡ true }
    requires width { W ≡ width ptype }
    requires offsets { are_offsets (record_numbers ptype records.now) (length bytes.now) ≡ true }
    requires bound { picks.now.bound < length records.now }
    requires long { length (mask_bits present.now) ≡ length picks.now.picks }
    ensures { IfOk result (λ t. AreTexts ptype t.offsets t.bytes.items
        (kept_texts (mask_bits present.now)
        (at [] (lists_at (offset_positions (record_numbers ptype records.now)) bytes.now)
        picks.now.picks))) }
{
    let room = bytes_at(ptype, records, bytes, picks, present);
    let mut texts = Texts::with_room(alloc, ptype, picks.len(), room)?;
    for i in 0..picks.len() {
        let pick = shown_pick(picks, present, i);
        texts.push(text_at(ptype, records, bytes, pick))?;
    }
    Ok(texts)
}

// The texts at the picks, in a loop of its own for each type of offsets.
fn texts_of(
    ptype: PType,
    values: &Records,
    alloc: Global,
    bytes: &[u8],
    picks: &Picks,
    present: &Mask,
) -> Result<Texts, NoMemory>
    requires int { is_int ptype ≡ true }
    requires width { width_of values.now ≡ width ptype }
    requires offsets { are_offsets (record_numbers ptype (records_of values.now))
        (length bytes.now) ≡ true }
    requires bound { picks.now.bound < length (records_of values.now) }
    requires long { length (mask_bits present.now) ≡ length picks.now.picks }
    ensures { IfOk result (λ t. AreTexts ptype t.offsets t.bytes.items
        (kept_texts (mask_bits present.now)
        (at [] (lists_at (offset_positions (record_numbers ptype (records_of values.now)))
        bytes.now) picks.now.picks))) }
{
    by_type!(ptype, values, texts_at, alloc, bytes, picks, present)
}

/// The texts at the picks, by the offsets of a column.
pub(crate) fn texts_in(
    alloc: Global,
    offsets: &PrimitiveArray,
    bytes: &[u8],
    picks: &Picks,
    present: &Mask,
) -> Result<Texts, NoMemory>
    requires integers { are_integers offsets.now ≡ true }
    requires offsets { are_offsets (integers_of offsets.now) (length bytes.now) ≡ true }
    requires bound { picks.now.bound < length offsets.now.records }
    requires long { length (mask_bits present.now) ≡ length picks.now.picks }
    ensures { IfOk result (λ t. AreTexts (type_of offsets.now.kind) t.offsets t.bytes.items
        (kept_texts (mask_bits present.now)
        (at [] (lists_at (offset_positions (integers_of offsets.now)) bytes.now)
        picks.now.picks))) }
{
    let values = offsets.values();
    texts_of(offsets.ptype(), values, alloc, bytes, picks, present)
}

/// The rows at the picks, in order, with their validity; the text of a null row is empty. Their
/// offsets have at least 32 bits, and are as signed as those of the column. Fails only with
/// `NoMemory`.
pub fn take_varbin_picks(
    alloc: Global,
    array: &VarBinArray,
    picks: &Picks,
    validity: Validity,
) -> Result<VarBinArray, NoMemory>
    requires { FitsTake (length (varbin_texts array.now).texts) picks.now (valid_of validity) }
    ensures { IfOk result (LeavesTexts array.now
        (kept_texts (present_bits (valid_of validity) (length picks.now.picks))
        (at [] (varbin_texts array.now).texts picks.now.picks)) (valid_of validity)) }
{
    let present = present_mask(alloc, &validity, picks.len())?;
    let offsets = array.offsets();
    let bytes = array.bytes();
    let texts = texts_in(alloc, offsets, bytes.as_slice(), picks, &present)?;
    texts.finish(alloc, array.kind(), validity)
}
