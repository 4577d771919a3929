//! Texts of a `VarBin` at picks, as views into its own bytes.
ghost use Rattle.std.specs.Prelude.{◌≡◌, ◌+◌, ◌-◌, ◌<◌, ◌≤◌, ◌∷◌, [], length, map, slice_index, true, IfOk, IfSome};
ghost use Rattle.vx_bits.specs.Records.{records_of, width_of};
ghost use Rattle.vx_types.specs.PType.{is_int, width};
ghost use Rattle.vx_take.specs.Picks.{at};
ghost use Rattle.vx_offsets.specs.Offsets.{are_offsets, offset_positions, record_numbers};
ghost use Rattle.vx_model.specs.Numbers.{integers_of};
ghost use Rattle.vx_model.specs.VarBin.{are_integers, row_count, varbin_texts};
ghost use Rattle.vx_column.specs.Validity.{valid_of};
ghost use Rattle.vx_text.specs.LastOffset.{last_offset};
ghost use Rattle.vx_text.specs.Views.{text_view};
ghost use Rattle.vx_model.specs.Fits.{FitsTake};
ghost use Rattle.vx_text.specs.Left.{LeavesViews};

use crate::alike::one_buffer;
use std::alloc::Global;
use vx_bits::{Buffer, NoMemory, Records};
use vx_column::{BinaryView, PType, PrimitiveArray, Validity, VarBinArray, VarBinViewArray};
use vx_offsets::span_at;
use vx_positions::by_type;
use vx_take::Picks;

// The view of the text at a pick.
#[inline(always)]
fn view_at<const W: usize>(
    ptype: PType,
    records: &[[u8; W]],
    bytes: &[u8],
    pick: Option<usize>,
) -> BinaryView
    requires int { is_int ptype ≡ true }
    requires width { W ≡ width ptype }
    requires offsets { are_offsets (record_numbers ptype records.now) (length bytes.now) ≡ true }
    requires near { slice_index (offset_positions (record_numbers ptype records.now))
        (length records.now - 1) ≤ 2147483647 }
    requires row { IfSome pick (λ row. row + 1 < length records.now) }
    ensures { result
        ≡ text_view (offset_positions (record_numbers ptype records.now)) bytes.now pick }
{
    match pick {
        Some(row) => {
            let (start, end) = span_at(ptype, records, row, bytes.len());
            let text = &bytes[start..end];
            BinaryView::make_view(text, 0, start as u32)
        }
        None => BinaryView::make_view(&[], 0, 0),
    }
}

#[inline(always)]
fn views_at<const W: usize>(
    ptype: PType,
    records: &[[u8; W]],
    alloc: Global,
    bytes: &[u8],
    picks: &Picks,
) -> Result<Vec<BinaryView>, NoMemory>
    requires int { is_int ptype ≡ true }
    requires width { W ≡ width ptype }
    requires offsets { are_offsets (record_numbers ptype records.now) (length bytes.now) ≡ true }
    requires near { slice_index (offset_positions (record_numbers ptype records.now))
        (length records.now - 1) ≤ 2147483647 }
    requires bound { picks.now.bound < length records.now }
    ensures { IfOk result (λ views. views.items
        ≡ map (text_view (offset_positions (record_numbers ptype records.now)) bytes.now)
        picks.now.picks) }
{
    let mut views = Vec::with_capacity(alloc, picks.len())?;
    for i in 0..picks.len() {
        views.push_reserved(view_at(ptype, records, bytes, picks.get(i)));
    }
    Ok(views)
}

// The views of the texts at the picks, in a loop of its own for each type of offsets.
fn views_of(
    ptype: PType,
    values: &Records,
    alloc: Global,
    bytes: &[u8],
    picks: &Picks,
) -> Result<Vec<BinaryView>, NoMemory>
    requires int { is_int ptype ≡ true }
    requires width { width_of values.now ≡ width ptype }
    requires offsets { are_offsets (record_numbers ptype (records_of values.now))
        (length bytes.now) ≡ true }
    requires near { slice_index (offset_positions (record_numbers ptype (records_of values.now)))
        (length (records_of values.now) - 1) ≤ 2147483647 }
    requires bound { picks.now.bound < length (records_of values.now) }
    ensures { IfOk result (λ views. views.items
        ≡ map (text_view (offset_positions (record_numbers ptype (records_of values.now)))
        bytes.now) picks.now.picks) }
{
    by_type!(ptype, values, views_at, alloc, bytes, picks)
}

// The views of the texts at the picks, by the offsets of a column.
fn views_in(
    alloc: Global,
    offsets: &PrimitiveArray,
    bytes: &[u8],
    picks: &Picks,
) -> Result<Vec<BinaryView>, NoMemory>
    requires integers { are_integers offsets.now ≡ true }
    requires offsets { are_offsets (integers_of offsets.now) (length bytes.now) ≡ true }
    requires near { slice_index (offset_positions (integers_of offsets.now))
        (row_count offsets.now) ≤ 2147483647 }
    requires bound { picks.now.bound < length offsets.now.records }
    ensures { IfOk result (λ views. views.items
        ≡ map (text_view (offset_positions (integers_of offsets.now)) bytes.now)
        picks.now.picks) }
{
    views_of(offsets.ptype(), offsets.values(), alloc, bytes, picks)
}

/// The rows at the picks, in order, an empty text at a null pick, with their validity: views into
/// the column's own bytes. Fails only with `NoMemory`.
pub fn take_views(
    alloc: Global,
    array: &VarBinArray,
    picks: &Picks,
    validity: Validity,
) -> Result<VarBinViewArray, NoMemory>
    requires near { last_offset array.now ≤ 2147483647 }
    requires fits { FitsTake (length (varbin_texts array.now).texts) picks.now (valid_of validity) }
    ensures { IfOk result (LeavesViews array.now.kind (array.now.bytes ∷ [])
        (at [] (varbin_texts array.now).texts picks.now.picks) (valid_of validity)) }
{
    // no pick is at or past the bound
    let _ = picks.bound();
    let offsets = array.offsets();
    let bytes = array.bytes();
    let taken = views_in(alloc, offsets, bytes.as_slice(), picks)?;
    let views = Buffer::from_vec(alloc, taken)?;
    let buffers = one_buffer(alloc, bytes)?;
    Ok(VarBinViewArray::of(array.kind(), views, buffers, validity))
}
