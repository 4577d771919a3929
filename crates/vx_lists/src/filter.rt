//! A filter of lists: new offsets, a range of elements, and which of them stay.
ghost use Rattle.std.specs.Prelude.{◌≡◌, ◌+◌, ◌-◌, ◌<◌, ◌≤◌, ◌++◌, IfOk, IsSome, length, map, slice_index, sum_by, true, vec_len, vec_capacity};
ghost use Rattle.std.specs.List.{All, range_with_len};
ghost use Rattle.vx_bits.specs.BitBuffer.{true_count_of};
ghost use Rattle.vx_mask.specs.Mask.{mask_bits, partial_of};
ghost use Rattle.vx_mask.specs.Positions.{ascending, rank_of, run_positions, set_of};
ghost use Rattle.vx_lists.specs.Lists.{AreElementBits, AreOffsets, last_offset, row_count};
ghost use Rattle.vx_lists.specs.Filters.{FiltersLists, IsElementRange, crop_range, leaves_out, selected_range, whole_range};
ghost use Rattle.vx_lists.specs.Sums.{length_at, offsets_of, sums_from};

use crate::element_mask::{indices_of, marked_by_indices, marked_by_runs};
use crate::runs::set_runs;
use std::alloc::Global;
use vx_bits::{BitBuffer, NoMemory};
use vx_mask::{Mask, MaskValues, Policy, PolicyFields, Ratio};

/// What a filter of lists leaves: new offsets, and the new elements, which are the old ones of the
/// range that the mask selects.
#[derive(Drop)]
pub struct ListFilter {
    /// The new offsets, from 0 on.
    pub offsets: Vec<u64>,
    /// The range of old elements, from its start up to its end, which it leaves out.
    pub range: (usize, usize),
    /// Which elements of the range stay.
    pub mask: Mask,
}

/// The lists at the set positions of `selection`, in order. Fails only with `NoMemory`.
///
/// The range goes from the first offset to the last. It is cut to the elements from the first
/// selected list to the last where at least `crop_min` elements lie outside these, and that number
/// times `crop_factor` reaches the length of the range. The set positions are walked one by one
/// where their density is below `list_indices_below`, else run by run.
pub fn filter_lists(
    alloc: Global,
    offsets: &[u64],
    selection: &MaskValues,
    policy: &Policy,
) -> Result<ListFilter, NoMemory>
    requires offsets { AreOffsets offsets.now }
    requires counted { length offsets.now ≡ length selection.now.bits.bits + 1 }
    ensures lists { IfOk result (λ filter. FiltersLists offsets.now selection.now.bits.bits
        filter.offsets.items filter.range (mask_bits filter.mask)) }
    ensures sums { IfOk result (λ filter. filter.offsets.items ≡ offsets_of
        (map (length_at offsets.now) (set_of selection.now.bits.bits))) }
    ensures bounded { IfOk result
        (λ filter. All (λ n. n ≤ last_offset offsets.now) filter.offsets.items) }
    ensures set { IfOk result (λ filter. AreElementBits offsets.now selection.now.bits.bits
        filter.range (mask_bits filter.mask)) }
    ensures inside { IfOk result (λ filter. (filter.range.0 ≤ filter.range.1)
        × (filter.range.1 ≤ last_offset offsets.now)) }
    ensures range { IfOk result (λ filter. filter.range ≡ crop_range policy.now
        (whole_range offsets.now) (selected_range offsets.now selection.now.bits.bits)) }
{
    let fields = policy.fields();
    let range = crop(offsets, selection, fields);
    let mask = Mask::Values(selection.share());
    let (offsets, bits) = parts_of(alloc, offsets, &mask, range, fields.list_indices_below)?;
    Ok(ListFilter {
        offsets,
        range,
        mask: Mask::from_buffer(bits),
    })
}

// The range of elements that the new ones are taken from.
fn crop(offsets: &[u64], selection: &MaskValues, fields: &PolicyFields) -> (usize, usize)
    requires offsets { AreOffsets offsets.now }
    requires counted { length offsets.now ≡ length selection.now.bits.bits + 1 }
    ensures value { result ≡ crop_range fields.now
        (whole_range offsets.now) (selected_range offsets.now selection.now.bits.bits) }
    ensures range { IsElementRange offsets.now selection.now.bits.bits result }
{
    // Some list is selected.
    let _ = selection.true_count();
    let first = selection.rank(0);
    let last = last_row(selection);
    let range = (offsets[0] as usize, offsets[selection.len()] as usize);
    let part = (offsets[first] as usize, offsets[last + 1] as usize);
    if leaves_out(fields, range, part) {
        part
    } else {
        range
    }
}

// The last selected row.
fn last_row(selection: &MaskValues) -> usize
    ensures rank { result ≡ rank_of selection.now.bits.bits
        (true_count_of selection.now.bits.bits - 1) }
    ensures within { result < length selection.now.bits.bits }
{
    // Some row is selected.
    let _ = selection.true_count();
    match selection.bits().last_set() {
        Some(row) => row,
        None => unreachable!(),
    }
}

// Whether enough elements of a range lie outside a part of it.
fn leaves_out(fields: &PolicyFields, range: (usize, usize), part: (usize, usize)) -> bool
    requires ordered { part.0 ≤ part.1 }
    requires low { range.0 ≤ part.0 }
    requires high { part.1 ≤ range.1 }
    ensures { result ≡ leaves_out fields.now range part }
{
    let all = range.1 - range.0;
    let outside = all - (part.1 - part.0);
    outside >= fields.crop_min && outside as u128 * fields.crop_factor as u128 >= all as u128
}

// The new offsets and the bits of the elements that stay: by the set positions where the density
// of the mask is below the threshold, else by runs of them.
fn parts_of(
    alloc: Global,
    offsets: &[u64],
    mask: &Mask,
    range: (usize, usize),
    threshold: Ratio,
) -> Result<(Vec<u64>, BitBuffer), NoMemory>
    requires partial { IsSome (partial_of mask.now) }
    requires offsets { AreOffsets offsets.now }
    requires counted { length offsets.now ≡ length (mask_bits mask.now) + 1 }
    requires range { IsElementRange offsets.now (mask_bits mask.now) range }
    ensures sums { IfOk result (λ parts. parts.0.items
        ≡ offsets_of (map (length_at offsets.now) (set_of (mask_bits mask.now)))) }
    ensures bits { IfOk result
        (λ parts. AreElementBits offsets.now (mask_bits mask.now) range parts.1.bits) }
{
    if mask.density_at_least(threshold.num, threshold.den) {
        let runs = set_runs(alloc, mask)?;
        let sums = sums_by_runs(alloc, offsets, runs.as_slice(), mask.true_count())?;
        let bits = marked_by_runs(alloc, offsets, runs.as_slice(), range)?;
        return Ok((sums, bits));
    }
    let kept = mask.with_indices(alloc)?;
    let indices = indices_of(&kept);
    let sums = sums_by_indices(alloc, offsets, indices)?;
    let bits = marked_by_indices(alloc, offsets, indices, range)?;
    Ok((sums, bits))
}

// The offsets of the lists at these indices, one after another.
fn sums_by_indices(alloc: Global, offsets: &[u64], indices: &[usize]) -> Result<Vec<u64>, NoMemory>
    requires offsets { AreOffsets offsets.now }
    requires ascend { ascending 0 (row_count offsets.now) indices.now ≡ true }
    ensures { IfOk result
        (λ sums. sums.items ≡ offsets_of (map (length_at offsets.now) indices.now)) }
{
    let mut sums = Vec::with_capacity(alloc, indices.len() + 1)?;
    let mut total = 0;
    sums.push_reserved(0);
    for index in indices {
        total += offsets[*index + 1] - offsets[*index];
        sums.push_reserved(total);
    }
    Ok(sums)
}

// The offsets of the `count` lists in these runs, one after another.
fn sums_by_runs(
    alloc: Global,
    offsets: &[u64],
    runs: &[(usize, usize)],
    count: usize,
) -> Result<Vec<u64>, NoMemory>
    requires offsets { AreOffsets offsets.now }
    requires none_empty { All (λ run. run.0 < run.1) runs.now }
    requires ascend { ascending 0 (row_count offsets.now) (run_positions runs.now) ≡ true }
    requires counted { count ≡ length (run_positions runs.now) }
    requires some_room { count < length offsets.now }
    ensures { IfOk result
        (λ sums. sums.items ≡ offsets_of (map (length_at offsets.now) (run_positions runs.now))) }
{
    let mut sums = Vec::with_capacity(alloc, count + 1)?;
    let mut total = 0;
    sums.push_reserved(0);
    for run in runs {
        total = push_sums(&mut sums, offsets, run.0, run.1, total);
    }
    Ok(sums)
}

// Appends the running sums of the lengths of the lists from `first` up to `end`, for which there is
// room, and gives the last one.
#[inline(always)]
fn push_sums(sums: &mut Vec<u64>, offsets: &[u64], first: usize, end: usize, before: u64) -> u64
    requires offsets { AreOffsets offsets.now }
    requires ordered { first ≤ end }
    requires within { end < length offsets.now }
    requires before { before ≤ slice_index offsets.now first }
    requires room { vec_len sums.old + (end - first) ≤ vec_capacity sums.old }
    ensures items { sums.new.items ≡ sums.old.items
        ++ sums_from before (map (length_at offsets.now) (range_with_len first (end - first))) }
    ensures total { result
        ≡ before + sum_by (length_at offsets.now) (range_with_len first (end - first)) }
    ensures bound { result ≤ slice_index offsets.now end }
    ensures len { vec_len sums.new ≡ vec_len sums.old + (end - first) }
    ensures capacity { vec_capacity sums.new ≡ vec_capacity sums.old }
{
    let shift = offsets[first] - before;
    let mut total = before;
    for i in first..end {
        total = offsets[i + 1] - shift;
        sums.push_reserved(total);
    }
    total
}
