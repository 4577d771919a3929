//! The mask of the elements of selected lists.
ghost use Rattle.std.specs.Prelude.{◌≡◌, ◌+◌, ◌-◌, ◌^◌, ◌<◌, ◌≤◌, ◌++◌, IfOk, IsSome, OnOk, length, map, nat_lt, replicate, false, true, if◌then◌else◌};
ghost use Rattle.std.specs.List.{All, range_with_len};
ghost use Rattle.vx_lists.specs.Lists.{AreElementBits, AreOffsets, Covers, IsWithin, MarksSelected, row_count, span_at};
ghost use Rattle.vx_mask.specs.Mask.{indices_in, mask_bits, partial_of, slices_in};
ghost use Rattle.vx_mask.specs.Positions.{ascending, run_positions, set_of};

use crate::runs::set_runs;
use std::alloc::Global;
use vx_bits::{BitBuffer, BitBuilder, NoMemory};
use vx_mask::{Mask, MaskValues, Policy, Ratio};

/// The mask of a range of elements, set where they lie in the selected lists: Vortex's
/// `element_mask_from_offsets`.
///
/// It goes by the set positions where the density of the selection is below the
/// `list_indices_below` of `Policy::vortex()`, else by runs of them. Fails only with `NoMemory`.
pub fn element_mask_from_offsets(
    alloc: Global,
    offsets: &[u64],
    selection: &MaskValues,
    element_range: (usize, usize),
) -> Result<Mask, NoMemory>
    requires offsets { AreOffsets offsets.now }
    requires counted { length offsets.now ≡ length selection.now.bits.bits + 1 }
    requires ordered { element_range.0 ≤ element_range.1 }
    requires covered { Covers element_range offsets.now selection.now.bits.bits }
    ensures set { IfOk result (λ m. AreElementBits offsets.now selection.now.bits.bits element_range
        (mask_bits m)) }
    ensures marks { IfOk result (λ m. MarksSelected offsets.now selection.now.bits.bits
        element_range.0 (mask_bits m)) }
{
    let mask = Mask::Values(selection.share());
    let threshold = Policy::vortex().fields().list_indices_below;
    let bits = element_bits(alloc, offsets, &mask, element_range, threshold)?;
    Ok(Mask::from_buffer(bits))
}

// The bits of the element mask, for a mask that selects some lists and not all: by the set
// positions where the density of the mask is below the threshold, else by runs of them.
fn element_bits(
    alloc: Global,
    offsets: &[u64],
    mask: &Mask,
    range: (usize, usize),
    threshold: Ratio,
) -> Result<BitBuffer, NoMemory>
    requires partial { IsSome (partial_of mask.now) }
    requires offsets { AreOffsets offsets.now }
    requires counted { length offsets.now ≡ length (mask_bits mask.now) + 1 }
    requires ordered { range.0 ≤ range.1 }
    requires covered { Covers range offsets.now (mask_bits mask.now) }
    ensures { IfOk result
        (λ b. AreElementBits offsets.now (mask_bits mask.now) range b.bits) }
{
    if mask.density_at_least(threshold.num, threshold.den) {
        let runs = set_runs(alloc, mask)?;
        return marked_by_runs(alloc, offsets, runs.as_slice(), range);
    }
    let kept = mask.with_indices(alloc)?;
    marked_by_indices(alloc, offsets, indices_of(&kept), range)
}

/// The set positions that a mask keeps.
pub(crate) fn indices_of(mask: &Mask) -> &[usize]
    requires { IsSome (indices_in mask.now) }
    ensures { result.now ≡ set_of (mask_bits mask.now) }
{
    match mask.cached_indices() {
        Some(indices) => indices,
        None => unreachable!(),
    }
}

/// The runs that a mask keeps.
pub(crate) fn runs_of(mask: &Mask) -> &[(usize, usize)]
    requires { IsSome (slices_in mask.now) }
    ensures cover { run_positions result.now ≡ set_of (mask_bits mask.now) }
    ensures none_empty { All (λ run. run.0 < run.1) result.now }
{
    match mask.values() {
        Some(values) => match values.cached_slices() {
            Some(runs) => runs,
            None => unreachable!(),
        },
        None => unreachable!(),
    }
}

/// The bits of the elements of the lists at these indices.
pub(crate) fn marked_by_indices(
    alloc: Global,
    offsets: &[u64],
    indices: &[usize],
    range: (usize, usize),
) -> Result<BitBuffer, NoMemory>
    requires offsets { AreOffsets offsets.now }
    requires ascend { ascending 0 (row_count offsets.now) indices.now ≡ true }
    requires ordered { range.0 ≤ range.1 }
    requires covered { All (λ i. IsWithin range (span_at offsets.now i)) indices.now }
    ensures len { IfOk result (λ b. length b.bits ≡ range.1 - range.0) }
    ensures set { IfOk result (λ b. map (λ p. range.0 + p) (set_of b.bits)
        ≡ run_positions (map (span_at offsets.now) indices.now)) }
{
    let mut bits = BitBuilder::with_capacity(alloc, range.1 - range.0)?;
    for index in indices {
        append_elements(&mut bits, range.0, offsets[*index], offsets[*index + 1])?;
    }
    padded(bits, range.1 - range.0)
}

/// The bits of the elements of the lists in these runs.
pub(crate) fn marked_by_runs(
    alloc: Global,
    offsets: &[u64],
    runs: &[(usize, usize)],
    range: (usize, usize),
) -> Result<BitBuffer, NoMemory>
    requires offsets { AreOffsets offsets.now }
    requires none_empty { All (λ run. run.0 < run.1) runs.now }
    requires ascend { ascending 0 (row_count offsets.now) (run_positions runs.now) ≡ true }
    requires ordered { range.0 ≤ range.1 }
    requires covered { All (λ i. IsWithin range (span_at offsets.now i)) (run_positions runs.now) }
    ensures len { IfOk result (λ b. length b.bits ≡ range.1 - range.0) }
    ensures set { IfOk result (λ b. map (λ p. range.0 + p) (set_of b.bits)
        ≡ run_positions (map (span_at offsets.now) (run_positions runs.now))) }
{
    let mut bits = BitBuilder::with_capacity(alloc, range.1 - range.0)?;
    for run in runs {
        append_elements(&mut bits, range.0, offsets[run.0], offsets[run.1])?;
    }
    padded(bits, range.1 - range.0)
}

// Appends set bits for the elements from `low` up to `high`, and clear bits before them, where the
// first bit is that of element `start`.
#[inline(always)]
fn append_elements(bits: &mut BitBuilder, start: usize, low: u64, high: u64) -> Result<(), NoMemory>
    requires ordered { low ≤ high }
    requires behind { low < high → start + length bits.old ≤ low }
    ensures set { OnOk result (map (λ p. start + p) (set_of bits.new)
        ≡ map (λ p. start + p) (set_of bits.old) ++ range_with_len low (high - low)) }
    ensures len { OnOk result
        (length bits.new ≡ (if nat_lt low high then high - start else length bits.old)) }
{
    if low < high {
        let clear = low as usize - start - bits.len();
        append_run(bits, clear, (high - low) as usize)?;
    }
    Ok(())
}

// Appends so many clear bits and then so many set ones: as one word, where they fit into one.
#[inline(always)]
fn append_run(bits: &mut BitBuilder, clear: usize, set: usize) -> Result<(), NoMemory>
    requires some { 0 < set }
    requires counted { clear + set < 2 ^ 64 }
    ensures { OnOk result
        (bits.new ≡ (bits.old ++ replicate clear false) ++ replicate set true) }
{
    if clear + set <= 64 {
        return bits.append_word((u64::MAX >> (64 - set)) << clear, clear + set);
    }
    bits.append_n(false, clear)?;
    append_ones(bits, set)
}

// Appends so many set bits.
#[inline(always)]
fn append_ones(bits: &mut BitBuilder, n: usize) -> Result<(), NoMemory>
    requires { 0 < n }
    ensures { OnOk result (bits.new ≡ bits.old ++ replicate n true) }
{
    if n <= 64 {
        return bits.append_word(u64::MAX >> (64 - n), n);
    }
    bits.append_n(true, n)
}

// These bits, and clear ones up to this length.
fn padded(mut bits: BitBuilder, len: usize) -> Result<BitBuffer, NoMemory>
    requires { length bits ≤ len }
    ensures len { IfOk result (λ b. length b.bits ≡ len) }
    ensures set { IfOk result (λ b. set_of b.bits ≡ set_of bits) }
{
    let clear = len - bits.len();
    bits.append_n(false, clear)?;
    bits.finish()
}
