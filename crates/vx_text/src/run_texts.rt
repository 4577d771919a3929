//! Texts of a `VarBin` in runs of rows, each run copied as one stretch of bytes.
ghost use Rattle.std.specs.Prelude.{◌≡◌, ◌+◌, ◌-◌, ◌++◌, ◌<◌, ◌≤◌, ◌^◌, length, slice_index, slice_range, true, IfOk, OnOk, ℕ, List};
ghost use Rattle.std.specs.List.{All, flat_map};
ghost use Rattle.vx_bits.specs.Records.{records_of, width_of};
ghost use Rattle.vx_types.specs.PType.{is_int, width};
ghost use Rattle.vx_offsets.specs.Offsets.{are_offsets, lists_at, offset_positions, record_numbers};
ghost use Rattle.vx_model.specs.Numbers.{integers_of};
ghost use Rattle.vx_model.specs.VarBin.{are_integers};
ghost use Rattle.vx_offsets.specs.Cut.{type_of};
ghost use Rattle.vx_text.specs.Building.{AddsTexts, AreTexts};
ghost use Rattle.vx_text.specs.OffsetList.{offsets_by};

use crate::offsets::Offsets;
use crate::text_run::TextRun;
use crate::texts::Texts;
use std::alloc::Global;
use vx_bits::{NoMemory, Records};
use vx_column::{PType, PrimitiveArray};
use vx_positions::by_type;

// Appends where each row of a run ends, if its bytes stand behind `base` others: all at once where
// the last of them fits the type, else row by row. Fails only with `NoMemory`.
#[inline(always)]
fn push_ends<const W: usize>(
    ends: &mut Offsets,
    base: usize,
    run: TextRun<'_, W>,
) -> Result<(), NoMemory>
    requires short { base + (slice_index (offsets_by run.ptype run.records.now) run.rows.1
        - slice_index (offsets_by run.ptype run.records.now) run.rows.0) < 2 ^ 63 }
    ensures { OnOk result ((front : List ℕ) → length front ≡ base
        → AddsTexts ends.old front ends.new (front ++ slice_range run.entry.bytes.now
        (slice_index (offsets_by run.entry.ptype run.entry.records.now) run.entry.rows.0)
        (slice_index (offsets_by run.entry.ptype run.entry.records.now) run.entry.rows.1))
        (slice_range (lists_at (offsets_by run.entry.ptype run.entry.records.now)
        run.entry.bytes.now) run.entry.rows.0 run.entry.rows.1)) }
{
    let (first, last) = run.bounds();
    if base + (last - first) <= ends.greatest() {
        return ends.push_run(base, run);
    }
    for row in run.rows.0..run.rows.1 {
        ends.push(base + run.end_behind(first, row))?;
    }
    Ok(())
}

// Appends the texts of a run. Fails only with `NoMemory`.
#[inline(always)]
fn push_run<const W: usize>(texts: &mut Texts, run: TextRun<'_, W>) -> Result<(), NoMemory>
    ensures { OnOk result (AddsTexts texts.old.offsets texts.old.bytes.items
        texts.new.offsets texts.new.bytes.items
        (slice_range (lists_at (offsets_by run.entry.ptype run.entry.records.now)
        run.entry.bytes.now) run.entry.rows.0 run.entry.rows.1)) }
{
    let base = texts.bytes.len();
    texts.bytes.extend_from_slice(run.bytes())?;
    if texts.bytes.len() > isize::MAX as usize {
        return Err(NoMemory);
    }
    push_ends(&mut texts.offsets, base, run)
}

// How many bytes the runs have, or the greatest number where they are more.
#[inline(always)]
#[tactic(auto, using(crate::proofs::RunTexts::run_at))]
fn bytes_in<const W: usize>(
    ptype: PType,
    records: &[[u8; W]],
    bytes: &[u8],
    runs: &[(usize, usize)],
) -> usize
    requires int { is_int ptype ≡ true }
    requires width { W ≡ width ptype }
    requires offsets { are_offsets (record_numbers ptype records.now) (length bytes.now) ≡ true }
    requires ordered { All (λ run. run.0 ≤ run.1) runs.now }
    requires within { All (λ run. run.1 < length records.now) runs.now }
{
    let mut total: usize = 0;
    for rows in runs {
        let run = TextRun {
            ptype,
            records,
            bytes,
            rows: *rows,
        };
        total = total.saturating_add(run.bytes().len());
    }
    total
}

#[inline(always)]
#[tactic(auto, using(crate::proofs::RunTexts::run_at))]
fn texts_by_runs<const W: usize>(
    ptype: PType,
    records: &[[u8; W]],
    alloc: Global,
    bytes: &[u8],
    runs: &[(usize, usize)],
    rows: usize,
) -> Result<Texts, NoMemory>
    requires int { is_int ptype ≡ true }
    requires width { W ≡ width ptype }
    requires offsets { are_offsets (record_numbers ptype records.now) (length bytes.now) ≡ true }
    requires ordered { All (λ run. run.0 ≤ run.1) runs.now }
    requires within { All (λ run. run.1 < length records.now) runs.now }
    ensures { IfOk result (λ t. AreTexts ptype t.offsets t.bytes.items
        (flat_map (λ run. slice_range
        (lists_at (offset_positions (record_numbers ptype records.now)) bytes.now) run.0 run.1)
        runs.now)) }
{
    let room = bytes_in(ptype, records, bytes, runs);
    let mut texts = Texts::with_room(alloc, ptype, rows, room)?;
    for rows in runs {
        let run = TextRun {
            ptype,
            records,
            bytes,
            rows: *rows,
        };
        push_run(&mut texts, run)?;
    }
    Ok(texts)
}

// The texts of the runs, in a loop of its own for each type of offsets.
fn texts_of(
    ptype: PType,
    values: &Records,
    alloc: Global,
    bytes: &[u8],
    runs: &[(usize, usize)],
    rows: usize,
) -> Result<Texts, NoMemory>
    requires int { is_int ptype ≡ true }
    requires width { width_of values.now ≡ width ptype }
    requires offsets { are_offsets (record_numbers ptype (records_of values.now))
        (length bytes.now) ≡ true }
    requires ordered { All (λ run. run.0 ≤ run.1) runs.now }
    requires within { All (λ run. run.1 < length (records_of values.now)) runs.now }
    ensures { IfOk result (λ t. AreTexts ptype t.offsets t.bytes.items
        (flat_map (λ run. slice_range
        (lists_at (offset_positions (record_numbers ptype (records_of values.now))) bytes.now)
        run.0 run.1) runs.now)) }
{
    by_type!(ptype, values, texts_by_runs, alloc, bytes, runs, rows)
}

/// The texts of runs of `rows` rows together, by the offsets of a column.
pub(crate) fn texts_in_runs(
    alloc: Global,
    offsets: &PrimitiveArray,
    bytes: &[u8],
    runs: &[(usize, usize)],
    rows: usize,
) -> Result<Texts, NoMemory>
    requires integers { are_integers offsets.now ≡ true }
    requires offsets { are_offsets (integers_of offsets.now) (length bytes.now) ≡ true }
    requires ordered { All (λ run. run.0 ≤ run.1) runs.now }
    requires within { All (λ run. run.1 < length offsets.now.records) runs.now }
    ensures { IfOk result (λ t. AreTexts (type_of offsets.now.kind) t.offsets t.bytes.items
        (flat_map (λ run. slice_range
        (lists_at (offset_positions (integers_of offsets.now)) bytes.now) run.0 run.1)
        runs.now)) }
{
    texts_of(offsets.ptype(), offsets.values(), alloc, bytes, runs, rows)
}
