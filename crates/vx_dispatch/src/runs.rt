//! The rows at the numbers of a sequence whose pieces are runs.
ghost use Rattle.std.specs.Prelude.{◌≡◌, ◌+◌, ◌*◌, ◌≤◌, All, None, Some, length, map, sum_by, IfOk, IfSome, IsOk};
ghost use Rattle.vx_types.specs.declared.nullability.Nullability.TheVariants.{NonNullable};
ghost use Rattle.vx_take.specs.Picks.{in_runs, run_places};
ghost use Rattle.vx_pieces.specs.Indices.{index_fault, index_nullability, index_picks, index_value};
ghost use Rattle.vx_model.specs.Step.{IsStep, IsTake};

use crate::stored::take_record_runs;
use crate::taking::take_picks;
use std::alloc::Global;
use vx_bits::NoMemory;
use vx_column::{Array, Columns, Layout, Nullability, Runs};
use vx_mask::Policy;
use vx_pieces::{Indices, run_picks, total_len};

/// The take by runs: of a column that stores records whose validity is a constant form, by a
/// sequence whose pieces are runs. None where either isn't so. Fails only with `NoMemory`.
pub(crate) fn take_by_runs(
    alloc: Global,
    array: &Array,
    indices: &Indices,
) -> Result<Option<Array>, NoMemory>
    requires { index_fault (index_value indices.now) (length array.now.rows) ≡ None }
    ensures { IfOk result (λ taken. IfSome taken (IsTake array.now
        (index_picks (index_value indices.now)) (index_nullability (index_value indices.now)))) }
{
    if array.records().is_none() {
        return Ok(None);
    }
    match indices.runs(alloc, array.len())? {
        Some(runs) => take_stored_runs(alloc, array, &runs),
        None => Ok(None),
    }
}

// The rows in the runs of a column that stores records whose validity is a constant form; none of
// another. Fails only with `NoMemory`.
fn take_stored_runs(alloc: Global, array: &Array, runs: &Runs) -> Result<Option<Array>, NoMemory>
    requires { All (λ run. run.0 + run.1 ≤ length array.now.rows) runs.now }
    ensures { IfOk result (λ taken. IfSome taken
        (IsTake array.now (map Some (run_places runs.now)) NonNullable)) }
{
    match array.records() {
        Some(records) => take_record_runs(alloc, records, runs),
        None => Ok(None),
    }
}

// A take of elements is begun where it makes at most so many bytes of picks and rows, or at most
// twice the elements that there are. A short document can name a list that is longer than any
// memory, by a few picks of one that is long: here it ends.
const MOST_BYTES: usize = 1 << 32;

const PICK_BYTES: usize = 8;

// What a row that is no record takes at most: an offset and a run, or a view.
const ROW_BYTES: usize = 24;

// How many bytes a row of a column takes, without the columns below it.
fn row_bytes(array: &Array) -> usize {
    if let Some(records) = array.records() {
        return records.values().width();
    }
    match array.layout() {
        Layout::Null(_) | Layout::Constant(_) => 0,
        Layout::Bool(_) => 1,
        _ => ROW_BYTES,
    }
}

// How many bytes a row of columns side by side takes, without the columns below them.
fn rows_bytes(columns: &Columns) -> usize {
    let mut bytes: usize = 0;
    for column in columns.as_slice() {
        bytes = bytes.saturating_add(row_bytes(column));
    }
    bytes
}

// How many bytes a take makes for each element: its pick, and its row in each column that is taken
// from. Records whose validity is a constant form are taken without picks.
fn element_bytes(array: &Array) -> usize {
    let row = match array.layout() {
        Layout::Dict(a) => row_bytes(a.codes()),
        Layout::Filter(a) => row_bytes(a.child()),
        Layout::Extension(a) => row_bytes(a.storage()),
        Layout::Struct(a) => rows_bytes(a.fields()),
        Layout::Union(a) if a.offsets().is_none() => rows_bytes(a.children()),
        _ => row_bytes(array),
    };
    match array.records() {
        Some(records) if records.validity().is_constant_form() => row,
        _ => row.saturating_add(PICK_BYTES),
    }
}

// Refuses runs of more elements than a take makes.
fn check_room(array: &Array, runs: &Runs) -> Result<(), NoMemory>
    ensures twice { sum_by (λ run. run.1) runs.now ≤ 2 * length array.now.rows → IsOk result }
{
    let total = total_len(runs.as_slice());
    if total <= array.len().saturating_mul(2) {
        return Ok(());
    }
    if total.saturating_mul(element_bytes(array)) > MOST_BYTES {
        return Err(NoMemory);
    }
    Ok(())
}

/// The rows in the runs, each its start and its length, one run after another. Fails only with
/// `NoMemory`. Room for all of them is asked for before the first is written.
#[cycle(take)]
pub(crate) fn take_runs(
    alloc: Global,
    array: &Array,
    runs: Runs,
    policy: &Policy,
) -> Result<Array, NoMemory>
    requires { All (λ run. run.0 + run.1 ≤ length array.now.rows) runs }
    ensures { IfOk result (IsStep array.now (in_runs array.now.rows runs) array.now.dtype) }
{
    check_room(array, &runs)?;
    match take_stored_runs(alloc, array, &runs)? {
        Some(taken) => Ok(taken),
        None => {
            let picks = run_picks(alloc, &runs, array.len())?;
            drop(runs);
            take_picks(alloc, array, picks, Nullability::NonNullable, policy)
        }
    }
}
