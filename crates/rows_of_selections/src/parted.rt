//! The answer over a column that lies in parts, as one call, and what it is made of: runs of rows
//! that are cut at the parts, and answers that come in any order.
ghost use Rattle.std.specs.Prelude.{◌≡◌, ◌+◌, ◌≤◌, IfOk, length, map};
ghost use Rattle.std.specs.Bool.{OnTrue};
ghost use Rattle.std.specs.List.{All};
ghost use Rattle.vx_types.specs.DType.{type_of};
ghost use Rattle.vx_model.specs.Column.{Column};
ghost use Rattle.vx_interleave.specs.Sources.{rows_of};

use crate::arguments::{number_at, policy_at, steps_at};
use crate::lines::{push_column, push_shown};
use serde_json::Value;
use std::alloc::Global;
use std::test::Fail;
use vx_bits::NoMemory;
use vx_column::{Array, DType};
use vx_document::columns_member;
use vx_json::{list_member, pairs_in, wholes_in};
use vx_mask::Policy;
use vx_parts::{Piece, arrange, bounds_of, cut_runs, select_parts, total_len};
use vx_select::{SelectError, Step};
use vx_table::Columns;

/// The columns of this name.
pub(crate) fn columns_at(alloc: Global, row: &Value, name: &str) -> Result<Columns, Fail> {
    Ok(Columns::new(alloc, columns_member(alloc, row, name)?)?)
}

/// How many rows each of the columns has.
pub(crate) fn lengths_of(alloc: Global, columns: &Columns) -> Result<Vec<usize>, NoMemory>
    ensures { IfOk result (λ lengths. lengths.items ≡ map length (rows_of columns.now)) }
{
    let mut lengths = Vec::new(alloc);
    for column in columns.as_slice() {
        lengths.push(column.len())?;
    }
    Ok(lengths)
}

/// Whether each column is of this type.
fn are_of(columns: &Columns, dtype: &DType) -> bool
    ensures { OnTrue result (All (λ (c : Column). c.dtype ≡ type_of dtype.now) columns.now) }
{
    for column in columns.as_slice() {
        if !column.dtype().same(dtype) {
            return false;
        }
    }
    true
}

/// The answer to the steps over the parts, as one call.
fn answer_over(
    alloc: Global,
    parts: &Columns,
    steps: &[Step],
    policy: &Policy,
) -> Result<Result<Array, SelectError>, Fail> {
    let lengths = lengths_of(alloc, parts)?;
    if parts.len() == 0 || total_len(&lengths).is_none() {
        return Err("no parts, or more rows than can be counted".into());
    }
    let dtype = parts.get(0).dtype();
    if !are_of(parts, dtype) {
        return Err("parts of several types".into());
    }
    Ok(select_parts(alloc, dtype, parts, steps, policy))
}

/// Appends the answer to the steps over the parts, or the step that is broken.
fn push_parted(lines: &mut String, alloc: Global, row: &Value) -> Result<(), Fail> {
    let (parts, steps) = (columns_at(alloc, row, "parts")?, steps_at(alloc, row)?);
    match answer_over(alloc, &parts, steps.as_slice(), &policy_at(row)?)? {
        Ok(column) => push_column(lines, alloc, &column),
        Err(error) => push_shown(lines, &error),
    }
}

/// Whether a run, its start and its length, ends by this row.
fn ends_by(run: (usize, usize), end: usize) -> bool
    ensures { OnTrue result (run.0 + run.1 ≤ end) }
{
    run.0 <= end && run.1 <= end - run.0
}

/// The pieces of two runs, of parts of these lengths.
#[tactic(auto, using(vx_cuts::proofs::BoundLists::bounds_are))]
fn pieces_of(
    alloc: Global,
    lengths: &[usize],
    one: (usize, usize),
    other: (usize, usize),
) -> Result<Vec<Piece>, Fail> {
    if total_len(lengths).is_none() {
        return Err("more rows than can be counted".into());
    }
    let bounds = bounds_of(alloc, lengths)?;
    let end = bounds[bounds.len() - 1];
    if !ends_by(one, end) || !ends_by(other, end) {
        return Err("a run past the rows".into());
    }
    Ok(cut_runs(alloc, &[one, other], &bounds)?)
}

/// Appends the pieces of two runs.
fn push_pieces(lines: &mut String, alloc: Global, row: &Value) -> Result<(), Fail> {
    let lengths = wholes_in(alloc, list_member(row, "lengths")?)?;
    let runs = pairs_in(alloc, list_member(row, "runs")?)?;
    let [one, other] = runs.as_slice() else {
        return Err("not two runs".into());
    };
    for piece in pieces_of(alloc, &lengths, *one, *other)? {
        push_shown(lines, &piece)?;
    }
    Ok(())
}

/// Appends for each part the first answer that came from it, or the first part that gave none.
fn push_arranged(lines: &mut String, alloc: Global, row: &Value) -> Result<(), Fail> {
    let arrived = wholes_in(alloc, list_member(row, "arrived")?)?;
    match arrange(alloc, number_at(row, "count")?, &arrived) {
        Ok(slots) => push_shown(lines, &slots.as_slice()),
        Err(error) => push_shown(lines, &error),
    }
}

/// Appends what a call gives of parts, of runs, or of answers.
pub(crate) fn push_whole(
    lines: &mut String,
    alloc: Global,
    row: &Value,
    call: &str,
) -> Result<(), Fail> {
    match call {
        "select_parts" => push_parted(lines, alloc, row),
        "cut_runs" => push_pieces(lines, alloc, row),
        _ => push_arranged(lines, alloc, row),
    }
}
