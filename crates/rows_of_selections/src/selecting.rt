//! Answers to steps over a column, and over more rows than a document may have.

use crate::arguments::{column_at, number_at, policy_at, shared_at, steps_at, text_at};
use crate::lines::push_answer;
use serde_json::Value;
use std::alloc::Global;
use std::test::Fail;
use vx_column::{Array, Layout, ListArray, NullArray, Validity};
use vx_json::member;
use vx_pieces::{Indices, PiecewiseSequence};
use vx_select::{Step, select, select_fused, selections_alike};

/// A column of lists whose elements are so many nulls, with the offsets of its row.
fn null_lists(alloc: Global, row: &Value, count: usize) -> Result<Array, Fail> {
    let elements = NullArray::new(count).into_array().into_ref(alloc)?;
    match column_at(alloc, row, "offsets")?.layout() {
        Layout::Primitive(offsets) => {
            let offsets = offsets.share();
            Ok(ListArray::try_new(alloc, elements, offsets, Validity::NonNullable)?.into_array())
        }
        _ => Err("no numbers".into()),
    }
}

/// The column of a row: one as in a document, or so many nulls, or lists of so many nulls.
fn source_at(alloc: Global, row: &Value) -> Result<Array, Fail> {
    if row.get("nulls").is_none() {
        return column_at(alloc, row, "column");
    }
    let count = number_at(row, "nulls")?;
    if row.get("offsets").is_some() {
        return null_lists(alloc, row, count);
    }
    Ok(NullArray::new(count).into_array())
}

/// A take by the sequence `pieces`, of any length.
fn pieces_step(alloc: Global, row: &Value) -> Result<Step, Fail> {
    let parts = member(row, "pieces")?;
    let starts = shared_at(alloc, parts, "starts")?;
    let lengths = shared_at(alloc, parts, "lengths")?;
    let multipliers = shared_at(alloc, parts, "multipliers")?;
    let pieces = PiecewiseSequence::try_new(
        starts,
        lengths,
        multipliers,
        number_at(parts, "len")?,
    )?;
    Ok(Step::Take(Indices::Pieces(pieces)))
}

/// Appends the answer to steps: one after another, or by one take of the composed picks.
fn push_given(
    lines: &mut String,
    alloc: Global,
    row: &Value,
    steps: &[Step],
    call: &str,
) -> Result<(), Fail> {
    let (column, policy) = (source_at(alloc, row)?, policy_at(row)?);
    let answer = if call == "select" {
        select(alloc, &column, steps, &policy)
    } else {
        selections_alike(&column, steps);
        select_fused(alloc, &column, steps, &policy)
    };
    push_answer(lines, alloc, answer, text_at(row, "show"))
}

/// Appends the answer to a take by `pieces`, or to `steps`.
pub(crate) fn push_selected(
    lines: &mut String,
    alloc: Global,
    row: &Value,
    call: &str,
) -> Result<(), Fail> {
    if row.get("pieces").is_some() {
        return push_given(lines, alloc, row, &[pieces_step(alloc, row)?], call);
    }
    push_given(lines, alloc, row, steps_at(alloc, row)?.as_slice(), call)
}
