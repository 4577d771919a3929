//! Steps: the rules, and the picks that they leave.

use crate::arguments::{indices_at, number_at, steps_at};
use crate::lines::{push_part, push_picks, push_shown};
use serde_json::Value;
use std::alloc::Global;
use std::test::Fail;
use vx_pieces::Indices;
use vx_steps::{Step, check_steps, compose};

/// Appends the picks of steps over so many rows, or why there are none.
fn push_composed(
    lines: &mut String,
    alloc: Global,
    len: usize,
    steps: &[Step],
) -> Result<(), Fail> {
    match compose(alloc, len, steps) {
        Ok(picks) => push_picks(lines, &picks),
        Err(error) => push_shown(lines, &error),
    }
}

/// Appends the picks of indices over so many rows, or why there are none.
fn push_picked(
    lines: &mut String,
    alloc: Global,
    indices: &Indices,
    len: usize,
) -> Result<(), Fail> {
    if let Some(fault) = indices.fault(len) {
        return push_shown(lines, &fault);
    }
    push_part(lines, "type", &indices.nullability())?;
    push_picks(lines, &indices.share().picks(alloc, len)?)
}

/// Appends what a call gives of steps.
fn push_given(
    lines: &mut String,
    alloc: Global,
    row: &Value,
    steps: &[Step],
    call: &str,
) -> Result<(), Fail> {
    let len = number_at(row, "len")?;
    match call {
        "check_steps" => push_shown(lines, &check_steps(len, steps)),
        _ => push_composed(lines, alloc, len, steps),
    }
}

/// Appends what a call gives of the indices `take`, or of `steps`.
pub(crate) fn push_steps(
    lines: &mut String,
    alloc: Global,
    row: &Value,
    call: &str,
) -> Result<(), Fail> {
    if call == "picks" {
        return push_picked(
            lines,
            alloc,
            &indices_at(alloc, row)?,
            number_at(row, "len")?,
        );
    }
    push_given(lines, alloc, row, steps_at(alloc, row)?.as_slice(), call)
}
