//! Rows that steps leave of a column of one node in the caller's memory, in Arrow's format.

use crate::arguments::text_at;
use crate::lines::{push_part, push_shown};
use serde_json::Value;
use std::alloc::Global;
use std::test::Fail;
use vx_arrow_select::{Need, Node, Refusal, Room, StepImage, select};
use vx_bits::NoMemory;
use vx_json::{bytes_of, list_member, whole_of};

/// The lists of a node or of a step, as bytes.
#[derive(Drop)]
struct Lists {
    valid: Vec<u8>,
    offsets: Vec<u8>,
    values: Vec<u8>,
    sizes: Vec<u8>,
}

/// The bytes of this name, and none where there are none.
fn bytes_at(alloc: Global, row: &Value, name: &str) -> Result<Vec<u8>, Fail> {
    match row.get(name) {
        Some(value) => Ok(Vec::from_slice(alloc, bytes_of(alloc, value)?.as_slice())?),
        None => Ok(Vec::new(alloc)),
    }
}

/// The lists that a row states.
fn lists_at(alloc: Global, row: &Value) -> Result<Lists, Fail> {
    Ok(Lists {
        valid: bytes_at(alloc, row, "valid")?,
        offsets: bytes_at(alloc, row, "offsets")?,
        values: bytes_at(alloc, row, "values")?,
        sizes: bytes_at(alloc, row, "sizes")?,
    })
}

/// The number of this name, and 0 where there is none.
fn word_at(row: &Value, name: &str) -> Result<u64, Fail> {
    match row.get(name) {
        Some(value) => Ok(whole_of(value)? as u64),
        None => Ok(0),
    }
}

/// The node that a row states, over these lists.
fn node_of<'a>(row: &Value, lists: &'a Lists) -> Result<Node<'a>, Fail> {
    Ok(Node {
        format: word_at(row, "format")?,
        width: word_at(row, "width")?,
        len: word_at(row, "len")?,
        offset: word_at(row, "offset")?,
        children: 0,
        valid: &lists.valid,
        offsets: &lists.offsets,
        values: &lists.values,
        sizes: &lists.sizes,
    })
}

/// A step, over these lists.
fn image_of<'a>(step: &Value, lists: &'a Lists) -> Result<StepImage<'a>, Fail> {
    Ok(StepImage {
        kind: word_at(step, "kind")?,
        start: word_at(step, "start")?,
        end: word_at(step, "end")?,
        ptype: word_at(step, "ptype")?,
        offset: word_at(step, "offset")?,
        len: word_at(step, "len")?,
        declared: 0,
        values: &lists.values,
        valid: &lists.valid,
        lengths: &[],
        multipliers: &[],
    })
}

/// Lists of as many bytes as are needed.
fn lists_for(alloc: Global, need: &Need) -> Result<Lists, NoMemory> {
    Ok(Lists {
        valid: vec![in alloc; 0; need.valid as usize]?,
        offsets: vec![in alloc; 0; need.offsets as usize]?,
        values: vec![in alloc; 0; need.values as usize]?,
        sizes: vec![in alloc; 0; need.sizes as usize]?,
    })
}

/// Writes the rows that the steps leave of the node, and what they need.
fn write_rows(
    alloc: Global,
    node: Node<'_>,
    steps: &[StepImage<'_>],
    needs: &mut [Need],
    rows: &mut Lists,
) -> Result<(), Refusal> {
    let mut rooms = [Room {
        valid: &mut rows.valid,
        offsets: &mut rows.offsets,
        values: &mut rows.values,
        sizes: &mut rows.sizes,
    }];
    select(alloc, &[node], steps, needs, &mut rooms)
}

/// What a node without rows needs.
fn no_need() -> Need {
    Need {
        len: 0,
        valid: 0,
        offsets: 0,
        values: 0,
        sizes: 0,
    }
}

/// Appends the rows that were written: by `show` their validity alone.
fn push_rows(lines: &mut String, need: &Need, rows: &Lists, show: &str) -> Result<(), Fail> {
    writeln!(lines, "= {} rows", need.len)?;
    push_part(lines, "valid", &rows.valid.as_slice())?;
    if show == "valid" {
        return Ok(());
    }
    push_part(lines, "offsets", &rows.offsets.as_slice())?;
    push_part(lines, "values", &rows.values.as_slice())?;
    push_part(lines, "sizes", &rows.sizes.as_slice())
}

/// Appends the rows that the steps leave of the node, or why there are none. The first call says
/// how large the lists have to be.
fn push_selected(
    lines: &mut String,
    alloc: Global,
    node: Node<'_>,
    steps: &[StepImage<'_>],
    show: &str,
) -> Result<(), Fail> {
    let mut needs = [no_need()];
    let mut rows = lists_for(alloc, &needs[0])?;
    if write_rows(alloc, node, steps, &mut needs, &mut rows).is_err() {
        rows = lists_for(alloc, &needs[0])?;
    }
    match write_rows(alloc, node, steps, &mut needs, &mut rows) {
        Ok(()) => push_rows(lines, &needs[0], &rows, show),
        Err(refusal) => push_shown(lines, &refusal),
    }
}

/// The lists of each step.
fn lists_of_each(alloc: Global, steps: &[Value]) -> Result<Vec<Lists>, Fail> {
    let mut each = Vec::new(alloc);
    for step in steps {
        each.push(lists_at(alloc, step)?)?;
    }
    Ok(each)
}

/// Appends what the steps leave of the column that a row states.
pub(crate) fn push_in_memory(lines: &mut String, alloc: Global, row: &Value) -> Result<(), Fail> {
    let (steps, lists) = (list_member(row, "steps")?, lists_at(alloc, row)?);
    let step_lists = lists_of_each(alloc, steps)?;
    let mut images = Vec::new(alloc);
    for (step, lists) in steps.iter().zip(&step_lists) {
        images.push(image_of(step, lists)?)?;
    }
    push_selected(
        lines,
        alloc,
        node_of(row, &lists)?,
        &images,
        text_at(row, "show"),
    )
}
