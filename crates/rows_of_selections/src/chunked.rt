//! Answers over values behind a decoder, and the calls that they ask for.
ghost use Rattle.std.specs.Prelude.{◌≤◌, length};

use crate::arguments::{column_at, number_at, steps_at, text_at, validity_at};
use crate::lines::{push_answer, push_part, push_shown};
use rows_common::{Counted, numbers, sevens};
use serde_json::Value;
use std::alloc::Global;
use std::test::Fail;
use vx_column::{Array, ColumnError};
use vx_decoder::{CallLog, ChunkDecoder, Logged};
use vx_mask::Policy;
use vx_print::calls_line;
use vx_select::{ChunkShape, Step, select_chunked};

/// An answer, and the calls that were made for it.
#[derive(Drop)]
struct Answer {
    column: Array,
    log: CallLog,
}

/// The answer over a decoder of three chunks.
fn answer_by<const W: usize, D: ChunkDecoder<[u8; W]> + Drop>(
    alloc: Global,
    decoder: D,
    shape: &ChunkShape,
    steps: &[Step],
) -> Result<Answer, Fail>
    requires values { 3072 ≤ length (D.values decoder) }
    requires spare { 3 ≤ D.spare decoder }
{
    if shape.width() != W || shape.len() > 3072 - shape.offset() {
        return Err("a shape of other values".into());
    }
    let mut decoder = Logged::new(alloc, decoder, 3)?;
    let column = select_chunked(alloc, &mut decoder, shape, steps, &Policy::vortex())?;
    Ok(Answer {
        column,
        log: decoder.into_log(),
    })
}

/// The shape of the type of the column `over`, or why there is none.
fn shape_at(alloc: Global, row: &Value) -> Result<Result<ChunkShape, ColumnError>, Fail> {
    let over = column_at(alloc, row, "over")?;
    let (offset, len) = (number_at(row, "offset")?, number_at(row, "len")?);
    Ok(ChunkShape::try_new(over.dtype().share(), offset, len, validity_at(alloc, row)?))
}

/// The answer over the values that a row names: the numbers below 3072, the same by a decoder that
/// isn't the library's, or 3072 sevens.
fn answer_of(
    alloc: Global,
    values: &str,
    shape: &ChunkShape,
    steps: &[Step],
) -> Result<Answer, Fail> {
    match values {
        "numbers" => answer_by(alloc, numbers(alloc)?, shape, steps),
        "counted numbers" => {
            let inner = numbers(alloc)?;
            answer_by(alloc, Counted { inner, spare: 3 }, shape, steps)
        }
        "sevens" => answer_by(alloc, sevens(alloc)?, shape, steps),
        _ => Err("no such values".into()),
    }
}

/// Appends the answer over the values behind a decoder, and the calls that it asked for.
fn push_decoded(
    lines: &mut String,
    alloc: Global,
    row: &Value,
    shape: &ChunkShape,
) -> Result<(), Fail> {
    let steps = steps_at(alloc, row)?;
    let answer = answer_of(alloc, text_at(row, "values"), shape, steps.as_slice())?;
    push_answer(lines, alloc, Ok(answer.column), text_at(row, "show"))?;
    let line = calls_line(alloc, answer.log.calls())?;
    lines.push_str("=: ")?;
    Ok(lines.push_str(std::str::from_utf8(line.as_slice())?)?)
}

/// Appends what a shape is, or why there is none.
fn push_shape(lines: &mut String, shape: &ChunkShape) -> Result<(), Fail> {
    push_part(lines, "offset", &shape.offset())?;
    push_part(lines, "len", &shape.len())?;
    push_part(lines, "width", &shape.width())
}

/// Appends what a call gives of values behind a decoder.
pub(crate) fn push_chunked(
    lines: &mut String,
    alloc: Global,
    row: &Value,
    call: &str,
) -> Result<(), Fail> {
    match shape_at(alloc, row)? {
        Ok(shape) if call == "ChunkShape" => push_shape(lines, &shape),
        Ok(shape) => push_decoded(lines, alloc, row, &shape),
        Err(error) => push_shown(lines, &error),
    }
}
