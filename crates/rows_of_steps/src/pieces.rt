//! Piecewise sequences.
ghost use Rattle.std.specs.Prelude.{◌≡◌, true};
ghost use Rattle.vx_pieces.specs.Pieces.{is_unsigned_type};

use crate::arguments::{number_at, shared_at, text_at};
use crate::lines::{push_column, push_part, push_shown};
use serde_json::Value;
use std::alloc::Global;
use std::test::Fail;
use vx_column::{Array, ArrayRef, DType, Nullability, PType};
use vx_json::member;
use vx_pieces::{PiecewiseSequence, PiecewiseSequenceArraySlotsExt};

// Whether a column is of type `u64`, and of no nulls by its type.
fn is_of_u64(column: &Array) -> bool
    ensures { result ≡ true → is_unsigned_type column.now.dtype ≡ true }
{
    match column.dtype() {
        DType::Primitive(PType::U64, Nullability::NonNullable) => true,
        _ => false,
    }
}

// The sequence of these columns, by the constructor that tests nothing.
fn unchecked(
    starts: ArrayRef,
    lengths: ArrayRef,
    multipliers: ArrayRef,
    len: usize,
) -> Result<PiecewiseSequence, Fail> {
    if !is_of_u64(&starts) || !is_of_u64(&lengths) || !is_of_u64(&multipliers) {
        return Err("columns of another type".into());
    }
    if lengths.len() != starts.len() || multipliers.len() != starts.len() {
        return Err("columns of other lengths".into());
    }
    Ok(PiecewiseSequence::new_unchecked(starts, lengths, multipliers, len))
}

/// The sequence `pieces`, by the constructor of its member `by`.
fn pieces_at(alloc: Global, row: &Value) -> Result<PiecewiseSequence, Fail> {
    let parts = member(row, "pieces")?;
    let (starts, lengths) = (
        shared_at(alloc, parts, "starts")?,
        shared_at(alloc, parts, "lengths")?,
    );
    let (multipliers, len) = (
        shared_at(alloc, parts, "multipliers")?,
        number_at(parts, "len")?,
    );
    match text_at(row, "by") {
        "new_unchecked" => unchecked(starts, lengths, multipliers, len),
        _ => Ok(PiecewiseSequence::try_new(starts, lengths, multipliers, len)?),
    }
}

fn first_at_least(pieces: &PiecewiseSequence, n: usize) -> Result<Option<usize>, Fail> {
    if pieces.check().is_err() {
        return Err("pieces that are not sound".into());
    }
    Ok(pieces.first_at_least(n))
}

/// Appends the columns that a sequence is made of, and how many numbers it declares.
fn push_slots(lines: &mut String, alloc: Global, pieces: &PiecewiseSequence) -> Result<(), Fail> {
    push_column(lines, alloc, pieces.starts())?;
    push_column(lines, alloc, pieces.lengths())?;
    push_column(lines, alloc, pieces.multipliers())?;
    push_part(lines, "declared", &pieces.len())
}

/// Appends the numbers of a sequence, or why it has none.
fn push_numbers(lines: &mut String, alloc: Global, pieces: &PiecewiseSequence) -> Result<(), Fail> {
    match pieces.execute(alloc) {
        Ok(column) => push_column(lines, alloc, &column),
        Err(error) => push_shown(lines, &error),
    }
}

/// Appends the runs that pieces are, whether they are any, or why not.
fn push_runs(lines: &mut String, alloc: Global, pieces: &PiecewiseSequence) -> Result<(), Fail> {
    match pieces.contiguous_runs(alloc) {
        Ok(Some(runs)) => push_shown(lines, &runs.as_slice()),
        Ok(None) => push_shown(lines, &None::<u64>),
        Err(error) => push_shown(lines, &error),
    }
}

/// Appends what a call gives of a sequence.
pub(crate) fn push_pieces(
    lines: &mut String,
    alloc: Global,
    row: &Value,
    call: &str,
) -> Result<(), Fail> {
    let pieces = pieces_at(alloc, row)?;
    match call {
        "execute" => push_numbers(lines, alloc, &pieces),
        "scalar_at" => push_shown(lines, &pieces.scalar_at(number_at(row, "at")?)),
        "first_at_least" => push_shown(lines, &first_at_least(&pieces, number_at(row, "n")?)?),
        "slots" => push_slots(lines, alloc, &pieces),
        "is_constant_one" => push_shown(lines, &pieces.is_constant_one()),
        "contiguous_runs" => push_runs(lines, alloc, &pieces),
        _ => Err("no such call".into()),
    }
}
