//! A take by pieces.
use crate::error::BuildError;
use std::alloc::Global;
use vortex_select::build::numbers;
use vortex_select::{ArrayRef, Indices, PiecewiseSequence, Step};

// The non-nullable column of these numbers.
fn column(alloc: Global, values: &[u64]) -> Result<ArrayRef, BuildError> {
    Ok(numbers(alloc, values)?.into_ref(alloc)?)
}

/// The rows `starts[i] + j * multipliers[i]` for each `j` below `lengths[i]`, one piece after
/// another, `len` rows in all.
pub(crate) fn take_pieces(
    alloc: Global,
    starts: &[u64],
    lengths: &[u64],
    multipliers: &[u64],
    len: usize,
) -> Result<Step, BuildError> {
    let pieces = PiecewiseSequence::try_new(
        column(alloc, starts)?,
        column(alloc, lengths)?,
        column(alloc, multipliers)?,
        len,
    )?;
    Ok(Step::Take(Indices::Pieces(pieces)))
}
