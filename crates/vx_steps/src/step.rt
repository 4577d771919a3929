//! One step of a list.

use vx_mask::Mask;
use vx_pieces::Indices;
use vx_plain::FlatRef;

/// One step over the rows that the steps before it left.
#[derive(Drop)]
pub enum Step {
    /// The rows from `start` up to `end`.
    Slice {
        /// The first row.
        start: usize,
        /// The row after the last one.
        end: usize,
    },
    /// The rows at the mask's set positions.
    Filter(Mask),
    /// The rows at which a column of bools is true; a null isn't.
    FilterBy(FlatRef),
    /// The rows that the indices name, and a null for each null.
    Take(Indices),
}
