//! What a layout answers to a step.

use vx_bits::NoMemory;
use vx_column::Array;

/// The rows that the step leaves, or none where it is left to the caller.
pub type Answer<E = NoMemory> = Result<Option<Array>, E>;
