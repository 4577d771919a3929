//! Rows of a fixed width in bytes, written one after another: those of a range, at numbers, and at
//! the set bits of a mask.
#![tactic(auto)]

mod bits;
mod numbers;
mod range;

pub use crate::bits::write_at_bits;
pub use crate::numbers::write_at_numbers;
pub use crate::range::write_range;
