//! Zeros under the nulls of a column in Arrow's memory.
#![tactic(auto)]

mod bits;
mod rows;
mod zeros;

pub use crate::rows::clear_rows;
pub use crate::zeros::clear_nulls;
