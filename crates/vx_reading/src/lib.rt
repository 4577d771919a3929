//! Rows of a column, beyond a single cell: one row with all that is in it, and which rows are true.
#![tactic(auto)]

mod layouts;
mod present;
mod rows;
mod stretch;
mod truth;

pub use present::present_mask;
pub use rows::row_at;
pub use truth::{bit_at, is_bool, mask_of, true_rows};
