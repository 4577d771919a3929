//! The rows that steps leave of a column in the caller's memory, in Arrow's format: the steps are
//! composed to picks, and the rows at the picks are taken, as one call.
#![tactic(auto)]

mod refusal;
mod selecting;

pub use refusal::Refusal;
pub use selecting::select;
pub use vx_arrow::StepImage;
pub use vx_arrow_columns::{Need, Node, Room};
