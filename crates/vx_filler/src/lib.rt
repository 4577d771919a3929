//! Columns of rows that stand where none is shown, and picks of the first row in their place.
#![tactic(auto)]

mod firsts;
mod rows;
mod values;

pub use firsts::firsts_for_nulls;
pub use rows::{filler, fillers};
