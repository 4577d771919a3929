//! Short forms for callers: a filter by a column, a take of every n-th row, a field by its name,
//! and columns and rows as text.
#![tactic(auto)]

mod named;
mod shown;
mod steps;

pub use named::field;
pub use shown::{text_of, text_of_row};
pub use steps::{filter_by, take_every};
