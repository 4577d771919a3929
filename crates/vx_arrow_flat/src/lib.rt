//! The rows that a single step leaves of a column of one node, whose values have a fixed width and
//! no nulls. They are written without a list of picks.
#![tactic(auto)]

mod selecting;
mod writing;

pub use crate::selecting::select;
