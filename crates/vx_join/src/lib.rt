//! Inner equi-joins: the pairs of rows of two tables whose keys are equal.
#![tactic(auto)]

mod cells;
mod chains;
mod error;
mod faults;
mod indices;
mod joining;
mod keys;
mod matching;
mod numbers;
mod prefixes;
mod runs;

pub use error::JoinError;
pub use indices::JoinIndices;
pub use joining::{join, join_indices};
pub use vx_table::{Columns, Table};
