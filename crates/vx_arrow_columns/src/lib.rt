//! Columns in the caller's memory, in Arrow's format, and their rows at picks.
//!
//! A column is a table of [`Node`]s with borrowed bytes, each before its children. [`check`] tests
//! a whole table, and [`take`] writes the rows at some picks and what they need, in the format that
//! the column has.
#![tactic(auto)]

mod copying;
mod dense;
mod faults;
mod fixed_lists;
mod kept;
mod measuring;
mod needs;
mod places;
mod plan;
mod puts;
mod taking;
mod unions;
mod writing;

pub use crate::puts::{put_bit, put_offset};
pub use crate::taking::take;
pub use vx_arrow_image::{Lack, Need, Node, Refusal, Room, check};
