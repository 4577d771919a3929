//! Columns in the caller's memory, in Arrow's format, and what they mean.
//!
//! A column is a table of [`Node`]s with borrowed bytes, each before its children. [`check`] tests
//! a whole table.
#![tactic(auto)]

mod bits;
mod checking;
mod dense;
mod fitting;
mod format;
mod image;
mod offsets;
mod refusal;
mod unions;
mod views;

pub use crate::bits::{bit_is, holds_valid, is_there};
pub use crate::checking::check;
pub use crate::dense::{child_of, is_dense, start_of};
pub use crate::format::{Format, Offsets, format_of};
pub use crate::image::{Need, Node, Room};
pub use crate::offsets::{Cut, cut_at, holds_offsets};
pub use crate::refusal::{Lack, Refusal};
pub use crate::unions::{has_child, holds_ids, ids_lack};
pub use crate::views::{holds_starts, is_list_view, is_view};
