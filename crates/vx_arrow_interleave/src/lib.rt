//! The rows of several columns in the caller's memory, in Arrow's format, in any order as one
//! column.
//!
//! The columns are tables of nodes of one shape. They are handed in as [`Group`]s: the nodes at one
//! place of each table. [`Span`]s say which rows of which table stand one after another.
#![tactic(auto)]

mod faults;
mod interleaving;
mod items;
mod list_views;
mod planning;
mod rooms;
mod sources;
mod spans;
mod text_views;
mod writing;

pub use crate::faults::Refused;
pub use crate::interleaving::interleave;
pub use crate::sources::Group;
pub use crate::spans::Span;
pub use vx_arrow_image::{Lack, Need, Node, Room};
