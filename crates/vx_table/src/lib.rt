//! Tables: columns of one length under names, and pages of them.
//!
//! A contract sees a `Table` as a `TableValue`: its names, its columns and its length.
#![tactic(auto)]

mod beside;
mod error;
mod pages;
mod projecting;
mod table;
mod taking;

pub use error::{PageError, TableError};
pub use pages::page;
pub use table::Table;
pub use vx_column::Columns;
pub use vx_select::{Cause, Step};
