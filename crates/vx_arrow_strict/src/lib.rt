//! What Arrow's full validators test of a column, beside that it means rows.
//!
//! A column is a table of [`vx_arrow_image::Node`]s, with an [`Extra`] for each. [`first_flaw`]
//! returns the first node that breaks a rule, and the rule.
#![tactic(auto)]

mod codes;
mod dense;
mod flaw;
mod lists;
mod maps;
mod nulls;
mod reads;
mod strict;
mod texts;

pub use crate::codes::has_codes;
pub use crate::flaw::{Extra, Flaw, Rule};
pub use crate::strict::first_flaw;
pub use vx_arrow_image::Node;
