//! Why bytes aren't a document: the place, what was expected there, and what was got.
//!
//! A document is read by `vx_document`, which only says that a value is invalid. This crate looks
//! for the reason afterwards. It reads the same values by the same readers, from the outside in,
//! and so finds the innermost value that is invalid.
#![tactic(auto)]

mod column;
mod document;
mod fits;
mod kind;
mod line;
mod lists;
mod look;
mod members;
mod step;
mod text;
mod whole;
mod words;

pub use line::cause_of_line;
pub use text::cause_of_bytes;
pub use whole::Form;
