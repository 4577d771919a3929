//! Bytes as a text shows them: between quotes, and as hexadecimal digits.
#![tactic(auto)]

mod digits;
mod quoted;

pub use digits::{TEXT_BYTES, has_room, push_digits};
pub use quoted::push_quoted;
