//! The picks of a page.
#![tactic(auto)]

mod needed;

pub use needed::{Readers, page_picks};
