//! What a format string of Arrow's C Data Interface names, and how many bytes each buffer has.
#![tactic(auto)]

mod ends;
mod ids;
mod kind;
mod layout;
mod numbers;
mod parameters;
mod shape;
mod words;

pub use crate::ends::{data_length, ends_past, text_len};
pub use crate::kind::Kind;
pub use crate::layout::{Layout, layout_of};
pub use crate::parameters::write_ids;
pub use crate::shape::{Measure, Misfit, Shape, measure_of};
