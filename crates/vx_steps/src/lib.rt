//! Lists of steps: the rule that a step breaks, the picks that the steps leave, and the answer.
#![tactic(auto)]

mod cause;
mod check;
mod chunk_shape;
mod composed;
mod composing;
mod fault;
mod laws;
mod span;
mod step;

pub use cause::{Cause, SelectError};
pub use check::check_steps;
pub use chunk_shape::ChunkShape;
pub use composing::{compose, compose_part, takes_nullability};
pub use fault::{FAULT_ROOM, fault_line};
pub use laws::slice_of_slice;
pub use step::Step;
