//! Rows out of a store that is read chunk by chunk, without a callback: which chunks picks ask for,
//! and the picked rows of each chunk, put where they belong in the output.
//!
//! The calls work over lists of the caller's and allocate nothing. One that fails writes nothing,
//! and says why.
#![tactic(auto)]

mod chunk;
mod copies;
mod fault;
mod laws;
mod nulls;
mod picks;
mod planning;
mod walking;

pub use chunk::scatter;
pub use fault::Fault;
pub use laws::filled;
pub use nulls::fill_nulls;
pub use picks::{Chunks, count_chunks};
pub use planning::plan;
pub use walking::{Run, next_run};
