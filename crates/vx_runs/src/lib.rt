//! Bytes of rows, copied row by row or a run of rows at once.
#![tactic(auto)]

mod places;
mod puts;
mod runs;

pub use crate::places::{are_all_below, greater};
pub use crate::puts::{put_array, put_block, put_bytes, put_run, put_text, with_bit};
pub use crate::runs::{Run, places_of, push_range, run_len, run_of};
