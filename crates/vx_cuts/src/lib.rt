//! A column that is cut into parts, by numbers alone: where parts begin, and what slices, masks and
//! picks of the whole are of each of them.
//!
//! The calls over lists of the caller's test what they ask of them, don't allocate, and return a
//! status and a number, as those of `vx_words` do. A call whose status is not 0 is refused, and
//! writes nothing.
#![tactic(auto)]

mod answer;
mod bits;
mod bounds;
mod interleaving;
mod listed;
mod masks;
mod own;
mod picks;
mod runs;
mod slices;

pub use answer::{BOUNDS, RANGE, TOO_MANY};
pub use bits::{BitRows, interleave_bits};
pub use bounds::{bounds_of, part_of, total_len};
pub use interleaving::interleave_records;
pub use listed::list_bounds;
pub use masks::cut_mask;
pub use picks::cut_places;
pub use runs::{Piece, cut_runs};
pub use slices::cut_slice;
pub use vx_words::{Answer, DONE, INDEX, LENGTHS};
