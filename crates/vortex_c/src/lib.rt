//! The kernels of `vx_words`, called from C over memory of the caller's: one function for each
//! width of a record, and one for each other kernel.
//!
//! Each takes lists as a pointer and a length, and answers a status and a number. A call whose
//! status is not 0 is refused, and writes nothing.
#![tactic(auto)]

mod filter;
mod filter_bits;
mod in_place;
mod positions;
mod ranks;
mod runs;
mod take;
mod take_bits;
mod take_front;
mod version;
mod widen;
