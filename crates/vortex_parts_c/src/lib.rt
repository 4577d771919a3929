//! The calls of `vx_cuts`, called from C over memory of the caller's: what slices, masks and picks
//! of a column are of each of its parts, and items of several lists in any order.
//!
//! Each takes lists as a pointer and a length, and answers a status and a number. A call whose
//! status is not 0 is refused, and writes nothing.
#![tactic(auto)]

mod cutting;
mod interleaving;
mod version;
