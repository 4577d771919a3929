//! Selection over columns in Arrow's memory, called from outside over memory of the caller's.
//!
//! Each function takes lists as a pointer and a length, and answers a status and two numbers.
//! A call whose status is not 0 writes nothing.
#![tactic(auto)]

mod answer;
mod causes;
mod columns;
mod formats;
mod interleaving;
mod steps;
mod strict;
mod version;
mod zeros;
