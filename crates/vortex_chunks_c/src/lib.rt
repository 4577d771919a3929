//! Rows out of a store that is read chunk by chunk, called from outside over memory of the
//! caller's.
//!
//! Each function takes lists as a pointer and a length, and returns a status and a number. A call
//! whose status is not 0 writes nothing.
#![tactic(auto)]

mod answer;
mod chunks;
