//! The program, called from outside over memory of the caller's.
//!
//! `vortex_program` takes the program's words and a document as a pointer and a length each, and
//! answers the program's status and how long its text is. It takes memory while it runs.
#![tactic(auto)]

mod answer;
mod running;
mod sink;
mod source;
mod version;
mod words;
