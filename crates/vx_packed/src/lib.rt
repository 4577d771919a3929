//! Chunks of 1024 numbers, packed to the bits that they need.
#![tactic(auto)]

mod chunks;
mod extremes;
mod fault;
mod laws;
mod packing;
mod parts;
mod reading;
mod record;
mod words;

pub use chunks::PackedChunks;
pub use fault::{PackedError, PackedFault};
pub use laws::spelling_law;
pub use packing::pack;
pub use reading::read_chunk;
pub use record::record_from;
