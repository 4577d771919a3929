//! Filters over values that are decoded by chunks of 1024.
#![tactic(auto)]

mod bits;
mod cursor;
mod driver;
mod filter;
mod indices;
mod laws;
mod runs;
mod step;

pub use filter::{
    filter_chunked, filter_chunked_by_indices, filter_chunked_by_slices, filter_chunked_mask,
};
pub use laws::asked_law;
pub use vx_decoder::{Call, CallLog, ChunkDecoder, FILTER_CHUNK_LEN, Logged, StoredChunks};
