//! Values that are decoded by chunks of 1024, and the calls that a decoder was asked.
#![tactic(auto)]

mod call;
mod decoder;
mod logged;
mod places;
mod stored;

pub use call::{Call, CallLog};
pub use decoder::{ChunkDecoder, FILTER_CHUNK_LEN};
pub use logged::Logged;
pub use stored::StoredChunks;
