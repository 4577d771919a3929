//! A column of unsigned numbers in a file of blocks.
#![tactic(auto)]

mod block_reader;
mod blocks;
mod columns;
mod error;
mod held;
mod memory_blocks;
mod open;
mod read_log;
mod reading;
mod select;
mod shape;
mod steady_blocks;
mod touching;
mod write;

pub use block_reader::{BLOCK_LEN, BlockReader};
pub use blocks::Blocks;
pub use error::FileError;
pub use memory_blocks::MemoryBlocks;
pub use open::open_file;
pub use read_log::ReadLog;
pub use select::select_file;
pub use shape::FileShape;
pub use steady_blocks::SteadyBlocks;
pub use write::file_blocks;
