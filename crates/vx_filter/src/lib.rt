//! Kernels that keep the items at the set positions of a mask.
#![tactic(auto)]

mod bitmap;
mod choice;
mod compact;
mod compress;
mod in_place;
mod ladder;
mod laws;
mod lists;
mod records;

pub use bitmap::filter_slice_by_bitmap;
pub use choice::{useful_indices, useful_slices};
pub use compact::{LowestRun, compact_runs, compact_words, copy_picked, lowest_run};
pub use compress::{CompressTable, byte_compress};
pub use in_place::{filter_slice_in_place, filter_vec, keep_picked};
pub use ladder::filter_slice;
pub use laws::filter_law;
pub use lists::{filter_slice_by_indices, filter_slice_by_slices};
pub use records::filter_records;
