//! Bit filters: the bits of one list at the set positions of another.
#![tactic(auto)]

mod closing;
mod laws;
mod pext;
mod sparse;
mod table;
mod words;

pub use laws::pext_law;
pub use pext::pext_fallback;
pub use sparse::filter_sparse;
pub use table::PextTable;
pub use words::{filter_bitbuffer_by_mask, filter_words};
