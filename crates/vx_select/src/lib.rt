//! The rows of a column that a list of steps picks.
#![tactic(auto)]

mod chunked;
mod fused;
mod laws;
mod part;
mod picked;
mod selection;

pub use chunked::select_chunked;
pub use fused::select_fused;
pub use laws::selections_alike;
pub use picked::pick_indices;
pub use selection::select;
pub use vx_steps::{
    Cause, ChunkShape, SelectError, Step, check_steps, compose, compose_part, slice_of_slice,
};
