//! Masks: which rows of a column are selected. And the policy, which chooses between kernels.
#![tactic(auto)]

mod agreement;
mod blocks;
mod error;
mod intersect;
mod laws;
mod mask;
mod mask_values;
mod policy;
mod positions;
mod ranges;
mod ranks;
mod reuse;
mod runs;

pub use error::MaskError;
pub use laws::{filters_law, indices_law, rank_law, slices_law};
pub use mask::Mask;
pub use mask_values::MaskValues;
pub use policy::{Policy, PolicyError, PolicyFields, Ratio};
pub use ranges::{mask_range, slice_mask};
pub use ranks::{place_with, rank_words, words_before};
pub use reuse::prepare_mask_for_reuse;
