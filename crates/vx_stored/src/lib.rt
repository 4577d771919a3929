//! The rows of flat layouts at the set positions of a mask, at picks or in runs, with the new
//! validity handed in, and what a step leaves of a constant.
#![tactic(auto)]

mod boolean;
mod constant;
mod constant_steps;
mod null;
mod record_array;
mod rows;
mod stored;
mod texts;
mod varbin;
mod varbinview;

pub use constant_steps::{
    constant_bits, execute_constant, execute_texts, filter_constant, slice_constant, take_constant,
};
pub use null::{filter_nulls, slice_nulls, take_nulls};
pub use record_array::take_array_runs;
pub use stored::{filter_stored, slice_stored, take_stored, with_validity};
pub use texts::TextCopies;
