//! Columns, masks, indices and steps from what a caller has: lists of numbers, of bools, of texts.
#![tactic(auto)]

mod bits;
mod half;
mod native;
mod nested;
mod primitive;
mod step;
mod text;

pub use bits::{bools, mask, validity};
pub use half::F16;
pub use native::{NativePType, RecordWidth};
pub use nested::{lists, structs, structs_with_len};
pub use primitive::{constant, nullable_numbers, numbers, records};
pub use step::{filter, indices, slice, take};
pub use text::{nullable_texts, texts};
