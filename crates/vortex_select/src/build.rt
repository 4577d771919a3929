//! Columns, masks, indices and steps from what a caller has: lists of numbers, of bools, of texts.
pub use vx_build::{
    F16, NativePType, RecordWidth, bools, constant, filter, indices, lists, mask, nullable_numbers,
    nullable_texts, numbers, records, slice, structs, structs_with_len, take, texts, validity,
};
pub use vx_shorthand::{filter_by, take_every};
