//! Offsets and sizes as numbers of an integer type in records: whether they cut a list or lie in
//! it, one of them read, and the records that they are written in.
#![tactic(auto)]

mod numbers;
mod offset_record;
mod offsets;
mod reading;

pub use numbers::{are_natural, are_views, integer_at, position_at, row_count};
pub use offset_record::OffsetRecord;
pub use offsets::are_offsets;
pub use reading::{offset_at, span_at};
