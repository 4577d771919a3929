//! One step over a column of any layout: this crate alone goes over the layouts.
#![tactic(auto)]

mod columns;
mod dict;
mod executing;
mod extension;
mod filter_layout;
mod filtering;
mod fixed_size_list;
mod list;
mod lists;
mod listview;
mod map;
mod materialized;
mod parts;
mod runs;
mod slicing;
mod stored;
mod struct_;
mod taking;
mod union_;
mod validity;

pub use executing::execute;
pub use filtering::filter;
pub use list::take_lists;
pub use materialized::is_materialized;
pub use slicing::slice;
pub use struct_::filter_fields;
pub use taking::take;
pub use union_::{filter_variants, slice_variants, take_variants};
pub use validity::{filter_validity, take_validity};
pub use vx_stored::{TextCopies, execute_texts};
