//! Steps over a column whose layout is known: one trait for each step and each time of it.
//!
//! A layout that has the trait of a step answers that step itself, or leaves it to its caller by
//! `None`, who then unwraps the column first. `slice`, `filter`, `take` and `execute` go over every
//! layout.
#![tactic(auto)]

mod adaptors;
mod always;
mod answer;
mod filter_layout;
mod filtering;
mod fixed_size_list;
mod list;
mod listview;
mod pack;
mod slicing;
mod struct_;
mod taking;
mod union_;
mod varbin;
mod varbinview;

pub use adaptors::{TakeExecuteAdaptor, TakeReduceAdaptor};
pub use filtering::{FilterKernel, FilterReduce};
pub use fixed_size_list::filter_fixed_size_list;
pub use list::take_list;
pub use listview::filter_listview;
pub use pack::pack_union;
pub use slicing::{SliceKernel, SliceReduce};
pub use struct_::filter_struct;
pub use taking::{TakeError, TakeExecute, TakeReduce, take};
pub use union_::{filter_union, slice_union, take_union};
pub use varbin::{VarBinSlice, take_varbin};
pub use varbinview::filter_varbinview;
pub use vx_dispatch::{TextCopies, execute, execute_texts, filter, slice};
pub use vx_reading::mask_of;
