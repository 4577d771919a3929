//! Lists, filtered and taken: new offsets, and which elements stay, before any element is moved.
#![tactic(auto)]

mod element_mask;
mod filter;
mod fixed;
mod fixed_size_list;
mod list;
mod listview;
mod numbers;
mod plans;
mod runs;
mod take;
mod view;

pub use element_mask::element_mask_from_offsets;
pub use filter::{ListFilter, filter_lists};
pub use fixed_size_list::{plan_fixed_filter, plan_fixed_take};
pub use list::{plan_list_filter, plan_list_take, slice_list};
pub use listview::{plan_view_filter, plan_view_take, slice_view};
pub use plans::{FixedFilterPlan, FixedTakePlan, ListFilterPlan, ListTakePlan, ViewPlan};
pub use take::{ListTake, take_lists};
pub use view::{filter_numbers, slice_numbers, take_numbers};
