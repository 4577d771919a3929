//! Columns that are known to be of some kind: of one layout, flat, stored, or sliced for nothing.
#![tactic(auto)]

mod flat;
mod layout;
mod slicing;
mod stored;
mod view;
pub mod vtables;

pub use flat::FlatRef;
pub use layout::ReadLayout;
pub use slicing::slice_plain;
pub use stored::Stored;
pub use view::ArrayView;
pub use vtables::VTable;
