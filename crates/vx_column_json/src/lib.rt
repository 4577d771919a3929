//! One layout of a column, read from the members of a JSON object and the inner columns that were
//! read before.
#![tactic(auto)]

mod boolean;
mod constant;
mod decimal;
mod dict;
mod extension;
mod filter;
mod fixed_size_list;
mod list;
mod lists;
mod listview;
mod made;
mod map;
mod null;
mod offsets;
mod primitive;
mod struct_;
mod union_;
mod validity;
mod varbin;
mod varbinview;

pub use boolean::bool_by;
pub use constant::constant_by;
pub use decimal::decimal_by;
pub use dict::dict_by;
pub use extension::extension_by;
pub use filter::filter_by;
pub use lists::lists_by;
pub use map::map_by;
pub use null::null_by;
pub use primitive::{primitive_by, primitive_by_items, ramp_listed, values_there};
pub use struct_::struct_by;
pub use union_::union_by;
pub use validity::{validity_alone, validity_listed, validity_named};
pub use varbin::varbin_by;
pub use varbinview::views_by;
