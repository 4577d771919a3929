//! Columns of text, sliced, filtered and taken, with the new validity handed in.
#![tactic(auto)]

mod alike;
mod ends;
mod filtered;
mod offsets;
mod picked_texts;
mod picked_views;
mod run_texts;
mod text_run;
mod texts;
mod varbin;
mod views;

pub use alike::{texts_alike, views_alike};
pub use filtered::filter_varbin;
pub use offsets::Offsets;
pub use picked_texts::take_varbin_picks;
pub use picked_views::take_views;
pub use varbin::slice_varbin;
pub use views::{filter_views, gather_views, slice_views};
