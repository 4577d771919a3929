//! The rows of several columns of one type, in any order, as one column.
#![tactic(auto)]

mod bools;
mod cells;
mod fixed_lists;
mod flat;
mod gathering;
mod interleaving;
mod joining;
mod lists;
mod maps;
mod nulls;
mod numbers;
mod place;
mod placing;
mod records;
mod structs;
mod tags;
mod texts;
mod unions;
mod validity;

pub use interleaving::interleave;
pub use joining::concatenate;
pub use nulls::are_nulls;
pub use place::Place;
pub use placing::are_places;
