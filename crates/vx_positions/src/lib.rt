//! Lists of numbers, of which some may be missing, as positions: the first that is none, and the
//! picks that they name.
#![tactic(auto)]

mod by_type;
mod numbers;
mod positions;
mod present;
mod shown;
mod stored;

pub use numbers::Numbers;
pub use positions::{first_bad, is_position, picks_of, position};
pub use stored::{first_bad_present, first_bad_shown, picks_present, picks_shown};
