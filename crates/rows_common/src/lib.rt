//! What the programs of rows and of calls have in common: rows with their answers, values behind a
//! decoder, a decoder that counts its calls, masks and picks, whether they fit a column, and the
//! texts of calls and bits.
#![tactic(auto)]

mod counted;
mod family;
mod fitting;
mod masks;
mod picks;
mod reading;
mod text;
mod values;

pub use counted::Counted;
pub use family::Family;
pub use fitting::{check_mask, check_slice, some_of};
pub use masks::{mask_of, mask_of_run};
pub use picks::picks_of;
pub use reading::{Ask, Reading};
pub use text::{print_calls, text_of};
pub use values::{numbers, remainders, sevens};
