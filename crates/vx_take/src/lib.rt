//! Lists of optional positions, and what stands there.
#![tactic(auto)]

mod bits;
mod laws;
mod listed;
mod needs;
mod picks;
mod ranks;
mod records;
mod slices;

pub use bits::{gather_bits, valid_bits};
pub use laws::{filter_take_law, needed_law, takes_law, translated_law};
pub use needs::{needed, ranks_in};
pub use picks::Picks;
pub use ranks::translate_ranks;
pub use records::{take_records, take_runs};
pub use slices::{gather, gather_runs};
