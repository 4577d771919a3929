//! The kernels of row selection over lists of the caller's: masks and validities are words of 64
//! bits, lowest bit first.
//!
//! Each call tests what it asks of its lists, and answers a status and a number. A call whose
//! status is not 0 is refused, and writes nothing.
#![tactic(auto)]

mod answer;
mod bits;
mod filter;
mod filter_bits;
mod gather;
mod in_place;
mod masks;
mod positions;
mod ranks;
mod records;
mod rows;
mod runs;
mod take;
mod take_bits;
mod take_front;
mod widen;

pub use answer::{Answer, BITS_PAST, DONE, INDEX, LENGTHS, ROOM};
pub use filter::filter_records;
pub use filter_bits::filter_bit_words;
pub use in_place::filter_in_place;
pub use positions::list_positions;
pub use ranks::{count_before, rank};
pub use records::{Record16, Record32};
pub use runs::{Run, list_runs};
pub use take::take_records;
pub use take_bits::take_bit_words;
pub use take_front::take_records_front;
pub use widen::widen_numbers;
