//! Shared lists of values, of records and of bits.
#![tactic(auto)]

mod bit_buffer;
mod bit_builder;
mod bools;
mod buffer;
mod error;
mod record;
mod records;
mod word_reader;
mod words;

pub use bit_buffer::{BitBuffer, BitError};
pub use bit_builder::BitBuilder;
pub use buffer::Buffer;
pub use error::{Failed, NoMemory};
pub use record::Record;
pub use records::Records;
pub use word_reader::{CountedWords, PlainWords, WordReader};
pub use words::{Words, eight_bytes, lowest_bits, put_eight};
