//! What the program prints: the text of a column, the line of a broken step, that of the calls of a
//! decoder, and that of the blocks that were read of a file.
#![tactic(auto)]

mod bits;
mod calls;
mod cells;
mod joined;
mod lists;
mod name_labels;
mod nested;
mod reads;
mod record_lists;
mod records;
mod row;
mod stored;
mod text;
mod texts;
mod types;

pub use calls::calls_line;
pub use reads::reads_line;
pub use text::text_of;
