//! The statuses that the program ends with.

/// The rows were written.
pub const DONE: u8 = 0;

/// A step breaks a rule, and a line that names it was written.
pub const BROKEN: u8 = 1;

/// The bytes are no document.
pub const MALFORMED: u8 = 2;

/// The words are none of the commands.
pub const WRONG_WORDS: u8 = 3;

/// Reading failed.
pub const SOURCE_FAULT: u8 = 4;

/// Writing failed.
pub const SINK_FAULT: u8 = 5;

/// Out of memory, or the text would be too long.
pub const NO_MEMORY: u8 = 6;

/// There are more bytes than a document may have.
pub const TOO_LONG: u8 = 7;
