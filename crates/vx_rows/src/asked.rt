//! What was asked for the rows of an answer.

use vx_decoder::CallLog;
use vx_file::ReadLog;

/// What was asked for rows.
#[derive(Drop)]
pub(crate) enum Asked {
    /// Nothing: they are in memory.
    Nothing,
    /// These calls of a decoder.
    Calls(CallLog),
    /// These reads of a file: that of its header, and those of the blocks that hold picked rows.
    Reads(ReadLog),
}
