//! What a run leaves beside its text.
ghost use Rattle.std.specs.Prelude.{◌≡◌, []};
ghost use Rattle.vx_rows.specs.Program.{with_asked};

use crate::asked::Asked;
use vx_decoder::CallLog;
use vx_file::ReadLog;

/// What a run leaves beside its text and its status.
#[derive(Drop)]
pub struct Trace {
    /// The calls of the decoder that the rows were asked of, in order.
    pub calls: CallLog,
    /// The blocks that were read of the file that the rows stand in, the header first.
    pub reads: ReadLog,
}

impl Trace {
    /// A trace of no calls and no reads.
    pub fn new() -> Trace
        ensures calls { result.calls ≡ [] }
        ensures reads { result.reads ≡ [] }
    {
        Trace {
            calls: CallLog::new(),
            reads: ReadLog::new(),
        }
    }

    /// Keeps the calls of a decoder, or the reads of a file, in place of those from before.
    pub(crate) fn keep(&mut self, asked: Asked)
        ensures { self.new ≡ with_asked asked self.old }
    {
        match asked {
            Asked::Nothing => {}
            Asked::Calls(calls) => self.calls = calls,
            Asked::Reads(reads) => self.reads = reads,
        }
    }
}
