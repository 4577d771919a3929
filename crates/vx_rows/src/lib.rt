//! From the bytes of a document to the bytes of the rows that it asks for.
#![tactic(auto)]

mod answering;
mod asked;
mod command;
mod delivery;
mod file_blocks;
mod file_document;
mod file_reply;
mod made;
mod pages;
mod program;
mod reply;
pub mod status;
mod trace;

pub use program::run;
pub use trace::Trace;
pub use vx_decoder::{Call, CallLog};
pub use vx_document::{DocError, Document, DocumentSource, StepList, document};
pub use vx_file::ReadLog;
pub use vx_io::{
    CountingSink, Failed, MemorySink, MemorySource, Sink, Source, StdSink, StdSource, SteadySource,
};
pub use vx_print::{calls_line, reads_line, text_of};
pub use vx_steps::fault_line;
