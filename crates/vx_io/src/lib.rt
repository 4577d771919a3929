//! What bytes come from and go to: sources, sinks, and a whole source or a whole text at once.
#![tactic(auto)]

mod calls;
mod counting_sink;
mod memory_sink;
mod memory_source;
mod sink;
mod source;
mod standard;
mod steady_source;
mod transfer;

pub use counting_sink::CountingSink;
pub use memory_sink::MemorySink;
pub use memory_source::MemorySource;
pub use sink::Sink;
pub use source::Source;
pub use standard::{StdSink, StdSource};
pub use steady_source::SteadySource;
pub use transfer::{MAX_BYTES, Stop, deliver, read_all};
pub use vx_bits::Failed;
