//! The run that a row asks for.

use crate::answer::{answer_of, push_calls, push_reads};
use crate::row::{Row, row_of};
use rows_common::Ask;
use std::alloc::Global;
use std::test::Fail;
use vx_bits::Buffer;
use vx_rows::{MemorySink, MemorySource, Trace, run};

/// How many bytes a sink has room for.
const ROOM: usize = 65_536;

/// What the words and the document of a row give.
#[derive(Drop)]
struct Given {
    status: u8,
    sink: MemorySink,
    trace: Trace,
}

fn source_of(alloc: Global, row: &Row) -> Result<MemorySource, Fail> {
    let bytes = Buffer::from_vec(alloc, row.document.as_bytes().to_vec(alloc)?)?;
    Ok(MemorySource::new(bytes, row.piece, row.failing.reads.share()))
}

fn run_of(alloc: Global, row: &Row) -> Result<Given, Fail> {
    let mut source = source_of(alloc, row)?;
    let mut sink = MemorySink::new(alloc, row.piece, row.failing.writes.share(), ROOM)?;
    let mut trace = Trace::new();
    let words = row.words.as_slice();
    let status = run(alloc, words, &mut source, &mut sink, &mut trace);
    Ok(Given {
        status,
        sink,
        trace,
    })
}

/// The lines that tell what was given.
fn lines_of(alloc: Global, given: &Given) -> Result<String, Fail> {
    let mut lines = answer_of(alloc, given.status, given.sink.bytes())?;
    push_calls(&mut lines, given.trace.calls.calls())?;
    push_reads(&mut lines, given.trace.reads.reads())?;
    Ok(lines)
}

/// Rows that ask for runs.
pub(crate) struct Runs;

impl Ask for Runs {
    fn given_by(alloc: Global, line: &str) -> Result<String, Fail> {
        let row = row_of(alloc, line)?;
        lines_of(alloc, &run_of(alloc, &row)?)
    }
}
