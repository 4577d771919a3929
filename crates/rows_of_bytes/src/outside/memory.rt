//! Sources and sinks that move memory in pieces and fail by number.
use std::alloc::Global;
use std::test::Fail;
use vx_bits::{Buffer, Failed, NoMemory};
use vx_io::{CountingSink, MemorySink, MemorySource, Sink, Source, SteadySource};

/// These bytes as a buffer.
fn bytes_of(alloc: Global, bytes: &[u8]) -> Result<Buffer<u8>, NoMemory> {
    Buffer::from_vec(alloc, bytes.to_vec(alloc)?)
}

/// The numbers of the calls that fail.
fn calls_of(alloc: Global, calls: &[usize]) -> Result<Buffer<usize>, NoMemory> {
    Buffer::from_vec(alloc, calls.to_vec(alloc)?)
}

/// A source of seven bytes, at most three of them a call, of which the calls of these numbers fail.
pub(crate) fn failing_source(alloc: Global, failing: &[usize]) -> Result<MemorySource, NoMemory> {
    let (bytes, failing) = (bytes_of(alloc, b"abcdefg")?, calls_of(alloc, failing)?);
    Ok(MemorySource::new(bytes, 3, failing))
}

/// A sink with so much room, of which the calls of these numbers fail.
pub(crate) fn failing_sink(
    alloc: Global,
    failing: &[usize],
    room: usize,
) -> Result<MemorySink, NoMemory> {
    MemorySink::new(alloc, 3, calls_of(alloc, failing)?, room)
}

fn steady_source(alloc: Global) -> Result<SteadySource, NoMemory> {
    Ok(SteadySource::new(bytes_of(alloc, b"abcde")?, 3))
}

// Each call stands in a function that says nothing of it, so that few facts pile up.

fn read<S: Source>(source: &mut S, dst: &mut [u8]) -> Result<usize, Failed> {
    source.read(dst)
}

fn write<K: Sink>(sink: &mut K, piece: &str) -> Result<usize, Failed> {
    sink.write(piece.as_bytes())
}

fn finish<K: Sink>(sink: &mut K) -> Result<(), Failed> {
    sink.finish()
}

/// Reads of at most four bytes, each with its answer and what stands in the bytes after it.
fn print_reads<S: Source>(
    rt: &impl Print,
    name: &str,
    source: &mut S,
    count: usize,
) -> Result<(), Fail> {
    let mut dst = *b"....";
    for _ in 0..count {
        let answer = read(source, &mut dst);
        println!(rt; "{name}: read {answer:?} {:?}", std::str::from_utf8(&dst)?)?;
    }
    Ok(())
}

/// A write of each piece, with its answer.
fn print_writes<K: Sink>(
    rt: &impl Print,
    name: &str,
    sink: &mut K,
    pieces: &[&str],
) -> Result<(), Fail> {
    for piece in pieces {
        let answer = write(sink, piece);
        println!(rt; "{name}: write {piece:?} {answer:?}")?;
    }
    Ok(())
}

fn print_finish<K: Sink>(rt: &impl Print, name: &str, sink: &mut K) -> Result<(), Fail> {
    let answer = finish(sink);
    println!(rt; "{name}: finish {answer:?}")?;
    Ok(())
}

/// Reads of seven bytes of which calls 1 and 4 fail, and of five of which none does.
pub(crate) fn print_sources(rt: &impl Print, alloc: Global) -> Result<(), Fail> {
    print_reads(rt, "memory", &mut failing_source(alloc, &[1, 4])?, 6)?;
    print_reads(rt, "steady", &mut steady_source(alloc)?, 3)
}

/// Writes and finishes of a sink with room for five bytes, of which calls 1 and 5 fail.
pub(crate) fn print_sink(rt: &impl Print, alloc: Global) -> Result<(), Fail> {
    let mut sink = failing_sink(alloc, &[1, 5], 5)?;
    print_writes(
        rt,
        "memory",
        &mut sink,
        &["abcdefg", "defg", "defg", "fg", ""],
    )?;
    print_finish(rt, "memory", &mut sink)?;
    print_finish(rt, "memory", &mut sink)?;
    println!(rt; "memory: held {:?}", std::str::from_utf8(sink.bytes())?)?;
    Ok(())
}

/// A write and a finish of a sink that takes all.
pub(crate) fn print_counting_sink(rt: &impl Print) -> Result<(), Fail> {
    let mut sink = CountingSink::new();
    print_writes(rt, "counting", &mut sink, &["abcde"])?;
    print_finish(rt, "counting", &mut sink)?;
    println!(rt; "counting: taken {}", sink.taken())?;
    Ok(())
}
