//! Whole sources and whole texts.
use crate::outside::memory::{failing_sink, failing_source};
use std::alloc::Global;
use std::test::Fail;
use vx_bits::{Buffer, Failed, NoMemory};
use vx_io::{Sink, Source, SteadySource, Stop, deliver, read_all};

fn bytes_in<S: Source>(alloc: Global, source: &mut S) -> Result<Vec<u8>, Stop> {
    read_all(alloc, source)
}

/// How many bytes a source has, up to its end.
fn length_of<S: Source>(alloc: Global, source: &mut S) -> Result<usize, Stop> {
    Ok(bytes_in(alloc, source)?.len())
}

/// Seven bytes read to their end, and once again, where one read fails.
pub(crate) fn print_readings(rt: &impl Print, alloc: Global) -> Result<(), Fail> {
    for failing in [9, 0, 1, 3] {
        let mut source = failing_source(alloc, &[failing])?;
        let first = length_of(alloc, &mut source);
        let second = length_of(alloc, &mut source);
        println!(rt; "read {failing} fails: {first:?}, then {second:?}")?;
    }
    Ok(())
}

/// A source of so many bytes.
fn zeros(alloc: Global, len: usize) -> Result<SteadySource, NoMemory> {
    let bytes = Buffer::from_vec(alloc, vec![in alloc; 0u8; len]?)?;
    Ok(SteadySource::new(bytes, 1_000_000))
}

/// As many bytes as may be read, and one more.
pub(crate) fn print_bounds(rt: &impl Print, alloc: Global) -> Result<(), Fail> {
    for len in [16_777_216, 16_777_217] {
        let all = length_of(alloc, &mut zeros(alloc, len)?);
        println!(rt; "{len} bytes: {all:?}")?;
    }
    Ok(())
}

fn delivered<K: Sink>(sink: &mut K, text: &[u8]) -> Result<(), Failed> {
    deliver(sink, text)
}

/// Seven bytes delivered, where one call fails.
pub(crate) fn print_deliveries(rt: &impl Print, alloc: Global) -> Result<(), Fail> {
    for failing in [9, 0, 1, 3] {
        let mut sink = failing_sink(alloc, &[failing], 7)?;
        let answer = delivered(&mut sink, b"abcdefg");
        let held = std::str::from_utf8(sink.bytes())?;
        println!(rt; "call {failing} fails: {answer:?}, held {held:?}")?;
    }
    Ok(())
}
