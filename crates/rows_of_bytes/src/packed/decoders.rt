//! Packed numbers as values behind a chunk decoder.
ghost use Rattle.std.specs.Prelude.{◌≡◌, ◌^◌, ◌<◌, ◌≤◌, true, length, vec_len, IfOk};
ghost use Rattle.vx_chunked.specs.Told.{whole_chunks};
ghost use Rattle.vx_packed.specs.Faults.{is_width};
ghost use Rattle.vx_packed.specs.Parts.{records_of};

use crate::packed::numbers::{packed, remainders, sum_of_bytes};
use std::alloc::Global;
use std::test::Fail;
use vx_bits::{Buffer, NoMemory};
use vx_chunked::{Call, ChunkDecoder, Logged, filter_chunked_mask};
use vx_mask::{Mask, Policy};
use vx_packed::{PackedChunks, PackedError};

/// A row for each decoder and each call.
pub(crate) fn print_rows(rt: &impl Print, alloc: Global) -> Result<(), Fail> {
    print_decoder::<1>(rt, alloc, "two chunks", two_chunks(alloc)?, 1)?;
    print_decoder::<1>(
        rt,
        alloc,
        "without the last byte",
        cut(two_chunks(alloc)?, 1),
        1,
    )?;
    print_decoder::<1>(
        rt,
        alloc,
        "without the last chunk",
        cut(two_chunks(alloc)?, 9),
        0,
    )?;
    print_decoder::<1>(rt, alloc, "no bytes", Vec::new(alloc), 0)?;
    print_decoder::<1>(rt, alloc, "a byte more", and_one(two_chunks(alloc)?)?, 1)?;
    let wide = packed(alloc, &remainders(alloc, 255, 300, 2048)?, 2)?;
    print_decoder::<1>(rt, alloc, "two bytes as one", wide.clone()?, 1)?;
    print_decoder::<2>(rt, alloc, "two bytes", wide, 1)?;
    let four = packed(alloc, &remainders(alloc, 70000, 77, 3072)?, 4)?;
    print_decoder::<4>(rt, alloc, "four bytes", four, 2)?;
    let eight = packed(
        alloc,
        &remainders(alloc, 0x0102_0304_0506_0708, 1000, 2048)?,
        8,
    )?;
    print_decoder::<8>(rt, alloc, "eight bytes", eight, 1)?;
    print_filtered(rt, alloc)
}

// The spellings of 100 to 103 and of sevens.
fn two_chunks(alloc: Global) -> Result<Vec<u8>, Fail> {
    let mut bytes = packed(alloc, &remainders(alloc, 100, 4, 1024)?, 1)?;
    let sevens = packed(alloc, &remainders(alloc, 7, 1, 1024)?, 1)?;
    bytes.extend_from_slice(sevens.as_slice())?;
    Ok(bytes)
}

fn cut(mut bytes: Vec<u8>, count: usize) -> Vec<u8> {
    bytes.truncate(bytes.len().saturating_sub(count));
    bytes
}

fn and_one(mut bytes: Vec<u8>) -> Result<Vec<u8>, Fail> {
    bytes.push(0)?;
    Ok(bytes)
}

// A decoder of the bytes, and the records of a chunk at some places.
fn print_decoder<const W: usize>(
    rt: &impl Print,
    alloc: Global,
    name: &str,
    bytes: Vec<u8>,
    chunk: usize,
) -> Result<(), Fail>
    requires width { is_width W ≡ true }
    requires chunk { chunk < 2 ^ 32 }
{
    print!(rt; "{name}:")?;
    match PackedChunks::<W>::try_new(alloc, Buffer::from_vec(alloc, bytes)?) {
        Ok(mut packed) => print_chunk::<W>(rt, alloc, &mut packed, chunk)?,
        Err(PackedError::Bad { chunk, fault }) => print!(rt; " chunk {chunk} is {fault:?}")?,
        Err(PackedError::NoMemory) => rt.print(" no memory")?,
    }
    rt.println("")?;
    Ok(())
}

// All records of a chunk, of which some are printed, and then these alone.
fn print_chunk<const W: usize>(
    rt: &impl Print,
    alloc: Global,
    packed: &mut PackedChunks<W>,
    chunk: usize,
) -> Result<(), Fail>
    requires small { W ≤ 8 }
    requires chunk { chunk < 2 ^ 32 }
{
    print!(rt; " {} numbers, empty {}", packed.len(), packed.is_empty())?;
    if packed.len() < 1024 * (chunk + 1) {
        return Ok(());
    }
    let mut all = zeros::<W>(alloc, 1024)?;
    packed.decode_chunk(chunk, &mut all);
    for place in [0, 1, 77, 1023] {
        print_record(rt, &all[place])?;
    }
    print!(rt; ", sum {}", sum_of_records(alloc, &all)?)?;
    let mut some = zeros::<W>(alloc, 3)?;
    packed.decode_indices(chunk, &[1, 77, 1023], &mut some);
    rt.print(", alone")?;
    for record in some.as_slice() {
        print_record(rt, record)?;
    }
    Ok(())
}

// The sum of the bytes of records, each times its place.
fn sum_of_records<const W: usize>(alloc: Global, records: &[[u8; W]]) -> Result<u64, NoMemory> {
    let mut bytes = Vec::new(alloc);
    for record in records {
        bytes.extend_from_slice(record)?;
    }
    Ok(sum_of_bytes(bytes.as_slice()))
}

fn print_record(rt: &impl Print, record: &[u8]) -> Result<(), Fail> {
    rt.print(" ")?;
    for byte in record {
        print!(rt; "{byte:02x}")?;
    }
    Ok(())
}

// So many records of zeros.
fn zeros<const W: usize>(alloc: Global, count: usize) -> Result<Vec<[u8; W]>, Fail>
    ensures { IfOk result (λ v. vec_len v ≡ count) }
{
    let mut records = Vec::new(alloc);
    for _ in 0..count {
        records.push([0; W])?;
    }
    if records.len() != count {
        return Err("not so many records".into());
    }
    Ok(records)
}

// Three chunks of two bytes a number.
fn three_chunks(alloc: Global) -> Result<PackedChunks<2>, Fail>
    ensures { IfOk result (λ p. 3072 ≤ length (whole_chunks (records_of 2 p))) }
{
    let bytes = packed(alloc, &remainders(alloc, 1000, 3000, 3072)?, 2)?;
    let Ok(decoder) = PackedChunks::<2>::try_new(alloc, Buffer::from_vec(alloc, bytes)?) else {
        return Err("no decoder".into());
    };
    if decoder.len() < 3072 {
        return Err("too few numbers".into());
    }
    Ok(decoder)
}

// A filter of packed numbers that asks two chunks for some values.
fn print_filtered(rt: &impl Print, alloc: Global) -> Result<(), Fail> {
    let mask = Mask::from_indices(alloc, 3072, [5, 1023, 2048].to_vec(alloc)?)?;
    if mask.len() > 3072 {
        return Err("a mask that is too long".into());
    }
    let mut decoder = Logged::new(alloc, three_chunks(alloc)?, 3)?;
    let kept = filter_chunked_mask(alloc, &mut decoder, 0, &mask, &Policy::vortex())?;
    rt.print("filtered:")?;
    for record in kept.as_slice() {
        print_record(rt, record)?;
    }
    for call in decoder.calls() {
        match call {
            Call::Whole { chunk } => print!(rt; ", Whole({chunk})")?,
            Call::Only { chunk, count } => print!(rt; ", Only({chunk},{count})")?,
        }
    }
    rt.println("")?;
    Ok(())
}
