//! Files of a column of numbers: their blocks, and rows of them by several readers.

use crate::arguments::{number_at, steps_at};
use crate::flaky::Flaky;
use crate::lines::{push_column, push_shown};
use crate::numbers::file_of;
use serde_json::Value;
use std::alloc::Global;
use std::test::Fail;
use vx_bits::Buffer;
use vx_column::Array;
use vx_file::{
    BlockReader, Blocks, FileError, MemoryBlocks, ReadLog, SteadyBlocks, open_file, select_file,
};
use vx_json::{byte_lists_in, list_member, text_member, wholes_in};
use vx_mask::Policy;

/// Adds a block, or an empty one.
fn push_block(blocks: &mut Blocks, bytes: &[u8], empty: bool) -> Result<(), Fail> {
    if empty {
        return Ok(blocks.push(&[])?);
    }
    if bytes.len() > 8201 {
        return Err("a block that is too long".into());
    }
    Ok(blocks.push(bytes)?)
}

/// The bytes of a block.
fn block_of<R: BlockReader>(alloc: Global, reader: &mut R, block: usize) -> Result<Vec<u8>, Fail> {
    let mut buffer = [0; 8201];
    match reader.read_block(block, &mut buffer) {
        Ok(n) => Ok(buffer[..n].to_vec(alloc)?),
        Err(_) => Err("no block".into()),
    }
}

/// The blocks `blocks`.
fn stated_blocks(alloc: Global, row: &Value) -> Result<Blocks, Fail> {
    let mut blocks = Blocks::new(alloc);
    for bytes in byte_lists_in(alloc, list_member(row, "blocks")?)? {
        push_block(&mut blocks, bytes.as_slice(), false)?;
    }
    Ok(blocks)
}

/// The blocks of a file of the numbers below `rows`, of which the block `empty` has no bytes.
fn blocks_at(alloc: Global, row: &Value) -> Result<Blocks, Fail> {
    if row.get("rows").is_none() {
        return stated_blocks(alloc, row);
    }
    let rows = number_at(row, "rows")?;
    let file = file_of(alloc, rows)?;
    if row.get("empty").is_none() {
        return Ok(file);
    }
    let (mut whole, mut blocks) = (SteadyBlocks::new(file), Blocks::new(alloc));
    let empty = number_at(row, "empty")?;
    for block in 0..rows / 1024 + 2 {
        let bytes = block_of(alloc, &mut whole, block)?;
        push_block(&mut blocks, &bytes, block == empty)?;
    }
    Ok(blocks)
}

/// Appends the type and the length of a file as often as the row says, or why there are none.
fn push_opened<R: BlockReader>(
    lines: &mut String,
    row: &Value,
    reader: &mut R,
) -> Result<(), Fail> {
    for _ in 0..number_at(row, "times")? {
        match open_file(reader) {
            Ok(shape) => push_shown(lines, &(shape.ptype(), shape.len()))?,
            Err(error) => push_shown(lines, &error)?,
        }
    }
    Ok(())
}

/// The rows that the steps pick of a file.
fn selected<R: BlockReader>(
    alloc: Global,
    row: &Value,
    reader: &mut R,
) -> Result<Result<Array, FileError>, Fail> {
    let steps = steps_at(alloc, row)?;
    match open_file(reader) {
        Ok(shape) => {
            let policy = Policy::vortex();
            Ok(select_file(alloc, reader, &shape, steps.as_slice(), &policy))
        }
        Err(error) => Ok(Err(error)),
    }
}

/// Appends the bytes of a block, or how many there are.
fn push_block_of<R: BlockReader>(
    lines: &mut String,
    alloc: Global,
    row: &Value,
    reader: &mut R,
    call: &str,
) -> Result<(), Fail> {
    let bytes = block_of(alloc, reader, number_at(row, "at")?)?;
    match call {
        "block_len" => push_shown(lines, &bytes.len()),
        _ => push_shown(lines, &bytes.as_slice()),
    }
}

/// Appends what a call gives of a file.
fn push_given<R: BlockReader>(
    lines: &mut String,
    alloc: Global,
    row: &Value,
    reader: &mut R,
    call: &str,
) -> Result<(), Fail> {
    match call {
        "open_file" => push_opened(lines, row, reader),
        "select_file" => match selected(alloc, row, reader)? {
            Ok(column) => push_column(lines, alloc, &column),
            Err(error) => push_shown(lines, &error),
        },
        _ => push_block_of(lines, alloc, row, reader, call),
    }
}

/// Appends what a call gives by a reader that fails at some calls, and the reads that it keeps.
fn push_failing(lines: &mut String, alloc: Global, row: &Value, call: &str) -> Result<(), Fail> {
    let failing = wholes_in(alloc, list_member(row, "failing")?)?;
    let failing = Buffer::from_vec(alloc, failing)?;
    let mut reader = MemoryBlocks::new(
        alloc,
        blocks_at(alloc, row)?,
        failing,
        number_at(row, "room")?,
    )?;
    push_given(lines, alloc, row, &mut reader, call)?;
    push_shown(lines, &reader.reads())?;
    push_shown(lines, &reader.into_reads().reads())
}

/// Appends what a call gives of the file of a row, by the reader that it names.
pub(crate) fn push_file(
    lines: &mut String,
    alloc: Global,
    row: &Value,
    call: &str,
) -> Result<(), Fail> {
    match text_member(row, "reader")? {
        "MemoryBlocks" => push_failing(lines, alloc, row, call),
        "SteadyBlocks" => {
            let mut reader = SteadyBlocks::new(blocks_at(alloc, row)?);
            push_given(lines, alloc, row, &mut reader, call)
        }
        "Flaky" => {
            let inner = SteadyBlocks::new(blocks_at(alloc, row)?);
            push_given(lines, alloc, row, &mut Flaky { inner, faults: 0 }, call)
        }
        "no reader" => push_shown(lines, &ReadLog::new().reads()),
        _ => Err("no such reader".into()),
    }
}
