//! Reads rows out of a store chunk by chunk, as a user of a plan does, and prints what each gives.

use std::alloc::Global;
use std::test::Fail;
use vx_bits::NoMemory;
use vx_chunk_laws::told_are_asked;
use vx_chunk_plan::{Chunks, count_chunks, fill_nulls, filled, next_run, plan, scatter};

// Picks of a column, and how many bytes a row has. Byte b of row i is 10 times i, and b.
#[derive(Clone, Copy)]
struct Read<'a> {
    places: &'a [u64],
    valid: &'a [u8],
    column: Chunks,
    width: u64,
}

/// A row for each read.
pub(crate) fn print_rows(rt: &impl Print, alloc: Global) -> Result<(), Fail> {
    told_are_asked(&[], &[]);
    print_orders(rt, alloc, &[])?;
    print_nulls(rt, alloc)?;
    print_faults(rt, alloc, &[])?;
    print_refusals(rt)?;
    print_runs(rt, &[0, 2, 3, 9, 10], 4)
}

// Picks in any order, and chunks of any length.
fn print_orders(rt: &impl Print, alloc: Global, none: &[u8]) -> Result<(), Fail> {
    let short = picked(&[7, 6, 1], none, 8, 3, 2);
    let single = picked(&[2, 0, 2], none, 3, 1, 1);
    let mixed = picked(&[5, 0, 4, 5, 3], none, 6, 2, 1);
    print_read(rt, alloc, "no picks", &picked(&[], none, 8, 3, 1))?;
    print_read(rt, alloc, "one chunk", &picked(&[2, 0], none, 3, 3, 1))?;
    print_read(rt, alloc, "a shorter chunk at the end", &short)?;
    print_read(rt, alloc, "chunks of a row", &single)?;
    print_read(rt, alloc, "in any order and twice", &mixed)
}

// Picks that are null, and rows of several bytes.
fn print_nulls(rt: &impl Print, alloc: Global) -> Result<(), Fail> {
    let mixed = picked(&[4, 9, 0, 9], &[0b0101], 6, 4, 1);
    let wide = picked(&[3, 1, 2], &[], 4, 2, 3);
    let run = picked(&[2, 3, 4, 5], &[], 8, 8, 1);
    print_read(rt, alloc, "nulls", &mixed)?;
    print_read(rt, alloc, "nulls alone", &picked(&[0, 0], &[0], 2, 2, 3))?;
    print_read(rt, alloc, "rows of three bytes", &wide)?;
    print_read(rt, alloc, "a run of rows", &run)
}

// Reads that fail.
fn print_faults(rt: &impl Print, alloc: Global, none: &[u8]) -> Result<(), Fail> {
    let past = picked(&[1, 6, 7], none, 6, 4, 1);
    let few = picked(&[0, 1, 2, 3, 4, 5, 6, 7, 8], &[255], 9, 4, 1);
    let bare = picked(&[0], none, 6, 4, 0);
    print_read(rt, alloc, "a place past the rows", &past)?;
    print_read(
        rt,
        alloc,
        "no rows in a chunk",
        &picked(&[0], none, 6, 0, 1),
    )?;
    print_read(rt, alloc, "a bit too few", &few)?;
    print_read(rt, alloc, "rows without bytes", &bare)
}

fn picked<'a>(
    places: &'a [u64],
    valid: &'a [u8],
    len: u64,
    chunk_len: u64,
    width: u64,
) -> Read<'a> {
    Read {
        places,
        valid,
        column: Chunks { len, chunk_len },
        width,
    }
}

fn print_read(rt: &impl Print, alloc: Global, name: &str, read: &Read<'_>) -> Result<(), Fail> {
    print!(rt; "{name}:")?;
    let chunks = match count_chunks(read.column) {
        Ok(chunks) => chunks,
        Err(fault) => {
            println!(rt; " {fault}")?;
            return Ok(());
        }
    };
    let mut starts = vec![in alloc; 0u64; (chunks as usize).saturating_add(1)]?;
    let mut order = vec![in alloc; 0u64; read.places.len()]?;
    match plan(
        read.places,
        read.valid,
        read.column,
        &mut starts,
        &mut order,
    ) {
        Ok(count) => print!(rt; " {count} picks, starts")?,
        Err(fault) => {
            println!(rt; " {fault}")?;
            return Ok(());
        }
    }
    print_numbers(rt, &starts)?;
    print!(rt; ", order")?;
    print_numbers(rt, &order)?;
    print_output(rt, alloc, read, &starts, &order)
}

fn print_numbers(rt: &impl Print, numbers: &[u64]) -> Result<(), Fail> {
    for number in numbers {
        print!(rt; " {number}")?;
    }
    Ok(())
}

// The bytes of the rows of chunk `k`.
fn chunk(alloc: Global, read: &Read<'_>, k: u64) -> Result<Vec<u8>, NoMemory> {
    let mut bytes = Vec::new(alloc);
    let first = k.saturating_mul(read.column.chunk_len);
    let end = first
        .saturating_add(read.column.chunk_len)
        .min(read.column.len);
    for row in first..end {
        for byte in 0..read.width {
            bytes.push((row.wrapping_mul(10).wrapping_add(byte) % 256) as u8)?;
        }
    }
    Ok(bytes)
}

// Scatters each chunk that is told, the last one first, and prints the output and the chunks.
fn print_output(
    rt: &impl Print,
    alloc: Global,
    read: &Read<'_>,
    starts: &[u64],
    order: &[u64],
) -> Result<(), Fail> {
    let count = read.places.len();
    let mut out = vec![in alloc; 255u8; count.saturating_mul(read.width as usize)]?;
    print!(rt; ", chunks")?;
    for k in (1..starts.len()).rev() {
        let (start, end) = (starts[k - 1] as usize, starts[k] as usize);
        let Some(range) = order.get(start..end) else {
            continue;
        };
        if range.is_empty() {
            continue;
        }
        let number = k as u64 - 1;
        let bytes = chunk(alloc, read, number)?;
        let done = scatter(
            &bytes,
            number,
            read.column,
            read.width,
            read.places,
            range,
            &mut out,
        );
        match done {
            Ok(()) => print!(rt; " {number}")?,
            Err(fault) => print!(rt; " {fault}")?,
        }
    }
    print_filled(rt, read, &mut out)
}

fn print_filled(rt: &impl Print, read: &Read<'_>, out: &mut [u8]) -> Result<(), Fail> {
    if let Err(fault) = fill_nulls(read.valid, read.places.len(), read.width, out) {
        println!(rt; ", {fault}")?;
        return Ok(());
    }
    filled(
        read.places,
        read.valid,
        read.column.chunk_len,
        read.width,
        out,
    );
    print!(rt; ", bytes")?;
    for byte in out.iter() {
        print!(rt; " {byte}")?;
    }
    rt.println("")?;
    Ok(())
}

// Why a chunk isn't scattered; what stood in the output stays.
fn print_refusals(rt: &impl Print) -> Result<(), Fail> {
    let column = Chunks {
        len: 6,
        chunk_len: 4,
    };
    print_scatter(rt, "no such chunk", &[0, 10], 2, column, &[0])?;
    print_scatter(rt, "a byte too few", &[40], 1, column, &[0])?;
    print_scatter(
        rt,
        "a whole chunk's bytes for a shorter one",
        &[40, 50, 9, 9],
        1,
        column,
        &[0],
    )?;
    print_scatter(rt, "a number past the picks", &[40, 50], 1, column, &[0, 2])?;
    print_scatter(rt, "a pick of another chunk", &[40, 50], 1, column, &[1])
}

fn print_scatter(
    rt: &impl Print,
    name: &str,
    bytes: &[u8],
    k: u64,
    column: Chunks,
    order: &[u64],
) -> Result<(), Fail> {
    let mut out = [7u8, 8];
    print!(rt; "{name}: ")?;
    match scatter(bytes, k, column, 1, &[5, 1], order, &mut out) {
        Ok(()) => print!(rt; "done")?,
        Err(fault) => print!(rt; "{fault}")?,
    }
    println!(rt; ", {} {}", out[0], out[1])?;
    Ok(())
}

// The runs of places that ascend.
fn print_runs(rt: &impl Print, places: &[u64], chunk_len: u64) -> Result<(), Fail> {
    print!(rt; "runs:")?;
    let mut from = 0;
    for _ in 0..places.len() {
        let Some(run) = next_run(places, chunk_len, from) else {
            break;
        };
        print!(rt; " {}-{} in {}", from, run.end, run.chunk)?;
        from = run.end;
    }
    rt.println("")?;
    Ok(())
}
