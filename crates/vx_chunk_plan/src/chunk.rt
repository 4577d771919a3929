//! The picked rows of a chunk, put where they belong.
ghost use Rattle.std.specs.Prelude.{◌≡◌, ◌+◌, ◌^◌, ◌<◌, ℕ, IfErr, IfOk, None, Some, length, slice_index};
ghost use Rattle.vx_chunk_plan.specs.Faults.{bytes_fault, first_row, first_stray, is_among, is_chunk, is_width, has_rows, rows_in, scatter_fault};
ghost use Rattle.vx_chunk_plan.specs.Filled.{ChunkIsDone};
ghost use Rattle.vx_chunk_plan.specs.Picks.{chunks_of};
ghost use Rattle.vx_chunk_plan.specs.Scattered.{AreFollowing, AreScattered, Fits};

use crate::copies::{put_row, put_rows};
use crate::fault::Fault;
use crate::picks::Chunks;

/// The rows that a chunk has.
#[derive(Clone, Copy)]
struct Span {
    first: u64,
    rows: u64,
}

/// Whether a row has from 1 to 2^20 bytes.
pub(crate) fn is_width(width: u64) -> bool
    ensures { result ≡ is_width width }
{
    0 < width && width <= 1 << 20
}

/// Whether so many bytes have rows of this width for so many picks.
pub(crate) fn has_rows(bytes: usize, width: u64, count: usize) -> bool
    requires { 0 < width }
    ensures { result ≡ has_rows bytes width count }
{
    count as u64 <= bytes as u64 / width
}

// Whether so many bytes are rows of this width, as many as a chunk has, or those of a whole one.
fn is_chunk(bytes: usize, width: u64, rows: u64, chunk_len: u64) -> bool
    requires { 0 < width }
    ensures { result ≡ is_chunk bytes width rows chunk_len }
{
    let count = bytes as u64 / width;
    bytes as u64 % width == 0 && (count == rows || count == chunk_len)
}

// The rows of chunk `k`.
fn rows_of(column: Chunks, k: u64) -> Span
    requires some { 0 < column.chunk_len }
    requires index { k < chunks_of column.len column.chunk_len }
    ensures first { result.first ≡ first_row column.chunk_len k }
    ensures rows { result.rows ≡ rows_in column.len column.chunk_len k }
    ensures small { result.first + result.rows < 2 ^ 64 }
{
    let first = k * column.chunk_len;
    Span {
        first,
        rows: column.chunk_len.min(column.len - first),
    }
}

// Which rule is broken first by the numbers alone.
fn bytes_fault(
    bytes: usize,
    k: u64,
    column: Chunks,
    width: u64,
    places: usize,
    out: usize,
) -> Option<Fault>
    ensures { result
        ≡ bytes_fault bytes k column.len column.chunk_len width places out }
{
    if !is_width(width) {
        return Some(Fault::Width);
    }
    if column.chunk_len == 0 {
        return Some(Fault::ChunkLen);
    }
    if k >= column.len.div_ceil(column.chunk_len) {
        return Some(Fault::Chunk);
    }
    if !is_chunk(bytes, width, rows_of(column, k).rows, column.chunk_len) {
        return Some(Fault::Bytes);
    }
    if !has_rows(out, width, places) {
        return Some(Fault::Output);
    }
    None
}

// Whether this is the number of a pick among a chunk's rows.
#[inline(always)]
fn is_among(places: &[u64], span: Span, j: u64) -> bool
    requires { span.first + span.rows < 2 ^ 64 }
    ensures { result ≡ is_among places.now span.first span.rows j }
{
    if j >= places.len() as u64 {
        return false;
    }
    let place = places[j as usize];
    span.first <= place && place < span.first + span.rows
}

// The first number that isn't.
fn first_stray(places: &[u64], order: &[u64], span: Span) -> Option<usize>
    requires { span.first + span.rows < 2 ^ 64 }
    ensures { result ≡ first_stray places.now order.now span.first span.rows }
{
    for i in 0..order.len() {
        if !is_among(places, span, order[i]) {
            return Some(i);
        }
    }
    None
}

// How many picks from entry `i` on follow one another, and so do their places.
fn follow(places: &[u64], order: &[u64], i: usize) -> usize
    requires index { i < length order.now }
    requires inside { (k : ℕ) → k < length order.now → slice_index order.now k < length places.now }
    requires small { (k : ℕ) → k < length order.now
        → slice_index places.now (slice_index order.now k) + 1 < 2 ^ 64 }
    ensures some { 0 < result }
    ensures run { AreFollowing places.now order.now i result }
{
    let left = order.len() - i;
    for n in 1..left {
        let j = order[i + n - 1];
        if order[i + n] != j + 1 {
            return n;
        }
        if places[j as usize + 1] != places[j as usize] + 1 {
            return n;
        }
    }
    left
}

// Writes the rows of the picks, each by way of a block.
fn write_rows<const W: usize>(
    chunk: &[u8],
    span: Span,
    places: &[u64],
    order: &[u64],
    out: &mut [u8],
)
    requires { Fits W span.first span.rows chunk.now places.now order.now out.old }
    ensures { AreScattered W span.first chunk.now places.now order.now (length order.now) out.old
        out.new }
{
    let first = span.first;
    for i in 0..order.len() {
        let j = order[i] as usize;
        let at = (places[j] - first) as usize * W;
        put_row::<W>(out, j, &chunk[at..at + W]);
    }
}

// Writes the rows of the picks, each run of following ones at once.
fn write_runs(chunk: &[u8], span: Span, width: usize, places: &[u64], order: &[u64], out: &mut [u8])
    requires { Fits width span.first span.rows chunk.now places.now order.now out.old }
    ensures { AreScattered width span.first chunk.now places.now order.now (length order.now)
        out.old out.new }
{
    let mut i = 0;
    while i < order.len() {
        let n = follow(places, order, i);
        let j = order[i] as usize;
        let at = (places[j] - span.first) as usize * width;
        put_rows(out, j, n, width, &chunk[at..at + n * width]);
        i += n;
    }
}

// Writes the rows of the picks: at once where they are one run, else by blocks of a width that is
// known beforehand, or by runs.
fn write(chunk: &[u8], span: Span, width: usize, places: &[u64], order: &[u64], out: &mut [u8])
    requires { Fits width span.first span.rows chunk.now places.now order.now out.old }
    ensures { AreScattered width span.first chunk.now places.now order.now (length order.now)
        out.old out.new }
{
    if order.is_empty() || follow(places, order, 0) == order.len() {
        write_runs(chunk, span, width, places, order, out);
        return;
    }
    match width {
        1 => write_rows::<1>(chunk, span, places, order, out),
        2 => write_rows::<2>(chunk, span, places, order, out),
        4 => write_rows::<4>(chunk, span, places, order, out),
        8 => write_rows::<8>(chunk, span, places, order, out),
        16 => write_rows::<16>(chunk, span, places, order, out),
        _ => write_runs(chunk, span, width, places, order, out),
    }
}

// Which rule is broken first.
fn scatter_fault(
    bytes: usize,
    k: u64,
    column: Chunks,
    width: u64,
    places: &[u64],
    order: &[u64],
    out: usize,
) -> Option<Fault>
    ensures { result ≡ scatter_fault bytes k column.len column.chunk_len width places.now order.now
        out }
{
    if let Some(fault) = bytes_fault(bytes, k, column, width, places.len(), out) {
        return Some(fault);
    }
    match first_stray(places, order, rows_of(column, k)) {
        Some(i) => Some(Fault::Stray(i as u64)),
        None => None,
    }
}

/// Writes the picked rows of chunk `k` where they belong: row j of `out` for each number j of
/// `order`, which is the chunk's range of a plan (`order[starts[k]..starts[k + 1]]`). All other
/// bytes of `out` stay as they are.
///
/// `chunk` has the chunk's rows of `width` bytes each, or the rows of a whole chunk where the last
/// one has fewer: what is behind its own isn't looked at.
///
/// Fails with `Width`, `ChunkLen`, `Chunk`, `Bytes`, `Output` or `Stray`, the first that applies,
/// and then writes nothing.
pub fn scatter(
    chunk: &[u8],
    k: u64,
    column: Chunks,
    width: u64,
    places: &[u64],
    order: &[u64],
    out: &mut [u8],
) -> Result<(), Fault>
    ensures scattered { IfOk result (λ _. AreScattered width (first_row column.chunk_len k)
        chunk.now places.now order.now (length order.now) out.old out.new) }
    ensures done { IfOk result (λ _. ChunkIsDone width column.len column.chunk_len k places.now
        order.now chunk.now out.old out.new) }
    ensures sound { IfOk result (λ _. scatter_fault (length chunk.now) k column.len
        column.chunk_len width places.now order.now (length out.old) ≡ None) }
    ensures refused { IfErr result (λ fault. scatter_fault (length chunk.now) k column.len
        column.chunk_len width places.now order.now (length out.old) ≡ Some fault) }
    ensures kept { IfErr result (λ _. out.new ≡ out.old) }
{
    let fault = scatter_fault(chunk.len(), k, column, width, places, order, out.len());
    if let Some(fault) = fault {
        return Err(fault);
    }
    write(
        chunk,
        rows_of(column, k),
        width as usize,
        places,
        order,
        out,
    );
    Ok(())
}
