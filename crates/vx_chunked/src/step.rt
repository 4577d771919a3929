//! What is done for one chunk.
ghost use Rattle.std.specs.Prelude.{◌≡◌, ◌+◌, ◌*◌, ◌<◌, ◌≤◌, ◌++◌, Some, length, map, min, slice_get, take, vec_capacity, vec_len};
ghost use Rattle.vx_bits.specs.WordReader.{then_told};
ghost use Rattle.vx_chunked.specs.Asked.{call_for};
ghost use Rattle.vx_chunked.specs.Positions.{AscendFrom};

use crate::cursor::Cursor;
use vx_decoder::{ChunkDecoder, FILTER_CHUNK_LEN};

/// Asks for one chunk, once and only where some of its values were taken, and appends these. There
/// is room for them.
pub(crate) fn put_chunk<T: Copy, D: ChunkDecoder<T>, C: Cursor<T>>(
    decoder: &mut D,
    chunk: usize,
    cursor: &C,
    count: usize,
    limit: usize,
    places: &mut [usize],
    scratch: &mut [T],
    out: &mut Vec<T>,
)
    requires count { count ≡ length (C.taken cursor.now) }
    requires ascend { AscendFrom 0 1024 (C.taken cursor.now) }
    requires places { length places.old ≡ min limit 1024 }
    requires scratch { length scratch.old ≡ 1024 }
    requires room { vec_len out.old + count ≤ vec_capacity out.old }
    requires within { 1024 * (chunk + 1) ≤ length (D.values decoder.old) }
    requires left { 1 ≤ D.spare decoder.old }
    ensures value { map Some out.new.items ≡ map Some out.old.items
        ++ map (λ p. slice_get (D.values decoder.old) (1024 * chunk + p)) (C.taken cursor.now) }
    ensures capacity { vec_capacity out.old ≤ vec_capacity out.new }
    ensures told { D.calls decoder.new
        ≡ then_told (D.calls decoder.old) (call_for limit chunk count) }
    ensures same { D.values decoder.new ≡ D.values decoder.old }
    ensures cost { D.spare decoder.old ≤ D.spare decoder.new + 1 }
{
    if count == 0 {
        return;
    }
    let filled = out.len();
    grow(out, scratch, count);
    let dst = &mut out.as_mut_slice()[filled..];
    take_chunk(decoder, chunk, cursor, limit, places, scratch, dst);
}

// Appends the first `count` items of a chunk's length, to be written over. There is room for them.
// A few come as a block of sixteen that is cut off behind them, which is less work than a call.
#[inline(always)]
fn grow<T: Copy>(out: &mut Vec<T>, items: &[T], count: usize)
    requires chunk { length items.now ≡ 1024 }
    requires part { count ≤ 1024 }
    requires room { vec_len out.old + count ≤ vec_capacity out.old }
    ensures items { out.new.items ≡ out.old.items ++ take count items.now }
    ensures capacity { vec_capacity out.old ≤ vec_capacity out.new }
{
    let filled = out.len();
    if count <= 16 && 16 <= out.capacity() - filled {
        append(out, &items[..16]);
        out.truncate(filled + count);
    } else {
        append(out, &items[..count]);
    }
}

// Appends items that there is room for.
#[inline(always)]
fn append<T: Copy>(out: &mut Vec<T>, items: &[T])
    requires { vec_len out.old + length items.now ≤ vec_capacity out.old }
    ensures items { out.new.items ≡ out.old.items ++ items.now }
    ensures capacity { vec_capacity out.old ≤ vec_capacity out.new }
{
    if out.extend_from_slice(items).is_err() {
        unreachable!()
    }
}

// Asks for one chunk, of which some values were taken, and writes these to where the output has
// them.
fn take_chunk<T: Copy, D: ChunkDecoder<T>, C: Cursor<T>>(
    decoder: &mut D,
    chunk: usize,
    cursor: &C,
    limit: usize,
    places: &mut [usize],
    scratch: &mut [T],
    dst: &mut [T],
)
    requires some { 0 < length (C.taken cursor.now) }
    requires ascend { AscendFrom 0 1024 (C.taken cursor.now) }
    requires places { length places.old ≡ min limit 1024 }
    requires scratch { length scratch.old ≡ 1024 }
    requires room { length dst.old ≡ length (C.taken cursor.now) }
    requires within { 1024 * (chunk + 1) ≤ length (D.values decoder.old) }
    requires left { 1 ≤ D.spare decoder.old }
    ensures value { map Some dst.new
        ≡ map (λ p. slice_get (D.values decoder.old) (1024 * chunk + p)) (C.taken cursor.now) }
    ensures told { D.calls decoder.new
        ≡ then_told (D.calls decoder.old) (call_for limit chunk (length (C.taken cursor.now))) }
    ensures same { D.values decoder.new ≡ D.values decoder.old }
    ensures cost { D.spare decoder.old ≤ D.spare decoder.new + 1 }
{
    let count = dst.len();
    if count <= limit {
        let places = &mut places[..count];
        cursor.list_places(places);
        decoder.decode_indices(chunk, places, dst);
        return;
    }
    if count == FILTER_CHUNK_LEN {
        decoder.decode_chunk(chunk, dst);
        return;
    }
    decoder.decode_chunk(chunk, scratch);
    cursor.copy_values(scratch, dst);
}
