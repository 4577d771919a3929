//! The walk over the chunks.
ghost use Rattle.std.specs.Prelude.{◌≡◌, ◌+◌, ◌*◌, ◌^◌, ◌<◌, ◌≤◌, IfOk, OnOk, OnErr, Some, [], length, map, min, slice_get, vec_capacity};
ghost use Rattle.vx_bits.specs.WordReader.{then_told};
ghost use Rattle.vx_chunked.specs.Asked.{calls_from, chunks_for};
ghost use Rattle.vx_chunked.specs.Positions.{AscendFrom};

use crate::cursor::Cursor;
use crate::step::put_chunk;
use std::alloc::Global;
use vx_bits::{NoMemory, Record};
use vx_decoder::{ChunkDecoder, FILTER_CHUNK_LEN};

// Appends the values at the cursor's positions, all of which lie before `end`. There is room for
// them. Chunks that hold none are passed over where the cursor knows them.
fn take_chunks<T: Record, D: ChunkDecoder<T>, C: Cursor<T>>(
    decoder: &mut D,
    cursor: &mut C,
    end: usize,
    limit: usize,
    places: &mut [usize],
    scratch: &mut [T],
    out: &mut Vec<T>,
)
    requires ascend { AscendFrom 0 end (C.rest cursor.old) }
    requires places { length places.old ≡ min limit 1024 }
    requires scratch { length scratch.old ≡ 1024 }
    requires empty { out.old.items ≡ [] }
    requires room { length (C.rest cursor.old) ≤ vec_capacity out.old }
    requires within { end ≤ length (D.values decoder.old) }
    requires left { chunks_for end ≤ D.spare decoder.old }
    ensures value { map Some out.new.items
        ≡ map (slice_get (D.values decoder.old)) (C.rest cursor.old) }
    ensures told { D.calls decoder.new
        ≡ then_told (D.calls decoder.old)
        (calls_from limit (C.rest cursor.old) 0 (chunks_for end)) }
    ensures same { D.values decoder.new ≡ D.values decoder.old }
    ensures cost { D.spare decoder.old ≤ D.spare decoder.new + chunks_for end }
{
    let chunks = end.div_ceil(FILTER_CHUNK_LEN);
    let first = cursor.next_chunk(0);
    let mut chunk = first.min(chunks);
    'walk: while chunk < chunks {
        let count = cursor.take_places(chunk);
        put_chunk(decoder, chunk, cursor, count, limit, places, scratch, out);
        let next = cursor.next_chunk(chunk + 1);
        chunk = next.min(chunks);
    }
}

// A chunk's length of values, to be written over.
fn scratch_of<T: Record>(alloc: Global) -> Result<Vec<T>, NoMemory>
    ensures { IfOk result (λ scratch. length scratch.items ≡ 1024) }
{
    let mut scratch = Vec::with_capacity(alloc, FILTER_CHUNK_LEN)?;
    scratch.resize(FILTER_CHUNK_LEN, T::zero())?;
    Ok(scratch)
}

/// Reserves all that is needed, and only then asks for the chunks of the cursor's positions, which
/// number `total` and lie before `end`.
pub(crate) fn filter_at<T: Record, D: ChunkDecoder<T>, C: Cursor<T>>(
    alloc: Global,
    decoder: &mut D,
    cursor: &mut C,
    end: usize,
    total: usize,
    limit: usize,
) -> Result<Vec<T>, NoMemory>
    requires ascend { AscendFrom 0 end (C.rest cursor.old) }
    requires total { total ≡ length (C.rest cursor.old) }
    requires within { end ≤ length (D.values decoder.old) }
    requires left { chunks_for end ≤ D.spare decoder.old }
    ensures value { IfOk result (λ kept. map Some kept.items
        ≡ map (slice_get (D.values decoder.old)) (C.rest cursor.old)) }
    ensures told { OnOk result (D.calls decoder.new
        ≡ then_told (D.calls decoder.old)
        (calls_from limit (C.rest cursor.old) 0 (chunks_for end))) }
    ensures untold { OnErr result (D.calls decoder.new ≡ D.calls decoder.old) }
    ensures same { D.values decoder.new ≡ D.values decoder.old }
    ensures cost { D.spare decoder.old ≤ D.spare decoder.new + chunks_for end }
{
    if total == 0 {
        return Ok(Vec::new(alloc));
    }
    let mut places = vec![in alloc; 0; limit.min(FILTER_CHUNK_LEN)]?;
    let mut scratch = scratch_of(alloc)?;
    let mut out = Vec::with_capacity(alloc, total)?;
    take_chunks(
        decoder,
        cursor,
        end,
        limit,
        places.as_mut_slice(),
        scratch.as_mut_slice(),
        &mut out,
    );
    Ok(out)
}
