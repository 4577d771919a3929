//! Picks in lists of the caller's, and the chunks in which they lie.
ghost use Rattle.std.specs.Prelude.{◌≡◌, ◌==◌, ◌<◌, if◌then◌else◌, Err, Ok, length, position, slice_index};
ghost use Rattle.std.specs.List.{range_with_len};
ghost use Rattle.vx_chunk_plan.specs.declared.fault.Fault.TheVariants.{ChunkLen};
ghost use Rattle.vx_chunk_plan.specs.Faults.{first_beyond, has_valid, is_beyond};
ghost use Rattle.vx_chunk_plan.specs.Keys.{keys_of};
ghost use Rattle.vx_chunk_plan.specs.Picks.{chunks_of, pick_at};

use crate::fault::Fault;
use vx_arrow_image::is_there;

/// A column's rows, and how many of them a chunk has; the last chunk may have fewer.
#[derive(Debug, Clone, Copy, PartialEq, Eq)]
pub struct Chunks {
    /// How many rows the column has.
    pub len: u64,
    /// How many rows a chunk has.
    pub chunk_len: u64,
}

/// Returns how many chunks the column has, or `Fault::ChunkLen` where chunks have no rows.
pub fn count_chunks(column: Chunks) -> Result<u64, Fault>
    ensures { result ≡ (if column.chunk_len == 0 then Err ChunkLen
        else Ok (chunks_of column.len column.chunk_len)) }
{
    if column.chunk_len == 0 {
        return Err(Fault::ChunkLen);
    }
    Ok(column.len.div_ceil(column.chunk_len))
}

/// Whether there are no bits of validity, or enough for so many picks.
pub(crate) fn has_valid(valid: &[u8], count: usize) -> bool
    ensures { result ≡ has_valid valid.now count }
{
    valid.is_empty() || count.div_ceil(8) <= valid.len()
}

// Whether pick `j` is past the rows.
#[inline(always)]
fn is_beyond(places: &[u64], valid: &[u8], len: u64, j: usize) -> bool
    requires { j < length places.now }
    ensures { result ≡ is_beyond len (pick_at places.now valid.now j) }
{
    is_there(valid, j) && places[j] >= len
}

/// The first pick that is past the rows.
pub(crate) fn first_beyond(places: &[u64], valid: &[u8], len: u64) -> Option<usize>
    ensures { result ≡ first_beyond places.now valid.now len }
{
    for j in 0..places.len() {
        if is_beyond(places, valid, len, j) {
            return Some(j);
        }
    }
    None
}

/// The chunk in which pick `j` lies, or that behind the last one where it is null.
#[inline(always)]
pub(crate) fn key(places: &[u64], valid: &[u8], chunk_len: u64, chunks: u64, j: usize) -> u64
    requires some { 0 < chunk_len }
    requires index { j < length places.now }
    ensures { result ≡ slice_index (keys_of chunks chunk_len places.now valid.now) j }
{
    if is_there(valid, j) {
        places[j] / chunk_len
    } else {
        chunks
    }
}
