//! Packed numbers as values behind a chunk decoder.
ghost use Rattle.std.specs.Prelude.{◌≡◌, ◌↔◌, ℕ, ◌+◌, ◌*◌, ◌%◌, ◌^◌, ◌<◌, ◌≤◌, None, true, length, map, take, drop, slice_index, slice_get, unwrap_or, Some, IfErr, IfOk, IsOkUnless, IsTrue};
ghost use Rattle.std.specs.Int.{to_le_bytes, w64};
ghost use Rattle.vx_mask.specs.Positions.{ascending};
ghost use Rattle.vx_decoder.specs.Told.{whole_chunks};
ghost use Rattle.vx_packed.specs.Chunk.{ArePacked, IsPacked, IsSpelling, chunk_at};
ghost use Rattle.vx_packed.specs.Faults.{is_width, numbers_in};
ghost use Rattle.vx_packed.specs.Parts.{AreChunks, IsIndexed, all_numbers, first_bad, front_len, parts_of, record_of, records_of};
ghost use Rattle.vx_packed.specs.declared.fault.PackedError.TheVariants.{NoMemory as NoMemoryLeft};

use crate::fault::PackedError;
use crate::parts::{count_chunks, front_of};
use crate::reading::read_one;
use crate::record::record_from;
use std::alloc::Global;
use std::marker::Model;
use vx_bits::{Buffer, NoMemory};
use vx_decoder::ChunkDecoder;

// As many chunks as a `usize` counts values of.
const MOST_CHUNKS: usize = usize::MAX / 1024;

/// Numbers of `W` bytes that are packed, chunk by chunk, as a decoder of little-endian records.
///
/// It tells no calls, and may be called as often as it is asked. Clauses see the numbers.
#[derive(Drop)]
pub struct PackedChunks<const W: usize> {
    bytes: Buffer<u8>,
    starts: Vec<usize>,
}

impl<const W: usize> Model for PackedChunks<W> {
    ghost use Rattle.std.specs.Prelude.{◌≡◌, ℕ, List};
    ghost use Rattle.vx_packed.specs.Parts.{AreChunks, all_numbers, parts_of};

    ghost Value = { List ℕ };

    ghost view = { λ p. all_numbers (parts_of p.bytes) };

    ghost invariant = { λ p. AreChunks W p.bytes p.starts.items };
}

impl<const W: usize> PackedChunks<W> {
    /// The numbers of which the bytes are the spelling, chunk by chunk.
    ///
    /// An error is the first part of the bytes that is no chunk, and where there is none
    /// `NoMemory`. More values than a `usize` counts give `NoMemory` too.
    pub fn try_new(alloc: Global, bytes: Buffer<u8>) -> Result<PackedChunks<W>, PackedError>
        requires { is_width W ≡ true }
        ensures packed { IfOk result (λ p. ArePacked W p bytes) }
        ensures records { IfOk result (λ p. whole_chunks (records_of W p) ≡ records_of W p) }
        ensures fault { IfErr result
            (λ e. e ≡ unwrap_or (first_bad W 0 (parts_of bytes)) NoMemoryLeft) }
        ensures each { IsPacked W bytes → IsOkUnless result NoMemoryLeft }
    {
        let count = count_chunks(bytes.as_slice(), W)?;
        if count > MOST_CHUNKS {
            return Err(PackedError::NoMemory);
        }
        let Ok(starts) = starts_of(alloc, bytes.as_slice(), count) else {
            return Err(PackedError::NoMemory);
        };
        Ok(PackedChunks { bytes, starts })
    }

    /// How many numbers there are, a multiple of 1024.
    pub fn len(&self) -> usize
        ensures value { result ≡ length self.now }
        ensures decoded { length (whole_chunks (records_of W self.now)) ≡ result }
        ensures whole { result % 1024 ≡ 0 }
    {
        1024 * self.starts.len()
    }

    /// Whether there is no number.
    pub fn is_empty(&self) -> bool
        ensures { IsTrue result ↔ (length self.now ≡ 0) }
    {
        self.len() == 0
    }
}

impl<const W: usize> ChunkDecoder<[u8; W]> for PackedChunks<W> {
    ghost use Rattle.std.specs.Prelude.{◌-◌, ◌^◌, None};
    ghost use Rattle.vx_decoder.specs.Told.{whole_chunks};
    ghost use Rattle.vx_decoder.specs.Laws.{whole_chunks_are_whole, whole_chunks_are_bounded};
    ghost use Rattle.vx_packed.specs.Parts.{records_of};

    // the records: all of them, as `try_new` says
    ghost values = { λ p. whole_chunks (records_of W p) };

    ghost calls = { λ _. None };

    ghost spare = { λ _. 2 ^ 64 - 1 };

    ghost whole = { λ p. whole_chunks_are_whole (records_of W p) };

    ghost bounded = { λ p. whole_chunks_are_bounded (records_of W p) };

    fn decode_chunk(&mut self, chunk_idx: usize, dst: &mut [[u8; W]]) {
        let part = part_of::<W>(self.bytes.as_slice(), self.starts.as_slice(), chunk_idx);
        put_records::<W>(part, dst);
    }

    fn decode_indices(&mut self, chunk_idx: usize, indices: &[usize], dst: &mut [[u8; W]]) {
        let part = part_of::<W>(self.bytes.as_slice(), self.starts.as_slice(), chunk_idx);
        put_records_at::<W>(part, indices, dst);
    }
}

// Where each part begins: so many places.
fn starts_of(alloc: Global, bytes: &[u8], count: usize) -> Result<Vec<usize>, NoMemory>
    ensures { IfOk result (λ v. IsIndexed bytes.now v.items) }
{
    let mut starts = Vec::with_capacity(alloc, count)?;
    let mut start = 0;
    while start < bytes.len() {
        let len = front_of(&bytes[start..]).len();
        starts.push(start)?;
        start += len;
    }
    Ok(starts)
}

// The bytes of a chunk.
fn part_of<'a, const W: usize>(bytes: &'a [u8], starts: &[usize], chunk: usize) -> &'a [u8]
    requires packed { AreChunks W bytes.now starts.now }
    requires within { 1024 * (chunk + 1) ≤ length (all_numbers (parts_of bytes.now)) }
    ensures spelled { IsSpelling 8 result.now }
    ensures numbers { numbers_in result.now ≡ chunk_at (all_numbers (parts_of bytes.now)) chunk }
{
    part_from(bytes, start_of(starts, chunk))
}

fn start_of(starts: &[usize], chunk: usize) -> usize
    requires { chunk < length starts.now }
    ensures { result ≡ slice_index starts.now chunk }
{
    starts[chunk]
}

// The part that begins at a place.
fn part_from(bytes: &[u8], start: usize) -> &[u8]
    requires { start < length bytes.now }
    ensures { result.now ≡ take (front_len (drop start bytes.now)) (drop start bytes.now) }
{
    front_of(&bytes[start..])
}

// Writes the numbers of a chunk as records.
fn put_records<const W: usize>(bytes: &[u8], dst: &mut [[u8; W]])
    requires narrow { W ≤ 8 }
    requires spelled { IsSpelling 8 bytes.now }
    requires room { length dst.old ≡ 1024 }
    ensures { dst.new ≡ records_of W (numbers_in bytes.now) }
{
    for j in 0..1024 {
        dst[j] = record_from::<W>(read_one(bytes, j));
    }
}

// Writes the numbers at the indices, and reads no other.
fn put_records_at<const W: usize>(bytes: &[u8], indices: &[usize], dst: &mut [[u8; W]])
    requires narrow { W ≤ 8 }
    requires spelled { IsSpelling 8 bytes.now }
    requires ascend { ascending 0 1024 indices.now ≡ true }
    requires room { length dst.old ≡ length indices.now }
    ensures { map Some dst.new
        ≡ map (λ i. slice_get (records_of W (numbers_in bytes.now)) i) indices.now }
{
    for k in 0..indices.len() {
        dst[k] = record_from::<W>(read_one(bytes, indices[k]));
    }
}
