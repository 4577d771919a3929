//! The filters over decoded values.
ghost use Rattle.std.specs.Prelude.{◌≡◌, ◌+◌, ◌<◌, ◌≤◌, ◌^◌, IfOk, IfSome, OnOk, OnErr, Some, true, length, map, slice_get};
ghost use Rattle.std.specs.List.{range_with_len};
ghost use Rattle.vx_bits.specs.WordReader.{then_told};
ghost use Rattle.vx_mask.specs.Mask.{mask_bits};
ghost use Rattle.vx_mask.specs.Policy.{sparse_limit_of};
ghost use Rattle.vx_mask.specs.Positions.{ascending, run_positions, runs_ascend, set_of};
ghost use Rattle.vx_chunked.specs.Asked.{asked, end_of, chunks_touched};

use crate::bits::BitCursor;
use crate::cursor::Cursor;
use crate::driver::filter_at;
use crate::indices::IndexCursor;
use crate::runs::RunCursor;
use std::alloc::Global;
use vx_bits::{NoMemory, Record};
use vx_decoder::ChunkDecoder;
use vx_filter::{useful_indices, useful_slices};
use vx_mask::{Mask, MaskValues, Policy};

// Where the `len` values from `offset` on end; at 0 where there are none.
fn range_end(offset: usize, len: usize) -> usize
    requires { offset + len < 2 ^ 64 }
    ensures { result ≡ end_of offset len }
{
    if len == 0 { 0 } else { offset + len }
}

// How many bits the runs of a chunk's words have on average where they are copied run after run:
// those of `min_run_bytes` bytes, and four at most, since a run of four is less work as a block.
fn long_in_words(policy: &Policy, width: usize) -> usize {
    policy.fields().min_run_bytes.div_ceil(width.max(1)).min(4)
}

/// The values at the indices, which count from value `offset` on: those of `filter_chunked` for the
/// mask of `len` rows with these set positions. Fails only with `NoMemory`.
pub fn filter_chunked_by_indices<T: Record, D: ChunkDecoder<T>>(
    alloc: Global,
    decoder: &mut D,
    offset: usize,
    len: usize,
    indices: &[usize],
    policy: &Policy,
) -> Result<Vec<T>, NoMemory>
    requires offset { offset < 1024 }
    requires within { offset + len ≤ length (D.values decoder.old) }
    requires spare { chunks_touched offset len ≤ D.spare decoder.old }
    requires ascend { ascending 0 len indices.now ≡ true }
    ensures value { IfOk result (λ kept. map Some kept.items
        ≡ map (λ p. slice_get (D.values decoder.old) (offset + p)) indices.now) }
    ensures told { OnOk result (D.calls decoder.new
        ≡ then_told (D.calls decoder.old)
        (asked offset indices.now (sparse_limit_of policy.now T.WIDTH)
        (chunks_touched offset len))) }
    ensures untold { OnErr result (D.calls decoder.new ≡ D.calls decoder.old) }
    ensures same { D.values decoder.new ≡ D.values decoder.old }
    ensures cost { D.spare decoder.old ≤ D.spare decoder.new + chunks_touched offset len }
{
    let end = range_end(offset, len);
    let limit = policy.sparse_limit(T::WIDTH);
    let mut cursor = IndexCursor::new(indices, offset);
    filter_at(alloc, decoder, &mut cursor, end, indices.len(), limit)
}

// How many positions the runs have.
fn total_of(len: usize, slices: &[(usize, usize)]) -> usize
    requires { runs_ascend 0 len slices.now ≡ true }
    ensures { result ≡ length (run_positions slices.now) }
{
    let mut total = 0;
    for (start, end) in slices {
        total += end - start;
    }
    total
}

/// The values of the runs, which count from value `offset` on: those of `filter_chunked` for the
/// mask of `len` rows with these set positions. A run may cross chunks. Fails only with `NoMemory`.
pub fn filter_chunked_by_slices<T: Record, D: ChunkDecoder<T>>(
    alloc: Global,
    decoder: &mut D,
    offset: usize,
    len: usize,
    slices: &[(usize, usize)],
    policy: &Policy,
) -> Result<Vec<T>, NoMemory>
    requires offset { offset < 1024 }
    requires within { offset + len ≤ length (D.values decoder.old) }
    requires spare { chunks_touched offset len ≤ D.spare decoder.old }
    requires runs { runs_ascend 0 len slices.now ≡ true }
    ensures value { IfOk result (λ kept. map Some kept.items
        ≡ map (λ p. slice_get (D.values decoder.old) (offset + p)) (run_positions slices.now)) }
    ensures told { OnOk result (D.calls decoder.new
        ≡ then_told (D.calls decoder.old)
        (asked offset (run_positions slices.now) (sparse_limit_of policy.now T.WIDTH)
        (chunks_touched offset len))) }
    ensures untold { OnErr result (D.calls decoder.new ≡ D.calls decoder.old) }
    ensures same { D.values decoder.new ≡ D.values decoder.old }
    ensures cost { D.spare decoder.old ≤ D.spare decoder.new + chunks_touched offset len }
{
    let end = range_end(offset, len);
    let limit = policy.sparse_limit(T::WIDTH);
    let total = total_of(len, slices);
    let mut cursor = RunCursor::new(0, 0, slices, offset);
    filter_at(alloc, decoder, &mut cursor, end, total, limit)
}

// The values at the set positions of a mask, by a cursor over them.
fn filter_by<T: Record, D: ChunkDecoder<T>, C: Cursor<T>>(
    alloc: Global,
    decoder: &mut D,
    cursor: &mut C,
    offset: usize,
    mask: &MaskValues,
    policy: &Policy,
) -> Result<Vec<T>, NoMemory>
    requires rest { C.rest cursor.old ≡ map (λ p. offset + p) (set_of mask.now.bits.bits) }
    requires offset { offset < 1024 }
    requires within { offset + length mask.now.bits.bits ≤ length (D.values decoder.old) }
    requires spare { chunks_touched offset (length mask.now.bits.bits) ≤ D.spare decoder.old }
    ensures value { IfOk result (λ kept. map Some kept.items
        ≡ map (λ p. slice_get (D.values decoder.old) (offset + p)) (set_of mask.now.bits.bits)) }
    ensures told { OnOk result (D.calls decoder.new ≡ then_told (D.calls decoder.old)
        (asked offset (set_of mask.now.bits.bits) (sparse_limit_of policy.now T.WIDTH)
        (chunks_touched offset (length mask.now.bits.bits)))) }
    ensures untold { OnErr result (D.calls decoder.new ≡ D.calls decoder.old) }
    ensures same { D.values decoder.new ≡ D.values decoder.old }
    ensures cost { D.spare decoder.old
        ≤ D.spare decoder.new + chunks_touched offset (length mask.now.bits.bits) }
{
    let end = range_end(offset, mask.len());
    let limit = policy.sparse_limit(T::WIDTH);
    filter_at(alloc, decoder, cursor, end, mask.true_count(), limit)
}

/// The values at the set positions of the mask, which count from value `offset` on: Vortex's
/// `filter_chunked`. Fails only with `NoMemory`.
///
/// Of each chunk that holds selected values these alone are decoded, where they number at most the
/// policy's sparse limit, else the whole chunk. No chunk is asked for before all memory is there.
pub fn filter_chunked<T: Record, D: ChunkDecoder<T>>(
    alloc: Global,
    decoder: &mut D,
    offset: usize,
    mask: &MaskValues,
    policy: &Policy,
) -> Result<Vec<T>, NoMemory>
    requires offset { offset < 1024 }
    requires within { offset + length mask.now.bits.bits ≤ length (D.values decoder.old) }
    requires spare { chunks_touched offset (length mask.now.bits.bits) ≤ D.spare decoder.old }
    ensures value { IfOk result (λ kept. map Some kept.items
        ≡ map (λ p. slice_get (D.values decoder.old) (offset + p)) (set_of mask.now.bits.bits)) }
    ensures told { OnOk result (D.calls decoder.new
        ≡ then_told (D.calls decoder.old)
        (asked offset (set_of mask.now.bits.bits) (sparse_limit_of policy.now T.WIDTH)
        (chunks_touched offset (length mask.now.bits.bits)))) }
    ensures untold { OnErr result (D.calls decoder.new ≡ D.calls decoder.old) }
    ensures same { D.values decoder.new ≡ D.values decoder.old }
    ensures cost { D.spare decoder.old
        ≤ D.spare decoder.new + chunks_touched offset (length mask.now.bits.bits) }
{
    let fields = policy.fields();
    if let Some(slices) = useful_slices(mask, fields) {
        let mut cursor = RunCursor::new(0, 0, slices, offset);
        return filter_by(alloc, decoder, &mut cursor, offset, mask, policy);
    }
    if let Some(indices) = useful_indices(mask, fields) {
        let mut cursor = IndexCursor::new(indices, offset);
        return filter_by(alloc, decoder, &mut cursor, offset, mask, policy);
    }
    let mut cursor = BitCursor::new(mask, offset, long_in_words(policy, T::WIDTH));
    filter_by(alloc, decoder, &mut cursor, offset, mask, policy)
}

// The values at the first `count` of `len` positions, which count from value `offset` on.
fn filter_front<T: Record, D: ChunkDecoder<T>>(
    alloc: Global,
    decoder: &mut D,
    offset: usize,
    len: usize,
    count: usize,
    policy: &Policy,
) -> Result<Vec<T>, NoMemory>
    requires offset { offset < 1024 }
    requires count { count ≤ len }
    requires within { offset + len ≤ length (D.values decoder.old) }
    requires spare { chunks_touched offset len ≤ D.spare decoder.old }
    ensures value { IfOk result (λ kept. map Some kept.items
        ≡ map (λ p. slice_get (D.values decoder.old) (offset + p)) (range_with_len 0 count)) }
    ensures told { OnOk result (D.calls decoder.new
        ≡ then_told (D.calls decoder.old)
        (asked offset (range_with_len 0 count) (sparse_limit_of policy.now T.WIDTH)
        (chunks_touched offset len))) }
    ensures untold { OnErr result (D.calls decoder.new ≡ D.calls decoder.old) }
    ensures same { D.values decoder.new ≡ D.values decoder.old }
    ensures cost { D.spare decoder.old ≤ D.spare decoder.new + chunks_touched offset len }
{
    let end = range_end(offset, len);
    let limit = policy.sparse_limit(T::WIDTH);
    let mut cursor = RunCursor::new(0, count, &[], offset);
    filter_at(alloc, decoder, &mut cursor, end, count, limit)
}

/// The values at the set positions of any mask, which count from value `offset` on. Fails only with
/// `NoMemory`.
pub fn filter_chunked_mask<T: Record, D: ChunkDecoder<T>>(
    alloc: Global,
    decoder: &mut D,
    offset: usize,
    mask: &Mask,
    policy: &Policy,
) -> Result<Vec<T>, NoMemory>
    requires within { offset + length (mask_bits mask.now) ≤ length (D.values decoder.old) }
    requires offset { offset < 1024 }
    requires spare { chunks_touched offset (length (mask_bits mask.now)) ≤ D.spare decoder.old }
    ensures value { IfOk result (λ kept. map Some kept.items
        ≡ map (λ p. slice_get (D.values decoder.old) (offset + p))
        (set_of (mask_bits mask.now))) }
    ensures told { OnOk result (D.calls decoder.new
        ≡ then_told (D.calls decoder.old)
        (asked offset (set_of (mask_bits mask.now)) (sparse_limit_of policy.now T.WIDTH)
        (chunks_touched offset (length (mask_bits mask.now))))) }
    ensures untold { OnErr result (D.calls decoder.new ≡ D.calls decoder.old) }
    ensures same { D.values decoder.new ≡ D.values decoder.old }
    ensures cost { D.spare decoder.old
        ≤ D.spare decoder.new + chunks_touched offset (length (mask_bits mask.now)) }
{
    match mask {
        Mask::Values(values) => filter_chunked(alloc, decoder, offset, values, policy),
        Mask::AllFalse(len) => filter_front(alloc, decoder, offset, *len, 0, policy),
        Mask::AllTrue(len) => filter_front(alloc, decoder, offset, *len, *len, policy),
    }
}
