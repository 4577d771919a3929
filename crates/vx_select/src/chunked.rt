//! The answer to a list of steps over values behind a decoder.
ghost use Rattle.std.specs.Prelude.{◌≡◌, ◌+◌, ◌<◌, ◌≤◌, IfErr, IfOk, IfSome, OnOk, Some, length, map, replicate, true};
ghost use Rattle.std.specs.List.{items_where_true};
ghost use Rattle.vx_bits.specs.BitBuffer.{true_count_of};
ghost use Rattle.vx_bits.specs.Records.{records_of, width_of};
ghost use Rattle.vx_bits.specs.WordReader.{then_told};
ghost use Rattle.vx_types.specs.Decimal.{is_width};
ghost use Rattle.vx_types.specs.DType.{type_of};
ghost use Rattle.vx_types.specs.RowValue.{bytes, null};
ghost use Rattle.vx_types.specs.TypeTree.{also_nullable, type_width};
ghost use Rattle.vx_mask.specs.Mask.{mask_bits};
ghost use Rattle.vx_mask.specs.Policy.{sparse_limit_of};
ghost use Rattle.vx_model.specs.Plain.{is_unwrapped};
ghost use Rattle.vx_model.specs.Valid.{cover_by, is_fitting, is_flat_cover, nullability_by, stored_rows};
ghost use Rattle.vx_column.specs.Validity.{valid_of};
ghost use Rattle.vx_take.specs.Picks.{at, item_at};
ghost use Rattle.vx_types.specs.declared.nullability.Nullability.TheVariants.{NonNullable};
ghost use Rattle.vx_positions.specs.Positions.{AllThere};
ghost use Rattle.vx_chunked.specs.Asked.{chunks_touched};
ghost use Rattle.vx_steps.specs.Step.{step_value};
ghost use Rattle.vx_steps.specs.Walk.{walk};
ghost use Rattle.vx_steps.specs.Answer.{answer_of};
ghost use Rattle.vx_steps.specs.Cause.{MatchError};
ghost use Rattle.vx_select.specs.Select.{IsAnswer};
ghost use Rattle.vx_select.specs.Chunks.{AreNoneOrAll, IsTold, asked_at, asked_by_walk, asked_for, chunk_rows, chunk_values};

use std::alloc::Global;
use vx_bits::{Buffer, NoMemory, Records};
use vx_chunked::filter_chunked_mask;
use vx_column::{Array, DType, Nullability, RecordType, Validity, record_column};
use vx_decoder::ChunkDecoder;
use vx_dispatch::take_validity;
use vx_mask::{Mask, Policy};
use vx_steps::{ChunkShape, SelectError, Step, compose, takes_nullability};
use vx_take::{Picks, needed, ranks_in};

// The record at a rank, and zeros at a null. It is a copy of a number of bytes that is known where
// this is compiled.
#[inline(always)]
fn record_at<const W: usize, const N: usize>(values: &[[u8; W]], rank: Option<usize>) -> [u8; N]
    requires same { N ≡ W }
    requires within { IfSome rank (λ k. k < length values.now) }
    ensures { result ≡ item_at (replicate W 0) values.now rank }
{
    let mut record = [0; N];
    if let Some(k) = rank {
        record.copy_from_slice(&values[k]);
    }
    record
}

// The records at the ranks, in order, and zeros at a null.
fn taken<const W: usize, const N: usize>(
    alloc: Global,
    values: &[[u8; W]],
    ranks: &Picks,
) -> Result<Buffer<[u8; N]>, NoMemory>
    requires same { N ≡ W }
    requires within { ranks.now.bound ≤ length values.now }
    ensures { IfOk result (λ b. b ≡ at (replicate W 0) values.now ranks.now.picks) }
{
    let mut records = Vec::with_capacity(alloc, ranks.len())?;
    for i in 0..ranks.len() {
        records.push_reserved(record_at(values, ranks.get(i)));
    }
    Buffer::from_vec(alloc, records)
}

// The records at the ranks, in order, and zeros at a null, as records of a width that is one of
// six.
fn taken_records<const W: usize>(
    alloc: Global,
    values: &[[u8; W]],
    ranks: &Picks,
) -> Result<Records, NoMemory>
    requires width { is_width W ≡ true }
    requires within { ranks.now.bound ≤ length values.now }
    ensures records { IfOk result
        (λ r. records_of r ≡ at (replicate W 0) values.now ranks.now.picks) }
    ensures width { IfOk result (λ r. width_of r ≡ W) }
{
    match W {
        1 => Ok(Records::W1(taken(alloc, values, ranks)?)),
        2 => Ok(Records::W2(taken(alloc, values, ranks)?)),
        4 => Ok(Records::W4(taken(alloc, values, ranks)?)),
        8 => Ok(Records::W8(taken(alloc, values, ranks)?)),
        16 => Ok(Records::W16(taken(alloc, values, ranks)?)),
        32 => Ok(Records::W32(taken(alloc, values, ranks)?)),
        _ => unreachable!(),
    }
}

// The column of these records, of this type and as nullable as the validity, which is unwrapped.
fn column_of(dtype: &DType, values: Records, validity: Validity) -> Array
    requires width { type_width (type_of dtype.now) ≡ Some (width_of values) }
    requires fitting { is_fitting (valid_of validity) (length (records_of values)) ≡ true }
    requires flat { is_flat_cover (cover_by (valid_of validity)) ≡ true }
    ensures rows { result.rows ≡ stored_rows (valid_of validity) (map bytes (records_of values)) }
    ensures dtype { result.dtype
        ≡ record (type_of dtype.now) { nullability = nullability_by (valid_of validity) } }
    ensures unwrapped { is_unwrapped result ≡ true }
{
    match RecordType::of(dtype) {
        Some(record_type) => record_column(record_type, values, validity),
        None => unreachable!(),
    }
}

// The records at the ranks among the values at the set positions of `mask`, and zeros at a null.
fn ranked_records<const W: usize, D: ChunkDecoder<[u8; W]>>(
    alloc: Global,
    decoder: &mut D,
    shape: &ChunkShape,
    mask: &Mask,
    ranks: &Picks,
    policy: &Policy,
) -> Result<Records, NoMemory>
    requires width { is_width W ≡ true }
    requires values { shape.now.offset + shape.now.len ≤ length (D.values decoder.old) }
    requires spare { chunks_touched shape.now.offset shape.now.len ≤ D.spare decoder.old }
    requires long { length (mask_bits mask.now) ≡ shape.now.len }
    requires ranks { ranks.now.bound ≡ true_count_of (mask_bits mask.now) }
    ensures records { IfOk result (λ r. records_of r ≡ at (replicate W 0) (items_where_true
        (mask_bits mask.now) (chunk_values shape.now (D.values decoder.old))) ranks.now.picks) }
    ensures width { IfOk result (λ r. width_of r ≡ W) }
    ensures told { IsTold result (D.calls decoder.old) (D.calls decoder.new)
        (asked_at shape.now (sparse_limit_of policy.now W) (mask_bits mask.now)) }
    ensures same { D.values decoder.new ≡ D.values decoder.old }
    ensures cost { D.spare decoder.old
        ≤ D.spare decoder.new + chunks_touched shape.now.offset shape.now.len }
{
    let kept = filter_chunked_mask(alloc, decoder, shape.offset(), mask, policy)?;
    taken_records(alloc, kept.as_slice(), ranks)
}

// The records at the picks of the column of this shape, and zeros at a null.
fn picked_records<const W: usize, D: ChunkDecoder<[u8; W]>>(
    alloc: Global,
    decoder: &mut D,
    shape: &ChunkShape,
    picks: &Picks,
    policy: &Policy,
) -> Result<Records, NoMemory>
    requires width { is_width W ≡ true }
    requires values { shape.now.offset + shape.now.len ≤ length (D.values decoder.old) }
    requires spare { chunks_touched shape.now.offset shape.now.len ≤ D.spare decoder.old }
    requires bound { picks.now.bound ≡ shape.now.len }
    ensures records { IfOk result (λ r. records_of r
        ≡ at (replicate W 0) (chunk_values shape.now (D.values decoder.old)) picks.now.picks) }
    ensures width { IfOk result (λ r. width_of r ≡ W) }
    ensures told { IsTold result (D.calls decoder.old) (D.calls decoder.new)
        (asked_for shape.now (sparse_limit_of policy.now W) picks.now.picks) }
    ensures same { D.values decoder.new ≡ D.values decoder.old }
    ensures cost { D.spare decoder.old
        ≤ D.spare decoder.new + chunks_touched shape.now.offset shape.now.len }
{
    let mask = needed(alloc, picks)?;
    let ranks = ranks_in(alloc, picks, &mask)?;
    ranked_records(alloc, decoder, shape, &mask, &ranks, policy)
}

// The rows at the picks of the column of this shape, null at a null, which there is only where
// `nullability` says so.
fn take_chunked<const W: usize, D: ChunkDecoder<[u8; W]>>(
    alloc: Global,
    decoder: &mut D,
    shape: &ChunkShape,
    picks: &Picks,
    nullability: Nullability,
    policy: &Policy,
) -> Result<Array, NoMemory>
    requires width { type_width shape.now.dtype ≡ Some W }
    requires values { shape.now.offset + shape.now.len ≤ length (D.values decoder.old) }
    requires spare { chunks_touched shape.now.offset shape.now.len ≤ D.spare decoder.old }
    requires bound { picks.now.bound ≡ shape.now.len }
    requires there { nullability ≡ NonNullable → AllThere picks.now.picks }
    ensures rows { IfOk result (λ a. a.rows
        ≡ at null (chunk_rows shape.now (D.values decoder.old)) picks.now.picks) }
    ensures dtype { IfOk result (λ a. a.dtype ≡ also_nullable shape.now.dtype nullability) }
    ensures unwrapped { IfOk result (λ a. is_unwrapped a ≡ true) }
    ensures told { IsTold result (D.calls decoder.old) (D.calls decoder.new)
        (asked_for shape.now (sparse_limit_of policy.now W) picks.now.picks) }
    ensures same { D.values decoder.new ≡ D.values decoder.old }
    ensures cost { D.spare decoder.old
        ≤ D.spare decoder.new + chunks_touched shape.now.offset shape.now.len }
{
    let validity = take_validity(alloc, shape.validity(), picks, nullability, policy)?;
    // records are of the type's width
    let _ = shape.width();
    let values = picked_records(alloc, decoder, shape, picks, policy)?;
    Ok(column_of(shape.dtype(), values, validity))
}

/// The rows that the steps pick of the column of this shape, whose values the decoder has: in
/// order, as a column of the shape's type, nullable also where a take's indices are, and
/// unwrapped.
///
/// Each chunk that has picked rows is asked for once, whether or not these are null: for the
/// picked values alone where they number at most the policy's sparse limit, else for all. No chunk
/// is asked for otherwise.
///
/// `Broken` exactly where a step breaks a rule, with the first one, even when memory runs out, and
/// without a call. `NoMemory` only where none does, without a call or after all of them.
pub fn select_chunked<const W: usize, D: ChunkDecoder<[u8; W]>>(
    alloc: Global,
    decoder: &mut D,
    shape: &ChunkShape,
    steps: &[Step],
    policy: &Policy,
) -> Result<Array, SelectError>
    requires width { type_width shape.now.dtype ≡ Some W }
    requires values { shape.now.offset + shape.now.len ≤ length (D.values decoder.old) }
    requires spare { chunks_touched shape.now.offset shape.now.len ≤ D.spare decoder.old }
    ensures answer { IsAnswer result (answer_of shape.now.dtype
        (chunk_rows shape.now (D.values decoder.old)) (map step_value steps.now)) }
    ensures unwrapped { IfOk result (λ a. is_unwrapped a ≡ true) }
    ensures told { OnOk result (D.calls decoder.new ≡ then_told (D.calls decoder.old)
        (asked_by_walk shape.now (sparse_limit_of policy.now W)
        (walk shape.now.len (map step_value steps.now)))) }
    ensures untold { IfErr result (λ e. MatchError e
        (λ k cause. D.calls decoder.new ≡ D.calls decoder.old)
        (AreNoneOrAll (D.calls decoder.old) (D.calls decoder.new)
        (asked_by_walk shape.now (sparse_limit_of policy.now W)
        (walk shape.now.len (map step_value steps.now))))) }
    ensures same { D.values decoder.new ≡ D.values decoder.old }
    ensures cost { D.spare decoder.old
        ≤ D.spare decoder.new + chunks_touched shape.now.offset shape.now.len }
{
    let picks = compose(alloc, shape.len(), steps)?;
    let nullability = takes_nullability(steps);
    Ok(take_chunked(alloc, decoder, shape, &picks, nullability, policy)?)
}
