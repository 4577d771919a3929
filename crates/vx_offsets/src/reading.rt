//! Reading offsets whose type is known.
ghost use Rattle.std.specs.Prelude.{◌≡◌, ◌+◌, ◌<◌, ◌≤◌, length, slice_index, true};
ghost use Rattle.vx_types.specs.PType.{is_int, width};
ghost use Rattle.vx_offsets.specs.Offsets.{are_offsets, offset_positions, record_numbers};

use vx_types::PType;

/// Offset `i` of records of an integer type that cut a list of `len` items.
#[inline(always)]
#[tactic(auto, using(crate::proofs::ReadOffsets::read_offset))]
pub fn offset_at<const W: usize>(ptype: PType, records: &[[u8; W]], i: usize, len: usize) -> usize
    requires int { is_int ptype ≡ true }
    requires width { W ≡ width ptype }
    requires offsets { are_offsets (record_numbers ptype records.now) len ≡ true }
    requires row { i < length records.now }
    ensures value { result
        ≡ slice_index (offset_positions (record_numbers ptype records.now)) i }
    ensures within { result ≤ len }
{
    // Only the contract speaks of it.
    let _ = len;
    let number = ptype.number(&records[i]);
    number as usize
}

/// Where row `i` begins and ends among `len` items.
#[inline(always)]
pub fn span_at<const W: usize>(
    ptype: PType,
    records: &[[u8; W]],
    i: usize,
    len: usize,
) -> (usize, usize)
    requires int { is_int ptype ≡ true }
    requires width { W ≡ width ptype }
    requires offsets { are_offsets (record_numbers ptype records.now) len ≡ true }
    requires row { i + 1 < length records.now }
    ensures start { result.0 ≡ slice_index (offset_positions (record_numbers ptype records.now)) i }
    ensures end { result.1
        ≡ slice_index (offset_positions (record_numbers ptype records.now)) (i + 1) }
    ensures ordered { result.0 ≤ result.1 }
    ensures within { result.1 ≤ len }
{
    let start = offset_at(ptype, records, i, len);
    let end = offset_at(ptype, records, i + 1, len);
    (start, end)
}
