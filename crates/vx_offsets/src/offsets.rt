//! Numbers that cut a list into lists.
ghost use Rattle.std.specs.Prelude.{◌≡◌, ◌<◌, length, pos, slice_index_or, true};
ghost use Rattle.vx_bits.specs.Records.{records_of, width_of};
ghost use Rattle.vx_types.specs.PType.{is_int, width};
ghost use Rattle.vx_offsets.specs.Offsets.{are_offsets, record_numbers, IsNextOffset};

use vx_bits::Records;
use vx_positions::by_type;
use vx_types::PType;

// The offset that record `i` spells; none where it is below `low` or past `len`.
#[inline(always)]
#[tactic(auto, using(crate::proofs::Ascending::record_number))]
fn offset_after<const W: usize>(
    ptype: PType,
    records: &[[u8; W]],
    i: usize,
    low: usize,
    len: usize,
) -> Option<usize>
    requires int { is_int ptype ≡ true }
    requires width { W ≡ width ptype }
    requires row { i < length records.now }
    ensures { IsNextOffset (slice_index_or (record_numbers ptype records.now) i (pos 0)) low len
        result }
{
    let number = ptype.number(&records[i]);
    if number < low as i128 {
        return None;
    }
    if number > len as i128 {
        return None;
    }
    Some(number as usize)
}

#[inline(always)]
fn offsets_fit<const W: usize>(ptype: PType, records: &[[u8; W]], len: usize) -> bool
    requires int { is_int ptype ≡ true }
    requires width { W ≡ width ptype }
    ensures { result ≡ are_offsets (record_numbers ptype records.now) len }
{
    let mut low = 0;
    for i in 0..records.len() {
        match offset_after(ptype, records, i, low, len) {
            Some(offset) => low = offset,
            None => return false,
        }
    }
    !records.is_empty()
}

/// Whether the numbers cut a list of `len` items: there is one, and none is negative, below the one
/// before, or past `len`.
pub fn are_offsets(ptype: PType, values: &Records, len: usize) -> bool
    requires int { is_int ptype ≡ true }
    requires width { width_of values.now ≡ width ptype }
    ensures { result ≡ are_offsets (record_numbers ptype (records_of values.now)) len }
{
    by_type!(ptype, values, offsets_fit, len)
}
