//! Integers in records, and those of them that aren't negative: offsets and sizes of views.
ghost use Rattle.std.specs.Prelude.{◌≡◌, ◌+◌, ◌-◌, ◌<◌, ◌≤◌, [], length, nat_le, pos, slice_index_or, true};
ghost use Rattle.vx_bits.specs.Records.{records_of, width_of};
ghost use Rattle.vx_types.specs.PType.{is_int, number, width};
ghost use Rattle.vx_offsets.specs.Offsets.{are_natural, are_views, is_natural, record_positions};

use vx_bits::Records;
use vx_types::PType;

/// One fewer than offsets, and none where there is no offset.
pub fn row_count(offsets: &Records) -> usize
    ensures { result ≡ length (records_of offsets.now) - 1 }
{
    offsets.len().saturating_sub(1)
}

/// Number `i` of records of an integer type.
pub fn integer_at(ptype: PType, values: &Records, i: usize) -> i128
    requires int { is_int ptype ≡ true }
    requires width { width_of values.now ≡ width ptype }
    requires row { i < length (records_of values.now) }
    ensures { result ≡ number ptype (slice_index_or (records_of values.now) i []) }
{
    ptype.number(values.record_bytes(i))
}

/// Number `i`, which isn't negative and isn't past `len`.
pub fn position_at(ptype: PType, values: &Records, i: usize, len: usize) -> usize
    requires int { is_int ptype ≡ true }
    requires width { width_of values.now ≡ width ptype }
    requires row { i < length (records_of values.now) }
    requires natural { pos (slice_index_or (record_positions ptype (records_of values.now)) i 0)
        ≡ number ptype (slice_index_or (records_of values.now) i []) }
    requires within { slice_index_or (record_positions ptype (records_of values.now)) i 0 ≤ len }
    ensures { result ≡ slice_index_or (record_positions ptype (records_of values.now)) i 0 }
{
    // Only the contract speaks of it.
    let _ = len;
    integer_at(ptype, values, i) as usize
}

// Whether number `i` isn't negative.
fn is_natural_at(ptype: PType, values: &Records, i: usize) -> bool
    requires int { is_int ptype ≡ true }
    requires width { width_of values.now ≡ width ptype }
    requires row { i < length (records_of values.now) }
    ensures { result ≡ is_natural
        (number ptype (slice_index_or (records_of values.now) i [])) }
{
    0 <= integer_at(ptype, values, i)
}

/// Whether no number is negative.
#[tactic(auto, using(crate::proofs::Naturals::naturals))]
pub fn are_natural(ptype: PType, values: &Records) -> bool
    requires int { is_int ptype ≡ true }
    requires width { width_of values.now ≡ width ptype }
    ensures { result ≡ are_natural ptype (records_of values.now) }
{
    let len = values.len();
    for i in 0..len {
        if !is_natural_at(ptype, values, i) {
            return false;
        }
    }
    true
}

// Whether as many items as size `i` are there from offset `i` on, of `len` in all.
fn is_within(
    offset_type: PType,
    offsets: &Records,
    size_type: PType,
    sizes: &Records,
    i: usize,
    len: usize,
) -> bool
    requires offset_int { is_int offset_type ≡ true }
    requires offset_width { width_of offsets.now ≡ width offset_type }
    requires size_int { is_int size_type ≡ true }
    requires size_width { width_of sizes.now ≡ width size_type }
    requires offsets { are_natural offset_type (records_of offsets.now) ≡ true }
    requires sizes { are_natural size_type (records_of sizes.now) ≡ true }
    requires offset { i < length (records_of offsets.now) }
    requires size { i < length (records_of sizes.now) }
    ensures { result ≡ nat_le
        (slice_index_or (record_positions offset_type (records_of offsets.now)) i 0
        + slice_index_or (record_positions size_type (records_of sizes.now)) i 0) len }
{
    integer_at(offset_type, offsets, i) <= len as i128 - integer_at(size_type, sizes, i)
}

/// Whether as many items as its size are there from each offset on, of `len` in all.
#[tactic(auto, using(crate::proofs::Naturals::views))]
pub fn are_views(
    offset_type: PType,
    offsets: &Records,
    size_type: PType,
    sizes: &Records,
    len: usize,
) -> bool
    requires offset_int { is_int offset_type ≡ true }
    requires offset_width { width_of offsets.now ≡ width offset_type }
    requires size_int { is_int size_type ≡ true }
    requires size_width { width_of sizes.now ≡ width size_type }
    requires offsets { are_natural offset_type (records_of offsets.now) ≡ true }
    requires sizes { are_natural size_type (records_of sizes.now) ≡ true }
    requires many { length (records_of offsets.now) ≡ length (records_of sizes.now) }
    ensures { result ≡ are_views (record_positions offset_type (records_of offsets.now))
        (record_positions size_type (records_of sizes.now)) len }
{
    let many = offsets.len();
    for i in 0..many {
        if !is_within(offset_type, offsets, size_type, sizes, i, len) {
            return false;
        }
    }
    true
}
