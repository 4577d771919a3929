//! Offsets and sizes: columns of integers that have no null.
ghost use Rattle.std.specs.Prelude.{◌≡◌, ◌+◌, ◌<◌, ◌≤◌, [], length, pos, slice_index_or, slice_range, true};
ghost use Rattle.std.specs.List.{list_all};
ghost use Rattle.vx_bits.specs.Records.{records_of, width_of};
ghost use Rattle.vx_types.specs.PType.{width};
ghost use Rattle.vx_types.specs.TypeTree.{is_int_kind, primitive_kind};
ghost use Rattle.vx_offsets.specs.Offsets.{are_offsets, are_views, is_natural, offset_positions};
ghost use Rattle.vx_model.specs.Numbers.{integer_by, integers_of};
ghost use Rattle.vx_model.specs.Records.{records_with};
ghost use Rattle.vx_model.specs.Valid.{non_nullable};
ghost use Rattle.vx_model.specs.VarBin.{are_integers, row_count};
ghost use Rattle.vx_column.specs.Naturals.{are_naturals};

use crate::primitive::PrimitiveArray;
use crate::records::RecordArray;
use crate::validity::Validity;
use vx_bits::Records;
use vx_types::{PType, RecordType};

/// Whether it is a column of integers that has no null.
pub(crate) fn are_integers(offsets: &PrimitiveArray) -> bool
    ensures { result ≡ are_integers offsets.now }
{
    match offsets.validity() {
        Validity::NonNullable => offsets.ptype().is_int(),
        _ => false,
    }
}

/// One fewer than offsets, and none where there is no offset.
pub(crate) fn row_count(offsets: &PrimitiveArray) -> usize
    ensures { result ≡ row_count offsets.now }
{
    vx_offsets::row_count(offsets.values())
}

/// Whether the numbers cut a list of so many bytes.
pub(crate) fn cuts_list(offsets: &PrimitiveArray, len: usize) -> bool
    requires { are_integers offsets.now ≡ true }
    ensures { result ≡ are_offsets (integers_of offsets.now) len }
{
    vx_offsets::are_offsets(offsets.ptype(), offsets.values(), len)
}

/// Number `i`.
pub(crate) fn integer_at(offsets: &PrimitiveArray, i: usize) -> i128
    requires int { is_int_kind offsets.now.kind ≡ true }
    requires row { i < length offsets.now.records }
    ensures { result ≡ integer_by offsets.now.kind (slice_index_or offsets.now.records i []) }
{
    vx_offsets::integer_at(offsets.ptype(), offsets.values(), i)
}

/// Number `i`, which isn't negative and isn't past `len`.
pub(crate) fn position_at(numbers: &PrimitiveArray, i: usize, len: usize) -> usize
    requires int { is_int_kind numbers.now.kind ≡ true }
    requires row { i < length numbers.now.records }
    requires natural { pos (slice_index_or (offset_positions (integers_of numbers.now)) i 0)
        ≡ integer_by numbers.now.kind (slice_index_or numbers.now.records i []) }
    requires within { slice_index_or (offset_positions (integers_of numbers.now)) i 0 ≤ len }
    ensures { result ≡ slice_index_or (offset_positions (integers_of numbers.now)) i 0 }
{
    vx_offsets::position_at(numbers.ptype(), numbers.values(), i, len)
}

/// Whether no number is negative.
pub(crate) fn are_natural(numbers: &PrimitiveArray) -> bool
    requires { are_integers numbers.now ≡ true }
    ensures { result ≡ list_all is_natural (integers_of numbers.now) }
{
    vx_offsets::are_natural(numbers.ptype(), numbers.values())
}

/// Whether as many items as its size are there from each offset on, of `len` in all.
pub(crate) fn are_views(offsets: &PrimitiveArray, sizes: &PrimitiveArray, len: usize) -> bool
    requires offsets { are_naturals offsets.now ≡ true }
    requires sizes { are_naturals sizes.now ≡ true }
    requires many { length offsets.now.records ≡ length sizes.now.records }
    ensures { result ≡ are_views (offset_positions (integers_of offsets.now))
        (offset_positions (integers_of sizes.now)) len }
{
    vx_offsets::are_views(
        offsets.ptype(),
        offsets.values(),
        sizes.ptype(),
        sizes.values(),
        len,
    )
}

/// The column of these records, none of them null.
#[tactic(auto, using(vx_model::proofs::Layouts::layout_rows))]
pub fn number_column(ptype: PType, values: Records) -> PrimitiveArray
    requires { width_of values ≡ width ptype }
    ensures { result ≡ record {
      kind = primitive_kind ptype;
      width = width_of values;
      records = records_of values;
      valid = non_nullable;
    } }
{
    let rows = RecordArray::of(RecordType::Primitive(ptype), values, Validity::NonNullable);
    PrimitiveArray::of(rows)
}

/// The offsets from `start` up to `end`, and the one at `end`.
#[tactic(auto, using(vx_model::proofs::Layouts::layout_rows))]
pub fn slice_offsets(offsets: &PrimitiveArray, start: usize, end: usize) -> PrimitiveArray
    requires ordered { start ≤ end }
    requires within { end < length offsets.now.records }
    ensures { result ≡ records_with offsets.now
        (slice_range offsets.now.records start (end + 1)) non_nullable }
{
    let values = offsets.values();
    // one more than `end` is at most their number
    let _ = values.len();
    number_column(offsets.ptype(), values.slice(start, end + 1))
}
