//! Why parts are no union, and what a row's id and offset name.
ghost use Rattle.std.specs.Prelude.{◌≡◌, ◌<◌, length, pos, None, slice_index_or, true};
ghost use Rattle.std.specs.List.{list_all};
ghost use Rattle.vx_types.specs.Nullability.{is_nullable};
ghost use Rattle.vx_types.specs.TypeTree.{are_carried, is_int_kind, types_of};
ghost use Rattle.vx_positions.specs.Positions.{is_position, positions_of};
ghost use Rattle.vx_model.specs.Numbers.{integers_of, numbers_of};
ghost use Rattle.vx_model.specs.Union.{are_places, are_union_types, has_row, have_rows, is_known, is_union_long, place_at, union_fault, IsPlace};
ghost use Rattle.vx_types.specs.Variants.{is_id_type};
ghost use Rattle.vx_column.specs.UnionParts.{union_parts};

use crate::array::{Array, ArrayRef};
use crate::cell::Cell;
use crate::columns::Columns;
use crate::offsets::{are_integers, integer_at};
use crate::primitive::PrimitiveArray;
use crate::struct_::{are_long, are_of_types};
use vx_positions::{is_position, position};
use vx_types::{ColumnError, UnionVariants, is_id_type, variant_of};

/// The id of row `i`; none where it is null.
#[cycle(cell)]
#[tactic(auto, using(crate::proofs::Tags::tags))]
pub(crate) fn tag_at(type_ids: &Array, i: usize) -> Option<u8>
    requires ids { is_id_type type_ids.now.dtype ≡ true }
    requires row { i < length type_ids.now.rows }
    ensures value { result ≡ slice_index_or (positions_of (numbers_of type_ids.now)) i None }
    ensures nullable { result ≡ None → is_nullable type_ids.now.dtype.nullability ≡ true }
{
    match type_ids.cell_at(i) {
        Cell::Null => None,
        Cell::Bytes(bytes) => Some(bytes[0]),
        Cell::Bit(_) | Cell::List(_) | Cell::Fields(_) | Cell::Tagged(_) => unreachable!(),
    }
}

// Whether offset `i` is a place of a column of `len` rows.
#[tactic(auto, using(crate::proofs::Naturals::naturals))]
fn is_place(offsets: &PrimitiveArray, i: usize, len: usize) -> bool
    requires int { is_int_kind offsets.now.kind ≡ true }
    requires row { i < length offsets.now.records }
    ensures { result ≡ is_position len (slice_index_or (integers_of offsets.now) i (pos 0)) }
{
    is_position(integer_at(offsets, i), len)
}

// Whether offset `i` is a place of the column of the variant of this id, where there is one.
#[tactic(auto, using(crate::proofs::Tags::places))]
fn has_row(
    ids: &[u8],
    children: &[ArrayRef],
    tag: Option<u8>,
    offsets: &PrimitiveArray,
    i: usize,
) -> bool
    requires many { length ids.now ≡ length children.now }
    requires int { is_int_kind offsets.now.kind ≡ true }
    requires row { i < length offsets.now.records }
    ensures { result ≡ has_row ids.now children.now tag
        (slice_index_or (integers_of offsets.now) i (pos 0)) }
{
    let Some(id) = tag else {
        return true;
    };
    match variant_of(ids, id) {
        Some(k) => is_place(offsets, i, children[k].len()),
        None => true,
    }
}

/// The place of row `i` in its variant's column, of `len` rows.
pub(crate) fn place_at(offsets: &Option<PrimitiveArray>, i: usize, len: usize) -> usize
    requires places { are_places offsets.now ≡ true }
    requires within { IsPlace offsets.now i len }
    ensures { result ≡ place_at offsets.now i }
{
    match offsets {
        Some(offsets) => position(integer_at(offsets, i), len),
        None => i,
    }
}

// Whether each row's offset is a place of its variant's column.
#[tactic(auto, using(crate::proofs::Tags::places))]
fn have_rows(ids: &[u8], children: &[ArrayRef], type_ids: &Array, offsets: &PrimitiveArray) -> bool
    requires many { length ids.now ≡ length children.now }
    requires ids { is_id_type type_ids.now.dtype ≡ true }
    requires int { is_int_kind offsets.now.kind ≡ true }
    requires long { length offsets.now.records ≡ length type_ids.now.rows }
    ensures { result ≡ have_rows ids.now children.now
        (positions_of (numbers_of type_ids.now)) (integers_of offsets.now) }
{
    for i in 0..type_ids.len() {
        if !has_row(ids, children, tag_at(type_ids, i), offsets, i) {
            return false;
        }
    }
    true
}

// Whether it is null or the id of a variant.
#[tactic(auto, using(crate::proofs::Tags::places))]
fn is_known(ids: &[u8], tag: Option<u8>) -> bool
    ensures { result ≡ is_known ids.now tag }
{
    match tag {
        Some(id) => variant_of(ids, id).is_some(),
        None => true,
    }
}

// Whether each id that isn't null is a variant's.
#[tactic(auto, using(crate::proofs::Tags::places))]
fn are_known(ids: &[u8], type_ids: &Array) -> bool
    requires { is_id_type type_ids.now.dtype ≡ true }
    ensures { result ≡ list_all (is_known ids.now) (positions_of (numbers_of type_ids.now)) }
{
    for i in 0..type_ids.len() {
        if !is_known(ids, tag_at(type_ids, i)) {
            return false;
        }
    }
    true
}

// Whether the types are those of a union's parts.
fn are_union_types(
    type_ids: &Array,
    offsets: &Option<PrimitiveArray>,
    variants: &UnionVariants,
    children: &Columns,
) -> bool
    ensures same { result ≡ are_union_types
        (union_parts type_ids.now offsets.now variants.now children.now) }
    ensures carried { result ≡ true → are_carried (types_of variants.now.types) ≡ true }
{
    if !is_id_type(type_ids.dtype()) {
        return false;
    }
    if let Some(offsets) = offsets {
        if !are_integers(offsets) {
            return false;
        }
    }
    are_of_types(children.as_slice(), variants.types())
}

// Whether there is an offset for each row, or each column has as many rows.
fn is_union_long(offsets: &Option<PrimitiveArray>, children: &Columns, len: usize) -> bool
    ensures { result ≡ is_union_long offsets.now children.now len }
{
    match offsets {
        Some(offsets) => offsets.values().len() == len,
        None => are_long(children.as_slice(), len),
    }
}

/// Why the parts are no column, the first that holds.
pub(crate) fn fault_of(
    type_ids: &Array,
    offsets: &Option<PrimitiveArray>,
    variants: &UnionVariants,
    children: &Columns,
) -> Option<ColumnError>
    ensures fault { result ≡ union_fault
        (union_parts type_ids.now offsets.now variants.now children.now) }
    ensures carried { result ≡ None → are_carried (types_of variants.now.types) ≡ true }
{
    if !are_union_types(type_ids, offsets, variants, children) {
        return Some(ColumnError::WrongType);
    }
    if !is_union_long(offsets, children, type_ids.len()) {
        return Some(ColumnError::WrongLength);
    }
    if let Some(offsets) = offsets {
        if !have_rows(variants.ids(), children.as_slice(), type_ids, offsets) {
            return Some(ColumnError::BadOffsets);
        }
    }
    if !are_known(variants.ids(), type_ids) {
        return Some(ColumnError::BadTypeId);
    }
    None
}
