//! The format strings with parameters.
ghost use Rattle.std.specs.Prelude.{◌≡◌, ◌++◌, length, take, drop, option_map};
ghost use Rattle.vx_arrow_formats.specs.Numbers.{fields_in, fields_left};
ghost use Rattle.vx_arrow_formats.specs.Parameters.{decimal_in, is_scale, is_time_zoned, sized_in, union_ids_in, union_in, width_in, width_of_bits, written_ids};

use crate::ids::{Ids, ids_of};
use crate::kind::Kind;
use crate::numbers::{first_field, number};

// How many bytes a decimal of so many bits has.
fn decimal_width(bits: u64) -> Option<u64>
    ensures { result ≡ width_in bits }
{
    match bits {
        32 => Some(4),
        64 => Some(8),
        128 => Some(16),
        256 => Some(32),
        _ => None,
    }
}

// A scale, which may be negative: whether a text is one.
fn is_scale(text: &[u8]) -> bool
    ensures { result ≡ is_scale text.now }
{
    if text.starts_with(b"-") {
        number(&text[1..]).is_some()
    } else {
        number(text).is_some()
    }
}

// How many bytes a decimal has, by what is behind its scale.
fn width_of_bits(bits: Option<&[u8]>) -> Option<u64>
    ensures { result ≡ width_of_bits (fields_left bits.entry) }
{
    let Some(text) = bits else {
        return Some(16);
    };
    let first = first_field(text);
    match first.rest {
        Some(_) => None,
        None => decimal_width(number(first.field)?),
    }
}

// The decimals of a precision, a scale and, if it is given, a number of bits.
fn decimal(text: &[u8]) -> Option<Kind>
    ensures { result ≡ decimal_in (fields_in text.now) }
{
    let precision = first_field(text);
    let scale = first_field(precision.rest?);
    if number(precision.field).is_none() {
        return None;
    }
    if !is_scale(scale.field) {
        return None;
    }
    let width = width_of_bits(scale.rest)?;
    Some(Kind::Fixed(width))
}

// Whether a text names timestamps, whose time zone is any text.
fn is_time_zoned(text: &[u8]) -> bool
    ensures { result ≡ is_time_zoned text.now }
{
    text.starts_with(b"tss:")
        || text.starts_with(b"tsm:")
        || text.starts_with(b"tsu:")
        || text.starts_with(b"tsn:")
}

// The ids that the format of a union lists.
fn union_ids(text: &[u8]) -> Option<Ids>
    ensures { option_map (λ r. take r.count r.ids) result ≡ union_ids_in text.now }
{
    if text.starts_with(b"+us:") || text.starts_with(b"+ud:") {
        ids_of(&text[4..])
    } else {
        None
    }
}

/// Writes the type ids that the format of a union lists to the front of `ids`, and returns how many
/// there are. Returns 0 and writes nothing where the text is no format of a union, or there is room
/// for fewer.
pub fn write_ids(text: &[u8], ids: &mut [u8]) -> usize
    ensures count { result ≡ length (written_ids text.now (length ids.old)) }
    ensures written { ids.new ≡ written_ids text.now (length ids.old) ++ drop result ids.old }
{
    let Some(found) = union_ids(text) else {
        return 0;
    };
    if found.count > ids.len() {
        return 0;
    }
    ids[..found.count].copy_from_slice(&found.ids[..found.count]);
    found.count
}

// The union that a text names.
fn union(text: &[u8]) -> Option<Kind>
    ensures { result ≡ union_in text.now }
{
    let ids = union_ids(text)?;
    if text.starts_with(b"+us:") {
        Some(Kind::SparseUnion(ids.count as u64))
    } else {
        Some(Kind::DenseUnion(ids.count as u64))
    }
}

/// The kind that a text with parameters names.
pub(crate) fn sized(text: &[u8]) -> Option<Kind>
    ensures { result ≡ sized_in text.now }
{
    if text.starts_with(b"w:") {
        return Some(Kind::Fixed(number(&text[2..])?));
    }
    if text.starts_with(b"+w:") {
        return Some(Kind::FixedList(number(&text[3..])?));
    }
    if text.starts_with(b"d:") {
        return decimal(&text[2..]);
    }
    if is_time_zoned(text) {
        return Some(Kind::Fixed(8));
    }
    union(text)
}
