//! Whether a value is of a kind.

use crate::kind::{Kind, item_kind};
use serde_json::Value;
use std::alloc::Global;
use vx_bits::NoMemory;
use vx_column::PType;
use vx_document::{column_of, indices_of, policy_found, steps_of};
use vx_json::{
    DocError, at_most, bits_in, bytes_of, hex_value_of, is_closed, mask_of, number_member, pair_of,
    ptype_named, text_kind_named, text_member, text_of, value_of, views_in,
};

// Whether a reader read a value. Out of memory where it is.
fn is_read<T: Drop>(read: Result<T, DocError>) -> Result<bool, NoMemory> {
    match read {
        Ok(_) => Ok(true),
        Err(DocError::Malformed) => Ok(false),
        Err(DocError::NoMemory) => Err(NoMemory),
    }
}

// Whether it is a hexadecimal string of so many bytes, or null.
fn is_record(alloc: Global, width: usize, value: &Value) -> Result<bool, NoMemory> {
    match width {
        1 => is_read(hex_value_of(alloc, 1, value)),
        2 => is_read(hex_value_of(alloc, 2, value)),
        4 => is_read(hex_value_of(alloc, 4, value)),
        8 => is_read(hex_value_of(alloc, 8, value)),
        16 => is_read(hex_value_of(alloc, 16, value)),
        32 => is_read(hex_value_of(alloc, 32, value)),
        _ => Ok(false),
    }
}

// Whether it is a string of the digits 0 and 1.
fn are_digits(alloc: Global, value: &Value) -> Result<bool, NoMemory> {
    match value.as_str() {
        Some(text) => is_read(bits_in(alloc, text.as_bytes(), 0)),
        None => Ok(false),
    }
}

// Whether it is the name of a number type.
fn is_number_type(value: &Value) -> bool {
    match value.as_str() {
        Some(text) => ptype_named(text).is_ok(),
        None => false,
    }
}

// Whether it is the name of a type of strings.
fn is_text_type(value: &Value) -> bool {
    match value.as_str() {
        Some(text) => text_kind_named(text).is_ok(),
        None => false,
    }
}

// Whether a name is one of a validity.
fn is_validity_name(text: &str) -> bool {
    match text {
        "NonNullable" | "AllValid" | "AllInvalid" => true,
        _ => false,
    }
}

// Whether it is a variant of a union.
fn is_variant(value: &Value) -> bool {
    is_closed(value, &["id", "name"])
        && number_member(255, value, "id").is_ok()
        && text_member(value, "name").is_ok()
}

/// Whether a value that has no list of other kinds is of its kind.
pub(crate) fn fits_alone(alloc: Global, kind: Kind, value: &Value) -> Result<bool, NoMemory> {
    match kind {
        Kind::Value(ptype) => is_read(value_of(alloc, ptype, value)),
        Kind::Record(width) => is_record(alloc, width, value),
        Kind::Text(text) => is_read(text_of(alloc, text, value)),
        Kind::Whole(bound) => Ok(at_most(bound, value).is_ok()),
        Kind::Pair => Ok(pair_of(value).is_ok()),
        Kind::Name => Ok(value.is_string()),
        Kind::Bytes => is_read(bytes_of(alloc, value)),
        Kind::Digits => are_digits(alloc, value),
        Kind::Bool => Ok(value.is_boolean()),
        Kind::Flag => Ok(value.is_boolean() || value.is_null()),
        Kind::Variant => Ok(is_variant(value)),
        Kind::NumberType => Ok(is_number_type(value)),
        Kind::TextType => Ok(is_text_type(value)),
        Kind::Number => Ok(value.is_number()),
        Kind::Any => Ok(true),
        Kind::Column => is_read(column_of(alloc, value)),
        Kind::Mask => is_read(mask_of(alloc, value)),
        Kind::Indices => is_read(indices_of(alloc, value)),
        Kind::Policy => Ok(policy_found(Some(value)).is_ok()),
        Kind::Steps => is_read(steps_of(alloc, value)),
        _ => Ok(false),
    }
}

// Whether each item is of a kind.
fn all_fit(alloc: Global, kind: Kind, items: &Vec<Value>) -> Result<bool, NoMemory> {
    for item in items {
        if !fits_alone(alloc, kind, item)? {
            return Ok(false);
        }
    }
    Ok(true)
}

// Whether it is a list of items of a kind.
fn is_list_of(alloc: Global, kind: Kind, value: &Value) -> Result<bool, NoMemory> {
    match value.as_array() {
        Some(items) => all_fit(alloc, kind, items),
        None => Ok(false),
    }
}

// Whether it says which rows are valid.
fn is_validity(alloc: Global, value: &Value) -> Result<bool, NoMemory> {
    match value {
        Value::String(text) => Ok(is_validity_name(text.as_str())),
        Value::Array(items) => all_fit(alloc, Kind::Bool, items),
        _ => is_read(column_of(alloc, value)),
    }
}

// Whether it is a list of numbers of a type and nulls, or a column.
fn are_numbers(alloc: Global, ptype: PType, value: &Value) -> Result<bool, NoMemory> {
    match value.as_array() {
        Some(items) => all_fit(alloc, Kind::Value(ptype), items),
        None => is_read(column_of(alloc, value)),
    }
}

// Whether it is a list of views.
fn are_views(alloc: Global, value: &Value) -> Result<bool, NoMemory> {
    match value.as_array() {
        Some(items) => is_read(views_in(alloc, items)),
        None => Ok(false),
    }
}

/// Whether a value is of its kind. A document, chunks, a step and ranges never are: what is wrong
/// of them is looked for inside.
pub(crate) fn fits(alloc: Global, kind: Kind, value: &Value) -> Result<bool, NoMemory> {
    match kind {
        Kind::Validity => is_validity(alloc, value),
        Kind::Numbers(ptype) => are_numbers(alloc, ptype, value),
        Kind::Views => are_views(alloc, value),
        Kind::Bools => match value.as_array() {
            Some(items) => all_fit(alloc, Kind::Flag, items),
            None => are_digits(alloc, value),
        },
        _ => match item_kind(kind) {
            Some(item) => is_list_of(alloc, item, value),
            None => fits_alone(alloc, kind, value),
        },
    }
}
