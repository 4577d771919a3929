//! Documents, and any value inside by its kind.

use crate::column::{look_at_chunks, look_at_column};
use crate::kind::{Kind, item_kind, name_of};
use crate::lists::look_at_items;
use crate::look::{Look, Place};
use crate::members::{look_at_members, needed, optional};
use crate::step::{
    look_at_indices, look_at_mask, look_at_numbers, look_at_pieces, look_at_step, look_at_steps,
};
use serde_json::Value;
use std::alloc::Global;
use vx_bits::NoMemory;

fn look_at_document<'v>(
    alloc: Global,
    place: &mut Place,
    value: &'v Value,
    source: &'static str,
    kind: Kind,
) -> Result<Look<'v>, NoMemory> {
    let rules = [
        optional("policy", Kind::Policy),
        needed("steps", Kind::Steps),
        needed(source, kind),
    ];
    look_at_members(alloc, place, value, &rules, &[])
}

// The member that has the rows of a document, and its kind.
fn source_of(value: &Value) -> (&'static str, Kind) {
    if value.get("chunks").is_some() && value.get("column").is_none() {
        ("chunks", Kind::Chunks)
    } else {
        ("column", Kind::Column)
    }
}

fn look_at_validity<'v>(
    alloc: Global,
    place: &mut Place,
    value: &'v Value,
) -> Result<Look<'v>, NoMemory> {
    match value {
        Value::Array(_) => look_at_items(alloc, place, value, Kind::Validity, Kind::Bool),
        Value::Object(_) => Ok(Look::Inside(Kind::Column, value)),
        _ => Ok(Look::Expected(name_of(Kind::Validity), value)),
    }
}

fn look_at_bools<'v>(
    alloc: Global,
    place: &mut Place,
    value: &'v Value,
) -> Result<Look<'v>, NoMemory> {
    match value {
        Value::Array(_) => look_at_items(alloc, place, value, Kind::Bools, Kind::Flag),
        Value::String(_) => Ok(Look::Expected(name_of(Kind::Digits), value)),
        _ => Ok(Look::Expected(name_of(Kind::Bools), value)),
    }
}

fn look_at_variant<'v>(
    alloc: Global,
    place: &mut Place,
    value: &'v Value,
) -> Result<Look<'v>, NoMemory> {
    let rules = [needed("id", Kind::Whole(255)), needed("name", Kind::Name)];
    look_at_members(alloc, place, value, &rules, &[])
}

// Looks at a policy, whose members are tested together.
fn look_at_policy<'v>(value: &'v Value) -> Look<'v> {
    match value {
        Value::Object(_) => Look::Disagreeing,
        _ => Look::Expected(name_of(Kind::Policy), value),
    }
}

// Looks at a list or at a value that has nothing inside.
fn look_at_other<'v>(
    alloc: Global,
    place: &mut Place,
    kind: Kind,
    value: &'v Value,
) -> Result<Look<'v>, NoMemory> {
    match item_kind(kind) {
        Some(item) => look_at_items(alloc, place, value, kind, item),
        None => Ok(Look::Expected(name_of(kind), value)),
    }
}

/// Looks at a value that is invalid and must be of a kind.
pub(crate) fn look_at<'v>(
    alloc: Global,
    place: &mut Place,
    kind: Kind,
    value: &'v Value,
) -> Result<Look<'v>, NoMemory> {
    match kind {
        Kind::Document => {
            let (name, source) = source_of(value);
            look_at_document(alloc, place, value, name, source)
        }
        Kind::File => look_at_document(alloc, place, value, "file", Kind::ByteLists),
        Kind::Column => look_at_column(alloc, place, value),
        Kind::Chunks => look_at_chunks(alloc, place, value),
        Kind::Steps => look_at_steps(alloc, place, value),
        Kind::Step => look_at_step(alloc, place, value),
        Kind::Mask => look_at_mask(alloc, place, value),
        Kind::Indices => look_at_indices(alloc, place, value),
        Kind::Pieces => look_at_pieces(alloc, place, value),
        Kind::Numbers(ptype) => look_at_numbers(alloc, place, value, kind, ptype),
        Kind::Validity => look_at_validity(alloc, place, value),
        Kind::Bools => look_at_bools(alloc, place, value),
        Kind::Variant => look_at_variant(alloc, place, value),
        Kind::Policy => Ok(look_at_policy(value)),
        _ => look_at_other(alloc, place, kind, value),
    }
}
