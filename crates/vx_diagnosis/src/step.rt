//! Steps, and what they have: masks, indices, ranges.

use crate::fits::fits;
use crate::kind::{Kind, name_of};
use crate::lists::look_at_items;
use crate::look::{Look, Place};
use crate::members::{Rule, look_at_members, needed};
use serde_json::Value;
use std::alloc::Global;
use vx_bits::NoMemory;
use vx_column::PType;
use vx_json::GREATEST_LEN;

// The member of a step that says what it does.
fn action_of(value: &Value) -> Option<(&'static str, Kind)> {
    if value.get("slice").is_some() {
        return Some(("slice", Kind::Pair));
    }
    if value.get("filter").is_some() {
        return Some(("filter", Kind::Mask));
    }
    if value.get("filter_by").is_some() {
        return Some(("filter_by", Kind::Column));
    }
    if value.get("take").is_some() {
        return Some(("take", Kind::Indices));
    }
    None
}

/// Looks at a step.
pub(crate) fn look_at_step<'v>(
    alloc: Global,
    place: &mut Place,
    value: &'v Value,
) -> Result<Look<'v>, NoMemory> {
    match action_of(value) {
        Some((name, kind)) => look_at_members(alloc, place, value, &[needed(name, kind)], &[]),
        None => Ok(Look::Expected("an object with slice, filter, filter_by or take", value)),
    }
}

// Whether a step's only member is of its kind.
fn is_step(alloc: Global, value: &Value) -> Result<bool, NoMemory> {
    let (Some((name, kind)), Some(members)) = (action_of(value), value.as_object()) else {
        return Ok(false);
    };
    match value.get(name) {
        Some(member) => Ok(members.len() == 1 && fits(alloc, kind, member)?),
        None => Ok(false),
    }
}

/// Looks at a list of steps.
pub(crate) fn look_at_steps<'v>(
    alloc: Global,
    place: &mut Place,
    value: &'v Value,
) -> Result<Look<'v>, NoMemory> {
    let Some(items) = value.as_array() else {
        return Ok(Look::Expected(name_of(Kind::Steps), value));
    };
    for (k, item) in items.iter().enumerate() {
        if !is_step(alloc, item)? {
            place.item(k)?;
            return Ok(Look::Inside(Kind::Step, item));
        }
    }
    Ok(Look::Disagreeing)
}

// What says which rows are set, in a mask that states its length.
fn marks_of(value: &Value) -> Option<Rule> {
    if value.get("set").is_some() {
        return Some(needed("set", Kind::Wholes));
    }
    if value.get("runs").is_some() {
        return Some(needed("runs", Kind::Pairs));
    }
    if value.get("every").is_some() {
        return Some(needed("every", Kind::Bool));
    }
    None
}

/// Looks at a mask.
pub(crate) fn look_at_mask<'v>(
    alloc: Global,
    place: &mut Place,
    value: &'v Value,
) -> Result<Look<'v>, NoMemory> {
    if value.is_string() {
        return Ok(Look::Expected(name_of(Kind::Digits), value));
    }
    if value.get("bits").is_some() {
        let rules = [
            needed("bits", Kind::Digits),
            needed("offset", Kind::Whole(7)),
        ];
        return look_at_members(alloc, place, value, &rules, &[]);
    }
    let Some(marks) = marks_of(value) else {
        return Ok(Look::Expected(
            "a string of 0 and 1, or an object with bits, set, runs or every",
            value,
        ));
    };
    let len = needed("len", Kind::Whole(GREATEST_LEN));
    look_at_members(alloc, place, value, &[len, marks], &[])
}

/// Looks at the indices of a take.
pub(crate) fn look_at_indices<'v>(
    alloc: Global,
    place: &mut Place,
    value: &'v Value,
) -> Result<Look<'v>, NoMemory> {
    if value.get("pieces").is_some() {
        return look_at_members(alloc, place, value, &[needed("pieces", Kind::Pieces)], &[]);
    }
    look_at_numbers(alloc, place, value, Kind::Indices, PType::I64)
}

/// Looks at a list of numbers, or a column of them.
pub(crate) fn look_at_numbers<'v>(
    alloc: Global,
    place: &mut Place,
    value: &'v Value,
    whole: Kind,
    ptype: PType,
) -> Result<Look<'v>, NoMemory> {
    match value {
        Value::Array(_) => look_at_items(alloc, place, value, whole, Kind::Value(ptype)),
        Value::Object(_) => Ok(Look::Inside(Kind::Column, value)),
        _ => Ok(Look::Expected(name_of(whole), value)),
    }
}

/// Looks at strided ranges.
pub(crate) fn look_at_pieces<'v>(
    alloc: Global,
    place: &mut Place,
    value: &'v Value,
) -> Result<Look<'v>, NoMemory> {
    let rules = [
        needed("len", Kind::Whole(GREATEST_LEN)),
        needed("starts", Kind::Numbers(PType::U64)),
        needed("lengths", Kind::Numbers(PType::U64)),
        needed("multipliers", Kind::Numbers(PType::U64)),
    ];
    look_at_members(alloc, place, value, &rules, &[])
}
