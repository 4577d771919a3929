//! The members of an object.

use crate::fits::fits;
use crate::kind::Kind;
use crate::look::{Look, Place};
use serde_json::Value;
use std::alloc::Global;
use vx_bits::NoMemory;
use vx_json::is_among;

/// A member: its name, what it must be, and whether the object must have it.
#[derive(Clone, Copy)]
pub(crate) struct Rule {
    name: &'static str,
    kind: Kind,
    is_needed: bool,
}

/// Returns the rule of a member that the object must have.
pub(crate) fn needed(name: &'static str, kind: Kind) -> Rule {
    Rule {
        name,
        kind,
        is_needed: true,
    }
}

/// Returns the rule of a member that the object may have.
pub(crate) fn optional(name: &'static str, kind: Kind) -> Rule {
    Rule {
        name,
        kind,
        is_needed: false,
    }
}

// Whether a rule is about a member of this name.
fn is_ruled(rules: &[Rule], name: &str) -> bool {
    for rule in rules {
        if rule.name == name {
            return true;
        }
    }
    false
}

// The first member that isn't one of these, of an object.
fn extra_in<'v>(value: &'v Value, rules: &[Rule], others: &[&str]) -> Option<&'v str> {
    let members = value.as_object()?;
    for (name, _) in members {
        if !is_ruled(rules, name.as_str()) && !is_among(others, name.as_str()) {
            return Some(name.as_str());
        }
    }
    None
}

// What comes of looking at one member.
fn look_at_member<'v>(
    alloc: Global,
    place: &mut Place,
    value: &'v Value,
    rule: Rule,
) -> Result<Option<Look<'v>>, NoMemory> {
    match value.get(rule.name) {
        Some(member) => {
            if fits(alloc, rule.kind, member)? {
                return Ok(None);
            }
            place.member(rule.name)?;
            Ok(Some(Look::Inside(rule.kind, member)))
        }
        None => Ok(if rule.is_needed {
            Some(Look::Missing(rule.name))
        } else {
            None
        }),
    }
}

/// Looks at an object of these members, beside which it may have others that were looked at.
pub(crate) fn look_at_members<'v>(
    alloc: Global,
    place: &mut Place,
    value: &'v Value,
    rules: &[Rule],
    others: &[&str],
) -> Result<Look<'v>, NoMemory> {
    if !value.is_object() {
        return Ok(Look::Expected("an object", value));
    }
    if let Some(name) = extra_in(value, rules, others) {
        return Ok(Look::Extra(String::from_str(alloc, name)?));
    }
    for rule in rules {
        if let Some(look) = look_at_member(alloc, place, value, *rule)? {
            return Ok(look);
        }
    }
    Ok(Look::Disagreeing)
}
