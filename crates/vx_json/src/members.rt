//! The members of an object, and what kind of value a member is.
ghost use Rattle.std.specs.Prelude.{◌≡◌, map, option_and_then};
ghost use Rattle.serde_json.specs.Find.{as_array, as_str, as_bool, get};
ghost use Rattle.serde_json.specs.View.{view, items_view, members_view};
ghost use Rattle.vx_json.specs.Meaning.{Gives, OnlyMalformed};
ghost use Rattle.vx_json.specs.Members.{is_among, are_among, is_closed, if_closed};

use crate::error::DocError;
use serde_json::{Map, Value};

/// The member of this name. `Malformed` where there is none, or the value is no object.
pub fn member<'v>(value: &'v Value, name: &str) -> Result<&'v Value, DocError>
    ensures value { Gives (λ v. view v.now) result (get name.now (view value.now)) }
    ensures malformed { OnlyMalformed result }
{
    match value.get(name) {
        Some(found) => Ok(found),
        None => Err(DocError::Malformed),
    }
}

/// The items of a list. `Malformed` where the value is none.
pub fn items_in(value: &Value) -> Result<&Vec<Value>, DocError>
    ensures value { Gives (λ v. items_view v.now.items) result (as_array (view value.now)) }
    ensures malformed { OnlyMalformed result }
{
    match value.as_array() {
        Some(items) => Ok(items),
        None => Err(DocError::Malformed),
    }
}

/// The text, as bytes of UTF-8. `Malformed` where the value is none.
pub fn text_in(value: &Value) -> Result<&str, DocError>
    ensures value { Gives (λ s. s.now) result (as_str (view value.now)) }
    ensures malformed { OnlyMalformed result }
{
    match value.as_str() {
        Some(text) => Ok(text),
        None => Err(DocError::Malformed),
    }
}

/// The items of the member of this name. `Malformed` where there is none, or it is no list.
pub fn list_member<'v>(value: &'v Value, name: &str) -> Result<&'v Vec<Value>, DocError>
    ensures value { Gives (λ v. items_view v.now.items) result
        (option_and_then as_array (get name.now (view value.now))) }
    ensures malformed { OnlyMalformed result }
{
    items_in(member(value, name)?)
}

/// The text of the member of this name. `Malformed` where there is none, or it is no text.
pub fn text_member<'v>(value: &'v Value, name: &str) -> Result<&'v str, DocError>
    ensures value { Gives (λ s. s.now) result
        (option_and_then as_str (get name.now (view value.now))) }
    ensures malformed { OnlyMalformed result }
{
    text_in(member(value, name)?)
}

/// `true` or `false`. `Malformed` where the value is neither.
pub fn bool_in(value: &Value) -> Result<bool, DocError>
    ensures value { Gives (λ b. b) result (as_bool (view value.now)) }
    ensures malformed { OnlyMalformed result }
{
    match value.as_bool() {
        Some(b) => Ok(b),
        None => Err(DocError::Malformed),
    }
}

/// Whether the name is one of these. It is inlined, so that over a literal list each comparison is
/// of constants.
#[inline(always)]
pub fn is_among(names: &[&str], name: &str) -> bool
    ensures { result ≡ is_among (map (λ n. n.now) names.now) name.now }
{
    for n in names {
        if name == *n {
            return true;
        }
    }
    false
}

/// Whether each member's name is one of these.
fn are_among(members: &Map<String, Value>, names: &[&str]) -> bool
    ensures { result ≡ are_among (map (λ n. n.now) names.now) (members_view members.now.entries) }
{
    for (name, _) in members {
        if !is_among(names, name.as_str()) {
            return false;
        }
    }
    true
}

/// Whether it is an object with no other members than these.
#[tactic(auto, unfolding(crate::specs::Members::is_closed))]
pub fn is_closed(value: &Value, names: &[&str]) -> bool
    ensures { result ≡ is_closed (map (λ n. n.now) names.now) (view value.now) }
{
    match value.as_object() {
        Some(members) => are_among(members, names),
        None => false,
    }
}

/// The value, where it is an object with no other members than these. `Malformed` where it is none.
#[tactic(auto, unfolding(crate::specs::Members::if_closed))]
pub fn if_closed<'v>(value: &'v Value, names: &[&str]) -> Result<&'v Value, DocError>
    ensures value { Gives (λ v. view v.now) result
        (if_closed (map (λ n. n.now) names.now) (view value.now)) }
    ensures malformed { OnlyMalformed result }
{
    if is_closed(value, names) {
        Ok(value)
    } else {
        Err(DocError::Malformed)
    }
}
