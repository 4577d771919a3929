//! Policies.
ghost use Rattle.std.specs.Prelude.{◌≡◌, option_map, Some};
ghost use Rattle.serde_json.specs.View.{view, members_view};
ghost use Rattle.vx_mask.specs.Policy.{policy_fault, vortex_fields};
ghost use Rattle.vx_json.specs.Meaning.{Gives, OnlyMalformed, found_or, unless_fault};
ghost use Rattle.vx_document.specs.Policies.{ratio_of, with_ratio, with_size, with_number, with_member, with_members, policy_of};

use serde_json::{Map, Value};
use vx_json::{DocError, pair_of, whole_of};
use vx_mask::{Policy, PolicyFields, Ratio};

#[tactic(auto, unfolding(crate::specs::Policies::ratio_of))]
fn ratio_of(value: &Value) -> Result<Ratio, DocError>
    ensures value { Gives (λ r. r) result (ratio_of (view value.now)) }
    ensures malformed { OnlyMalformed result }
{
    let (num, den) = pair_of(value)?;
    Ok(Ratio {
        num: num as u64,
        den: den as u64,
    })
}

/// `with_field!(fields, name, value, a, b, _ => other)` is these fields with this value in the
/// place of that name, and `other` where the name is none of those listed.
macro_rules! with_field {
    ($fields:expr, $name:expr, $value:expr, $($field:ident,)+ _ => $other:expr) => {{
        let mut fields = $fields;
        match $name {
            $(stringify!($field) => fields.$field = $value,)+
            _ => return $other,
        }
        Some(fields)
    }};
}

/// These fields with this ratio in the place of that name.
#[tactic(auto, unfolding(crate::specs::Policies::with_ratio))]
fn with_ratio(f: PolicyFields, name: &str, ratio: Ratio) -> Option<PolicyFields>
    ensures { result ≡ with_ratio f name.now ratio }
{
    with_field!(
        f, name, ratio,
        dense_w1, dense_w2, dense_w4, dense_w8, dense_other,
        cached_indices_max, in_place_min, bool_sparse_below, reuse_two_max, reuse_more_max,
        text_indices_below, list_indices_below,
        _ => None
    )
}

/// These fields with this number in the place of that name, of lists and takes.
#[tactic(auto, unfolding(crate::specs::Policies::with_size))]
fn with_size(f: PolicyFields, name: &str, number: usize) -> Option<PolicyFields>
    ensures { result ≡ with_size f name.now number }
{
    with_field!(
        f, name, number,
        crop_min, crop_factor, cached_list_size, big_filtered_len, big_take_len, big_take_ratio,
        _ => None
    )
}

/// These fields with this number in the place of that name.
#[tactic(auto, unfolding(crate::specs::Policies::with_number))]
fn with_number(f: PolicyFields, name: &str, number: usize) -> Option<PolicyFields>
    ensures { result ≡ with_number f name.now number }
{
    with_field!(
        f, name, number,
        min_average_run, min_run_bytes,
        sparse_w1, sparse_w2, sparse_w4, sparse_other,
        rank_lookup_divisor, rank_lookup_cap,
        _ => with_size(f, name, number)
    )
}

/// These fields with what a member says: a list is a ratio, and all else a number.
#[tactic(auto, unfolding(crate::specs::Policies::with_member))]
fn with_member(f: PolicyFields, name: &str, value: &Value) -> Result<PolicyFields, DocError>
    ensures value { Gives (λ p. p) result (with_member f name.now (view value.now)) }
    ensures malformed { OnlyMalformed result }
{
    let changed = match value.as_array() {
        Some(_) => with_ratio(f, name, ratio_of(value)?),
        None => with_number(f, name, whole_of(value)?),
    };
    match changed {
        Some(fields) => Ok(fields),
        None => Err(DocError::Malformed),
    }
}

fn with_members(f: PolicyFields, members: &Map<String, Value>) -> Result<PolicyFields, DocError>
    ensures value { Gives (λ p. p) result (with_members f (members_view members.now.entries)) }
    ensures malformed { OnlyMalformed result }
{
    let mut fields = f;
    for (name, value) in members {
        fields = with_member(fields, name.as_str(), value)?;
    }
    Ok(fields)
}

/// The policy of these fields. `Malformed` where they make none.
fn policy_with(fields: PolicyFields) -> Result<Policy, DocError>
    ensures value { Gives (λ p. p) result (unless_fault (policy_fault fields) fields) }
    ensures malformed { OnlyMalformed result }
{
    match Policy::try_new(fields) {
        Ok(policy) => Ok(policy),
        Err(_) => Err(DocError::Malformed),
    }
}

#[tactic(auto, unfolding(crate::specs::Policies::policy_by_members, crate::specs::Policies::policy_of))]
fn policy_of(value: &Value) -> Result<Policy, DocError>
    ensures value { Gives (λ p. p) result (policy_of (view value.now)) }
    ensures malformed { OnlyMalformed result }
{
    match value.as_str() {
        Some("vortex") => Ok(Policy::vortex()),
        Some(_) => Err(DocError::Malformed),
        None => match value.as_object() {
            Some(members) => policy_with(with_members(*Policy::vortex().fields(), members)?),
            None => Err(DocError::Malformed),
        },
    }
}

/// The policy that a value means: `"vortex"`, or an object of some of its fields over the usual
/// ones; the usual one where there is no value. `Malformed` where the value means none.
pub fn policy_found(found: Option<&Value>) -> Result<Policy, DocError>
    ensures value { Gives (λ p. p) result
        (found_or vortex_fields policy_of (option_map (λ v. view v.now) found.entry)) }
    ensures malformed { OnlyMalformed result }
{
    match found {
        Some(value) => policy_of(value),
        None => Ok(Policy::vortex()),
    }
}
