//! Masks.
ghost use Rattle.serde_json.specs.View.{view};
ghost use Rattle.vx_mask.specs.Mask.{mask_bits, partial_of};
ghost use Rattle.vx_json.specs.Meaning.{Gives};
ghost use Rattle.vx_json.specs.Masks.{mask_seen, mask_by_text, placed_mask, mask_by_set, mask_by_runs, mask_by_every, mask_by_members, mask_of, kept_of};

use crate::bit_text::bits_in;
use crate::error::DocError;
use crate::members::{bool_in, is_closed, list_member, member, text_member};
use crate::wholes::{GREATEST_LEN, number_member, pairs_in, wholes_in};
use serde_json::Value;
use std::alloc::Global;
use vx_mask::Mask;

#[tactic(auto, unfolding(crate::specs::Masks::mask_by_text))]
fn mask_by_text(alloc: Global, text: &str) -> Result<Mask, DocError>
    ensures { Gives mask_seen result (mask_by_text text.now) }
{
    Ok(Mask::from_buffer(bits_in(alloc, text.as_bytes(), 0)?))
}

#[tactic(auto, unfolding(crate::specs::Masks::placed_mask))]
fn placed_mask(alloc: Global, value: &Value) -> Result<Mask, DocError>
    ensures { Gives mask_seen result (placed_mask (view value.now)) }
{
    let text = text_member(value, "bits")?;
    let offset = number_member(7, value, "offset")?;
    Ok(Mask::from_buffer(bits_in(alloc, text.as_bytes(), offset)?))
}

#[tactic(auto, unfolding(crate::specs::Masks::mask_by_set))]
fn mask_by_set(alloc: Global, value: &Value) -> Result<Mask, DocError>
    ensures { Gives mask_seen result (mask_by_set (view value.now)) }
{
    let len = number_member(GREATEST_LEN, value, "len")?;
    let indices = wholes_in(alloc, list_member(value, "set")?)?;
    Ok(Mask::from_indices(alloc, len, indices)?)
}

#[tactic(auto, unfolding(crate::specs::Masks::mask_by_runs))]
fn mask_by_runs(alloc: Global, value: &Value) -> Result<Mask, DocError>
    ensures { Gives mask_seen result (mask_by_runs (view value.now)) }
{
    let len = number_member(GREATEST_LEN, value, "len")?;
    let runs = pairs_in(alloc, list_member(value, "runs")?)?;
    Ok(Mask::from_slices(alloc, len, runs)?)
}

#[tactic(auto, unfolding(crate::specs::Masks::mask_by_every))]
fn mask_by_every(value: &Value) -> Result<Mask, DocError>
    ensures { Gives mask_seen result (mask_by_every (view value.now)) }
{
    let len = number_member(GREATEST_LEN, value, "len")?;
    if bool_in(member(value, "every")?)? {
        Ok(Mask::AllTrue(len))
    } else {
        Ok(Mask::AllFalse(len))
    }
}

#[tactic(auto, unfolding(crate::specs::Masks::mask_by_members))]
fn mask_by_members(alloc: Global, value: &Value) -> Result<Mask, DocError>
    ensures { Gives mask_seen result (mask_by_members (view value.now)) }
{
    if is_closed(value, &["bits", "offset"]) {
        placed_mask(alloc, value)
    } else if is_closed(value, &["len", "set"]) {
        mask_by_set(alloc, value)
    } else if is_closed(value, &["len", "runs"]) {
        mask_by_runs(alloc, value)
    } else if is_closed(value, &["len", "every"]) {
        mask_by_every(value)
    } else {
        Err(DocError::Malformed)
    }
}

/// The mask that a value means, in any of its forms. `Malformed` exactly where it means none;
/// `NoMemory`. Where it selects some rows and not all, its bits are stored at the offset that is
/// stated, if one is, and it keeps the indices or the runs that are listed.
#[tactic(auto, unfolding(crate::specs::Masks::mask_of, crate::specs::Masks::kept_of, crate::specs::Masks::stated_mask))]
pub fn mask_of(alloc: Global, value: &Value) -> Result<Mask, DocError>
    ensures bits { Gives mask_bits result (mask_of (view value.now)) }
    ensures kept { Gives partial_of result (kept_of (view value.now)) }
{
    match value.as_str() {
        Some(text) => mask_by_text(alloc, text),
        None => mask_by_members(alloc, value),
    }
}
