//! Indices by pieces.
ghost use Rattle.std.specs.Prelude.{option_and_then};
ghost use Rattle.serde_json.specs.Find.{get};
ghost use Rattle.serde_json.specs.View.{view};
ghost use Rattle.vx_types.specs.declared.ptype.PType.TheVariants.{U64};
ghost use Rattle.vx_pieces.specs.Indices.{index_value};
ghost use Rattle.vx_json.specs.Meaning.{Gives};
ghost use Rattle.vx_document.specs.Numbers.{numbers_in};
ghost use Rattle.vx_document.specs.Pieces.{pieces_made, pieces_by_members, pieces_by};

use crate::numbers::numbers_in;
use serde_json::Value;
use std::alloc::Global;
use vx_column::{ArrayRef, PType};
use vx_json::{DocError, GREATEST_LEN, is_closed, member, number_member};
use vx_pieces::{Indices, PiecewiseSequence};

/// The pieces of these columns, sound or not. `Malformed` where they can make no sequence.
fn pieces_made(
    starts: ArrayRef,
    lengths: ArrayRef,
    multipliers: ArrayRef,
    len: usize,
) -> Result<Indices, DocError>
    ensures { Gives index_value result (pieces_made starts lengths multipliers len) }
{
    match PiecewiseSequence::try_new(starts, lengths, multipliers, len) {
        Ok(pieces) => Ok(Indices::Pieces(pieces)),
        Err(_) => Err(DocError::Malformed),
    }
}

/// The numbers that the member of this name means.
fn numbers_member(alloc: Global, value: &Value, name: &str) -> Result<ArrayRef, DocError>
    ensures { Gives (λ c. c) result
        (option_and_then (numbers_in U64) (get name.now (view value.now))) }
{
    let numbers = numbers_in(alloc, PType::U64, member(value, name)?)?;
    Ok(numbers.into_ref(alloc)?)
}

#[tactic(auto, unfolding(crate::specs::Pieces::pieces_by_members))]
fn pieces_by_members(alloc: Global, value: &Value) -> Result<Indices, DocError>
    ensures { Gives index_value result (pieces_by_members (view value.now)) }
{
    let len = number_member(GREATEST_LEN, value, "len")?;
    let starts = numbers_member(alloc, value, "starts")?;
    let lengths = numbers_member(alloc, value, "lengths")?;
    let multipliers = numbers_member(alloc, value, "multipliers")?;
    pieces_made(starts, lengths, multipliers, len)
}

/// The pieces that the value means: three lists of whole numbers, and the declared length.
#[tactic(auto, unfolding(crate::specs::Pieces::pieces_by))]
pub(crate) fn pieces_by(alloc: Global, value: &Value) -> Result<Indices, DocError>
    ensures { Gives index_value result (pieces_by (view value.now)) }
{
    if is_closed(value, &["starts", "lengths", "multipliers", "len"]) {
        pieces_by_members(alloc, value)
    } else {
        Err(DocError::Malformed)
    }
}
