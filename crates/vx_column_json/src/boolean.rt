//! Columns of layout `Bool`.
ghost use Rattle.std.specs.Prelude.{◌≤◌, IfOk};
ghost use Rattle.std.specs.Option.{option_map};
ghost use Rattle.serde_json.specs.View.{view, items_view};
ghost use Rattle.vx_column.specs.Validity.{valid_of};
ghost use Rattle.vx_json.specs.Meaning.{Gives};
ghost use Rattle.vx_column_json.specs.Boolean.{bools_made, offset_of, bools_by_items, bools_by_text, bool_array, bool_by};

use crate::made::made;
use crate::validity::{validity_alone, validity_beside};
use serde_json::Value;
use std::alloc::Global;
use vx_bits::BitBuffer;
use vx_column::{Array, BoolArray, Validity};
use vx_json::{DocError, at_most, bits_in, bools_or_nulls_of, if_closed, items_in, member};

/// The column of these bits, stored as they are. `Malformed` where the validity can't be theirs.
#[tactic(auto, unfolding(crate::specs::Made::made))]
fn bools_made(bits: BitBuffer, validity: Validity) -> Result<BoolArray, DocError>
    ensures { Gives (λ a. a) result (bools_made bits.bits bits.offset (valid_of validity)) }
{
    made(BoolArray::try_new(bits, validity))
}

#[tactic(auto, unfolding(crate::specs::Boolean::bools_by_items))]
fn bools_by_items(
    alloc: Global,
    stated: Option<Validity>,
    offset: usize,
    items: &Vec<Value>,
) -> Result<BoolArray, DocError>
    requires { offset ≤ 7 }
    ensures { Gives (λ a. a) result
        (bools_by_items (option_map valid_of stated) offset (items_view items.now.items)) }
{
    let validity = validity_beside(alloc, stated, items)?;
    let bits = bools_or_nulls_of(alloc, items, offset)?;
    bools_made(bits, validity)
}

#[tactic(auto, unfolding(crate::specs::Boolean::bools_by_text))]
fn bools_by_text(
    alloc: Global,
    stated: Option<Validity>,
    offset: usize,
    text: &str,
) -> Result<BoolArray, DocError>
    requires { offset ≤ 7 }
    ensures { Gives (λ a. a) result (bools_by_text (option_map valid_of stated) offset text.now) }
{
    let bits = bits_in(alloc, text.as_bytes(), offset)?;
    bools_made(bits, validity_alone(stated))
}

/// At which bit of a byte the first bit is to be stored.
#[tactic(auto, unfolding(crate::specs::Boolean::offset_of))]
fn offset_of(value: &Value) -> Result<usize, DocError>
    ensures value { Gives (λ n. n) result (offset_of (view value.now)) }
    ensures bound { IfOk result (λ n. n ≤ 7) }
{
    match value.get("offset") {
        Some(offset) => at_most(7, offset),
        None => Ok(0),
    }
}

/// What [`bool_by`] gives, as that layout: its bits are stored at the offset that is stated, of
/// which a column tells nothing.
#[tactic(auto, unfolding(crate::specs::Boolean::bool_array))]
pub(crate) fn bool_array(
    alloc: Global,
    value: &Value,
    stated: Option<Validity>,
) -> Result<BoolArray, DocError>
    ensures { Gives (λ a. a) result (bool_array (view value.now) (option_map valid_of stated)) }
{
    let object = if_closed(value, &["layout", "values", "validity", "offset"])?;
    let offset = offset_of(object)?;
    let values = member(object, "values")?;
    match values.as_str() {
        Some(text) => bools_by_text(alloc, stated, offset, text),
        None => bools_by_items(alloc, stated, offset, items_in(values)?),
    }
}

/// The column of layout `Bool` that the value means, by the validity that it states. `Malformed`
/// where an item is no bool or null, the offset is past 7, the validity can't be the column's, or
/// there is another member.
#[tactic(auto, unfolding(crate::specs::Boolean::bool_by))]
pub fn bool_by(alloc: Global, value: &Value, stated: Option<Validity>) -> Result<Array, DocError>
    ensures { Gives (λ c. c) result (bool_by (view value.now) (option_map valid_of stated)) }
{
    Ok(bool_array(alloc, value, stated)?.into_array())
}
