//! Columns of layout `List`.
ghost use Rattle.serde_json.specs.View.{view};
ghost use Rattle.vx_column.specs.Validity.{valid_of};
ghost use Rattle.vx_json.specs.Meaning.{Gives};
ghost use Rattle.vx_column_json.specs.List.{list_made, list_array, list_by};

use crate::made::refusal;
use crate::offsets::{offset_type_of, offsets_member};
use serde_json::Value;
use std::alloc::Global;
use vx_column::{Array, ListArray, PType, PrimitiveArray, Validity};
use vx_json::{DocError, is_closed};

/// The lists that these offsets cut the elements into. `Malformed` where they can't,
/// or the validity can't be its.
fn list_made(
    alloc: Global,
    elements: Array,
    offsets: PrimitiveArray,
    validity: Validity,
) -> Result<ListArray, DocError>
    ensures { Gives (λ a. a) result (list_made elements offsets (valid_of validity)) }
{
    match ListArray::try_new(alloc, elements.into_ref(alloc)?, offsets, validity) {
        Ok(lists) => Ok(lists),
        Err(fault) => Err(refusal(fault)),
    }
}

/// The members that an object of this layout may have.
const MEMBERS: [&str; 5] = ["layout", "offsets", "offset_type", "elements", "validity"];

/// The lists that the value means, by the column that its member `elements` means and the validity
/// that it states: their offsets are of the type that is stated, which is `i64` where none is, and
/// of which a column tells nothing. `Malformed` where the offsets can't cut the elements, the
/// validity can't be theirs, or there is another member.
#[tactic(auto, unfolding(crate::specs::List::list_array, crate::specs::List::list_by_offsets))]
pub(crate) fn list_array(
    alloc: Global,
    value: &Value,
    elements: Array,
    validity: Validity,
) -> Result<ListArray, DocError>
    ensures { Gives (λ a. a) result (list_array (view value.now) elements (valid_of validity)) }
{
    if !is_closed(value, &MEMBERS) {
        return Err(DocError::Malformed);
    }
    let ptype = offset_type_of(PType::I64, value)?;
    let offsets = offsets_member(alloc, ptype, value, "offsets")?;
    list_made(alloc, elements, offsets, validity)
}

/// The column of those lists.
#[tactic(auto, unfolding(crate::specs::List::list_by))]
pub(crate) fn list_by(
    alloc: Global,
    value: &Value,
    elements: Array,
    validity: Validity,
) -> Result<Array, DocError>
    ensures { Gives (λ c. c) result (list_by (view value.now) elements (valid_of validity)) }
{
    Ok(list_array(alloc, value, elements, validity)?.into_array())
}
