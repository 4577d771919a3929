//! Columns of layout `ListView`.
ghost use Rattle.serde_json.specs.View.{view};
ghost use Rattle.vx_column.specs.Validity.{valid_of};
ghost use Rattle.vx_json.specs.Meaning.{Gives};
ghost use Rattle.vx_column_json.specs.ListView.{listview_made, listview_by_offsets, listview_array, listview_by};

use crate::made::refusal;
use crate::offsets::{offset_type_of, offsets_member};
use serde_json::Value;
use std::alloc::Global;
use vx_column::{Array, ListViewArray, PType, PrimitiveArray, Validity};
use vx_json::{DocError, is_closed};

/// The lists that each have so many of the elements from an offset on. `Malformed` where these
/// aren't there, or the validity can't be theirs.
fn listview_made(
    alloc: Global,
    elements: Array,
    offsets: PrimitiveArray,
    sizes: PrimitiveArray,
    validity: Validity,
) -> Result<ListViewArray, DocError>
    ensures { Gives (λ a. a) result
        (listview_made elements offsets sizes (valid_of validity)) }
{
    match ListViewArray::try_new(alloc, elements.into_ref(alloc)?, offsets, sizes, validity) {
        Ok(lists) => Ok(lists),
        Err(fault) => Err(refusal(fault)),
    }
}

#[tactic(auto, unfolding(crate::specs::ListView::listview_by_offsets))]
fn listview_by_offsets(
    alloc: Global,
    elements: Array,
    validity: Validity,
    value: &Value,
) -> Result<ListViewArray, DocError>
    ensures { Gives (λ a. a) result
        (listview_by_offsets elements (valid_of validity) (view value.now)) }
{
    let ptype = offset_type_of(PType::I64, value)?;
    let offsets = offsets_member(alloc, ptype, value, "offsets")?;
    let sizes = offsets_member(alloc, ptype, value, "sizes")?;
    listview_made(alloc, elements, offsets, sizes, validity)
}

/// The members that an object of this layout may have.
const MEMBERS: [&str; 6] = [
    "layout",
    "offsets",
    "sizes",
    "offset_type",
    "elements",
    "validity",
];

/// The list views that the value means, by the column that its member `elements` means and the
/// validity that it states: their offsets and sizes are of the type that is stated, which is `i64`
/// where none is, and of which a column tells nothing. `Malformed` where the elements aren't there,
/// the validity can't be theirs, or there is another member.
#[tactic(auto, unfolding(crate::specs::ListView::listview_array))]
pub(crate) fn listview_array(
    alloc: Global,
    value: &Value,
    elements: Array,
    validity: Validity,
) -> Result<ListViewArray, DocError>
    ensures { Gives (λ a. a) result
        (listview_array (view value.now) elements (valid_of validity)) }
{
    if is_closed(value, &MEMBERS) {
        listview_by_offsets(alloc, elements, validity, value)
    } else {
        Err(DocError::Malformed)
    }
}

/// The column of those list views.
#[tactic(auto, unfolding(crate::specs::ListView::listview_by))]
pub(crate) fn listview_by(
    alloc: Global,
    value: &Value,
    elements: Array,
    validity: Validity,
) -> Result<Array, DocError>
    ensures { Gives (λ c. c) result
        (listview_by (view value.now) elements (valid_of validity)) }
{
    Ok(listview_array(alloc, value, elements, validity)?.into_array())
}
