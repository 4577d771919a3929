//! Columns of layout `FixedSizeList`.
ghost use Rattle.serde_json.specs.View.{view};
ghost use Rattle.vx_column.specs.Validity.{valid_of};
ghost use Rattle.vx_json.specs.Meaning.{Gives};
ghost use Rattle.vx_column_json.specs.FixedSizeList.{fixed_made, fixed_by};

use crate::made::refusal;
use serde_json::Value;
use std::alloc::Global;
use vx_column::{Array, FixedSizeListArray, Validity};
use vx_json::{DocError, GREATEST_LEN, if_closed, number_member};

/// The greatest number of elements that each row may have.
const GREATEST_SIZE: usize = 4_294_967_295;

/// The column of `len` lists that each have `size` of the elements. `Malformed` where the elements
/// are fewer or more, or the validity can't be its.
fn fixed_made(
    alloc: Global,
    elements: Array,
    size: u32,
    len: usize,
    validity: Validity,
) -> Result<Array, DocError>
    ensures { Gives (λ c. c) result (fixed_made elements size len (valid_of validity)) }
{
    match FixedSizeListArray::try_new(alloc, elements.into_ref(alloc)?, size, validity, len) {
        Ok(column) => Ok(column.into_array()),
        Err(fault) => Err(refusal(fault)),
    }
}

/// The column of that layout that the value means, by the column that its member `elements` means
/// and the validity that it states.
#[tactic(auto, unfolding(crate::specs::FixedSizeList::fixed_by))]
pub(crate) fn fixed_by(
    alloc: Global,
    value: &Value,
    elements: Array,
    validity: Validity,
) -> Result<Array, DocError>
    ensures { Gives (λ c. c) result (fixed_by (view value.now) elements (valid_of validity)) }
{
    let object = if_closed(value, &["layout", "size", "len", "elements", "validity"])?;
    let size = number_member(GREATEST_SIZE, object, "size")?;
    let len = number_member(GREATEST_LEN, object, "len")?;
    fixed_made(alloc, elements, size as u32, len, validity)
}
