//! Columns of layout `Primitive`.
ghost use Rattle.std.specs.Prelude.{◌≡◌, IfOk};
ghost use Rattle.std.specs.Option.{option_map};
ghost use Rattle.serde_json.specs.View.{view, items_view};
ghost use Rattle.vx_bits.specs.Records.{records_of, width_of};
ghost use Rattle.vx_types.specs.PType.{width};
ghost use Rattle.vx_column.specs.Validity.{valid_of};
ghost use Rattle.vx_json.specs.Meaning.{Gives};
ghost use Rattle.vx_column_json.specs.Primitive.{primitive_made, values_there, primitive_by_items, ramp_listed, primitive_by};

use crate::made::made;
use crate::validity::{validity_alone, validity_beside};
use serde_json::Value;
use std::alloc::Global;
use vx_bits::Records;
use vx_column::{Array, PType, PrimitiveArray, Validity};
use vx_json::{
    DocError, GREATEST_LEN, has_null, is_closed, list_member, number_member, ptype_named, ramp_of,
    text_member, values_of,
};

/// The members of an object that lists its values.
const LISTED: [&str; 4] = ["layout", "type", "values", "validity"];

/// The column of these records. `Malformed` where the validity can't be theirs.
#[tactic(auto, unfolding(crate::specs::Made::made))]
fn primitive_made(ptype: PType, values: Records, validity: Validity) -> Result<Array, DocError>
    requires { width_of values ≡ width ptype }
    ensures { Gives (λ c. c) result
        (primitive_made ptype (records_of values) (valid_of validity)) }
{
    Ok(made(PrimitiveArray::try_new(ptype, values, validity))?.into_array())
}

/// The column of a list of values of that type and nulls, by the validity that is stated beside
/// it. `Malformed` where an item is neither, or the validity can't be theirs.
#[tactic(auto, unfolding(crate::specs::Primitive::primitive_by_items))]
pub fn primitive_by_items(
    alloc: Global,
    ptype: PType,
    stated: Option<Validity>,
    items: &Vec<Value>,
) -> Result<Array, DocError>
    ensures { Gives (λ c. c) result
        (primitive_by_items ptype (option_map valid_of stated) (items_view items.now.items)) }
{
    let validity = validity_beside(alloc, stated, items)?;
    let values = values_of(alloc, ptype, items)?;
    primitive_made(ptype, values, validity)
}

/// The records of the values that the member of this name lists. `Malformed` where one is null or
/// none of the type.
#[tactic(auto, unfolding(crate::specs::Primitive::values_there))]
pub fn values_there(
    alloc: Global,
    ptype: PType,
    value: &Value,
    name: &str,
) -> Result<Records, DocError>
    ensures value { Gives records_of result (values_there ptype name.now (view value.now)) }
    ensures width { IfOk result (λ r. width_of r ≡ width ptype) }
{
    let items = list_member(value, name)?;
    if has_null(items) {
        return Err(DocError::Malformed);
    }
    values_of(alloc, ptype, items)
}

/// The records of the numbers from 0 on, as many as the member `ramp` says. `Malformed` where it is
/// no number up to `GREATEST_LEN`, or the type isn't an integer's.
#[tactic(auto, unfolding(crate::specs::Primitive::ramp_listed))]
pub fn ramp_listed(alloc: Global, ptype: PType, value: &Value) -> Result<Records, DocError>
    ensures value { Gives records_of result (ramp_listed ptype (view value.now)) }
    ensures width { IfOk result (λ r. width_of r ≡ width ptype) }
{
    let len = number_member(GREATEST_LEN, value, "ramp")?;
    if ptype.is_int() {
        Ok(ramp_of(alloc, ptype, len)?)
    } else {
        Err(DocError::Malformed)
    }
}

/// The column of layout `Primitive` that the value means, by the validity that it states.
/// `Malformed` where there is no such type, an item is none of its values or null, the validity
/// can't be the column's, or there is another member.
#[tactic(auto, unfolding(crate::specs::Primitive::primitive_by))]
pub fn primitive_by(
    alloc: Global,
    value: &Value,
    stated: Option<Validity>,
) -> Result<Array, DocError>
    ensures { Gives (λ c. c) result (primitive_by (view value.now) (option_map valid_of stated)) }
{
    let ptype = ptype_named(text_member(value, "type")?)?;
    if is_closed(value, &LISTED) {
        primitive_by_items(alloc, ptype, stated, list_member(value, "values")?)
    } else if is_closed(value, &["layout", "type", "ramp", "validity"]) {
        let values = ramp_listed(alloc, ptype, value)?;
        primitive_made(ptype, values, validity_alone(stated))
    } else {
        Err(DocError::Malformed)
    }
}
