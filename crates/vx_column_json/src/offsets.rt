//! Offsets and sizes: lists of numbers that cut others.
ghost use Rattle.std.specs.Prelude.{◌≡◌};
ghost use Rattle.serde_json.specs.View.{view, items_view};
ghost use Rattle.vx_bits.specs.Records.{records_of, width_of};
ghost use Rattle.vx_types.specs.PType.{width};
ghost use Rattle.vx_json.specs.Meaning.{Gives};
ghost use Rattle.vx_column_json.specs.Offsets.{are_wholes, offset_type_of, offsets_column, offsets_in};

use serde_json::Value;
use std::alloc::Global;
use vx_bits::Records;
use vx_column::{PType, PrimitiveArray, number_column};
use vx_json::{DocError, list_member, ptype_named, text_in, values_of};

/// The type of the offsets: as the object says, or else the usual one.
#[tactic(auto, unfolding(crate::specs::Offsets::offset_type_of))]
pub(crate) fn offset_type_of(usual: PType, value: &Value) -> Result<PType, DocError>
    ensures { Gives (λ p. p) result (offset_type_of usual (view value.now)) }
{
    match value.get("offset_type") {
        Some(named) => ptype_named(text_in(named)?),
        None => Ok(usual),
    }
}

/// The column of these records.
pub(crate) fn offsets_column(ptype: PType, records: Records) -> PrimitiveArray
    requires { width_of records ≡ width ptype }
    ensures { result ≡ offsets_column ptype (records_of records) }
{
    number_column(ptype, records)
}

/// Whether each is a non-negative integer.
#[tactic(auto, unfolding(vx_json::specs::Wholes::whole_of))]
fn are_wholes(items: &Vec<Value>) -> bool
    ensures { result ≡ are_wholes (items_view items.now.items) }
{
    for item in items {
        if !item.is_u64() {
            return false;
        }
    }
    true
}

/// The column of the integers of that type that the member of this name lists. `Malformed`
/// where there is none, or an item is none, as a negative one.
#[tactic(auto, unfolding(crate::specs::Offsets::offsets_in))]
pub(crate) fn offsets_member(
    alloc: Global,
    ptype: PType,
    value: &Value,
    name: &str,
) -> Result<PrimitiveArray, DocError>
    ensures { Gives (λ p. p) result (offsets_in ptype name.now (view value.now)) }
{
    let items = list_member(value, name)?;
    if !are_wholes(items) {
        return Err(DocError::Malformed);
    }
    let records = values_of(alloc, ptype, items)?;
    Ok(offsets_column(ptype, records))
}
