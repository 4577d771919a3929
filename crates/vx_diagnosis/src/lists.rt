//! Lists: the first item that is invalid.

use crate::fits::fits_alone;
use crate::kind::{Kind, name_of};
use crate::look::{Look, Place};
use serde_json::Value;
use std::alloc::Global;
use vx_bits::NoMemory;

/// Looks at a list of items of a kind. `whole` is the kind of the list.
pub(crate) fn look_at_items<'v>(
    alloc: Global,
    place: &mut Place,
    value: &'v Value,
    whole: Kind,
    item_kind: Kind,
) -> Result<Look<'v>, NoMemory> {
    let Some(items) = value.as_array() else {
        return Ok(Look::Expected(name_of(whole), value));
    };
    for (k, item) in items.iter().enumerate() {
        if !fits_alone(alloc, item_kind, item)? {
            place.item(k)?;
            return Ok(Look::Inside(item_kind, item));
        }
    }
    Ok(Look::Disagreeing)
}
