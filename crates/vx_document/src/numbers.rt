//! Lists of numbers.
ghost use Rattle.serde_json.specs.View.{view};
ghost use Rattle.vx_json.specs.Meaning.{Gives};
ghost use Rattle.vx_document.specs.Numbers.{numbers_in};

use crate::columns::column_of;
use serde_json::Value;
use std::alloc::Global;
use vx_column::{Array, PType};
use vx_column_json::primitive_by_items;
use vx_json::DocError;

/// The numbers that the value means: a list of numbers and nulls, of that type, or else a column.
#[tactic(auto, unfolding(crate::specs::Numbers::numbers_in))]
pub(crate) fn numbers_in(alloc: Global, ptype: PType, value: &Value) -> Result<Array, DocError>
    ensures { Gives (λ c. c) result (numbers_in ptype (view value.now)) }
{
    match value.as_array() {
        Some(items) => primitive_by_items(alloc, ptype, None, items),
        None => column_of(alloc, value),
    }
}
