//! Columns of layout `Dict`.
ghost use Rattle.serde_json.specs.View.{view};
ghost use Rattle.vx_json.specs.Meaning.{Gives};
ghost use Rattle.vx_column_json.specs.Dict.{dict_made, dict_by};

use crate::made::made;
use serde_json::Value;
use std::alloc::Global;
use vx_column::{Array, DictArray};
use vx_json::{DocError, is_closed};

/// The column of these values, as the codes name them. `Malformed` where a code names none.
#[tactic(auto, unfolding(crate::specs::Made::made))]
fn dict_made(alloc: Global, codes: Array, values: Array) -> Result<Array, DocError>
    ensures { Gives (λ c. c) result (dict_made codes values) }
{
    Ok(made(DictArray::try_new(codes.into_ref(alloc)?, values.into_ref(alloc)?))?.into_array())
}

/// The column of layout `Dict` that the value means, by the columns that its members `codes` and
/// `values` mean. `Malformed` where they can make none, as where a code names no value, or there is
/// another member.
#[tactic(auto, unfolding(crate::specs::Dict::dict_by))]
pub fn dict_by(alloc: Global, value: &Value, codes: Array, values: Array) -> Result<Array, DocError>
    ensures { Gives (λ c. c) result (dict_by (view value.now) codes values) }
{
    if is_closed(value, &["layout", "codes", "values"]) {
        dict_made(alloc, codes, values)
    } else {
        Err(DocError::Malformed)
    }
}
