//! Lists of indices.
ghost use Rattle.serde_json.specs.View.{view};
ghost use Rattle.vx_pieces.specs.Indices.{index_value};
ghost use Rattle.vx_json.specs.Meaning.{Gives};
ghost use Rattle.vx_document.specs.Indices.{indices_of};

use crate::columns::flat_of;
use crate::numbers::numbers_in;
use crate::pieces::pieces_by;
use serde_json::Value;
use std::alloc::Global;
use vx_column::PType;
use vx_json::{DocError, is_closed, member};
use vx_pieces::Indices;

/// The list of indices that the value means: an object of pieces, a list of numbers and nulls, or a
/// column. `Malformed` exactly where it means none, but that `NoMemory` may come in place of any
/// answer.
#[tactic(auto, unfolding(crate::specs::Indices::indices_of))]
pub fn indices_of(alloc: Global, value: &Value) -> Result<Indices, DocError>
    ensures { Gives index_value result (indices_of (view value.now)) }
{
    if is_closed(value, &["pieces"]) {
        pieces_by(alloc, member(value, "pieces")?)
    } else {
        let numbers = numbers_in(alloc, PType::I64, value)?;
        Ok(Indices::Array(flat_of(alloc, numbers)?))
    }
}
