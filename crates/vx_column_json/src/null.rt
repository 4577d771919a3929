//! Columns of layout `Null`.
ghost use Rattle.serde_json.specs.View.{view};
ghost use Rattle.vx_json.specs.Meaning.{Gives};
ghost use Rattle.vx_column_json.specs.Null.{null_by};

use serde_json::Value;
use vx_column::{Array, NullArray};
use vx_json::{DocError, GREATEST_LEN, if_closed, number_member};

/// The column of layout `Null` that the value means. `Malformed` where the length is no number up
/// to `GREATEST_LEN`, or there is another member.
#[tactic(auto, unfolding(crate::specs::Null::null_by))]
pub fn null_by(value: &Value) -> Result<Array, DocError>
    ensures { Gives (λ c. c) result (null_by (view value.now)) }
{
    let object = if_closed(value, &["layout", "len"])?;
    let len = number_member(GREATEST_LEN, object, "len")?;
    Ok(NullArray::new(len).into_array())
}
