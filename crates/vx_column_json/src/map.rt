//! Columns of layout `Map`.
ghost use Rattle.serde_json.specs.View.{view};
ghost use Rattle.vx_json.specs.Meaning.{Gives};
ghost use Rattle.vx_column_json.specs.Map.{map_by, map_made};

use serde_json::Value;
use vx_column::{Array, MapArray};
use vx_json::{DocError, is_closed};
use vx_plain::ReadLayout;

/// The maps of these entries. `Malformed` where they aren't list views of structs of a key and a
/// value.
fn map_made(entries: &Array) -> Result<Array, DocError>
    ensures { Gives (λ c. c) result (map_made entries.now) }
{
    let Some(views) = entries.as_listview() else {
        return Err(DocError::Malformed);
    };
    match MapArray::try_new(views.share()) {
        Ok(column) => Ok(column.into_array()),
        Err(_) => Err(DocError::Malformed),
    }
}

/// The column of layout `Map` that the value means, by the column that its member `entries` means.
/// `Malformed` where that isn't one of list views of structs of a key and a value, or there is
/// another member.
#[tactic(auto, unfolding(crate::specs::Map::map_by))]
pub fn map_by(value: &Value, entries: &Array) -> Result<Array, DocError>
    ensures { Gives (λ c. c) result (map_by (view value.now) entries.now) }
{
    if is_closed(value, &["layout", "entries"]) {
        map_made(entries)
    } else {
        Err(DocError::Malformed)
    }
}
