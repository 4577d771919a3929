//! The layouts of lists, by their names.
ghost use Rattle.serde_json.specs.View.{view};
ghost use Rattle.vx_column.specs.Validity.{valid_of};
ghost use Rattle.vx_json.specs.Meaning.{Gives};
ghost use Rattle.vx_column_json.specs.Lists.{lists_by};

use crate::fixed_size_list::fixed_by;
use crate::list::list_by;
use crate::listview::listview_by;
use serde_json::Value;
use std::alloc::Global;
use vx_column::{Array, Validity};
use vx_json::DocError;

/// The column of the layout of lists of this name that the value means, by the column that its
/// member `elements` means and the validity that it states. `Malformed` where there is no such
/// layout, the offsets or the sizes can't cut the elements, the validity can't be the column's, or
/// there is another member.
pub fn lists_by(
    alloc: Global,
    value: &Value,
    elements: Array,
    validity: Validity,
    layout: &str,
) -> Result<Array, DocError>
    ensures { Gives (λ c. c) result
        (lists_by (view value.now) elements (valid_of validity) layout.now) }
{
    match layout {
        "List" => list_by(alloc, value, elements, validity),
        "ListView" => listview_by(alloc, value, elements, validity),
        "FixedSizeList" => fixed_by(alloc, value, elements, validity),
        _ => Err(DocError::Malformed),
    }
}
