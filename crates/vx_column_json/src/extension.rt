//! Columns of layout `Extension`.
ghost use Rattle.std.specs.Prelude.{◌≡◌, IfOk};
ghost use Rattle.serde_json.specs.View.{view};
ghost use Rattle.vx_model.specs.Extension.{extension_column};
ghost use Rattle.vx_json.specs.Meaning.{Gives};
ghost use Rattle.vx_column_json.specs.Extension.{extension_parts, extension_by};

use serde_json::Value;
use std::alloc::Global;
use std::rc::RcStr;
use vx_bits::NoMemory;
use vx_column::{Array, ExtDType, ExtensionArray};
use vx_json::{DocError, if_closed, text_member};

/// The column of the storage's rows under this name.
fn extension_made(alloc: Global, name: &str, storage: Array) -> Result<Array, NoMemory>
    ensures { IfOk result (λ c. c ≡ extension_column (extension_parts name.now storage)) }
{
    let name = RcStr::from_str(alloc, name)?;
    let ext = ExtDType::new(alloc, name, storage.dtype().share())?;
    match ExtensionArray::try_new(ext, storage.into_ref(alloc)?) {
        Ok(column) => Ok(column.into_array()),
        Err(_) => unreachable!(),
    }
}

/// The column of layout `Extension` that the value means, by the column that its member `storage`
/// means. `Malformed` where there is no name, or there is another member.
#[tactic(auto, unfolding(crate::specs::Extension::extension_by))]
pub fn extension_by(alloc: Global, value: &Value, storage: Array) -> Result<Array, DocError>
    ensures { Gives (λ c. c) result (extension_by (view value.now) storage) }
{
    let object = if_closed(value, &["layout", "name", "storage"])?;
    let name = text_member(object, "name")?;
    Ok(extension_made(alloc, name, storage)?)
}
