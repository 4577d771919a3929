//! Layout `Extension`: a step over the rows is that step over the storage.
ghost use Rattle.std.specs.Prelude.{◌≡◌, None, IfOk};
ghost use Rattle.vx_model.specs.Extension.{extension_column, extension_fault, extension_with};

use crate::executing::{ExecuteRows, execute};
use crate::filtering::{FilterRows, filter_values};
use crate::parts::{Parts, StepResult};
use crate::slicing::{SliceRows, slice};
use crate::taking::{TakeRows, take_picks};
use std::alloc::Global;
use vx_bits::NoMemory;
use vx_column::{Array, ExtensionArray, Nullability};
use vx_mask::{MaskValues, Policy};
use vx_take::Picks;

// The extension over another storage of its kind.
fn restored(alloc: Global, array: &ExtensionArray, storage: Array) -> Result<Array, NoMemory>
    requires { extension_fault (extension_with array.now storage) ≡ None }
    ensures { IfOk result (λ a. a ≡ extension_column (extension_with array.now storage)) }
{
    Ok(array.with_storage(storage.into_ref(alloc)?).into_array())
}

impl Parts for ExtensionArray {
    ghost column = { extension_column };
}

impl TakeRows for ExtensionArray {
    #[cycle(take)]
    fn take(&self, alloc: Global, picks: Picks, nulls: Nullability, policy: &Policy) -> StepResult {
        let storage = take_picks(alloc, self.storage(), picks, nulls, policy)?;
        restored(alloc, self, storage)
    }
}

impl FilterRows for ExtensionArray {
    #[cycle(filter)]
    fn filter(&self, alloc: Global, mask: &MaskValues, policy: &Policy) -> StepResult {
        let storage = filter_values(alloc, self.storage(), mask, policy)?;
        restored(alloc, self, storage)
    }
}

impl SliceRows for ExtensionArray {
    #[cycle(slice)]
    fn slice(&self, alloc: Global, start: usize, end: usize) -> StepResult {
        let storage = slice(alloc, self.storage(), start, end)?;
        restored(alloc, self, storage)
    }
}

// The extension's rows, with the storage executed.
impl ExecuteRows for ExtensionArray {
    #[cycle(execute)]
    fn execute(&self, alloc: Global, policy: &Policy) -> StepResult {
        let storage = execute(alloc, self.storage(), policy)?;
        restored(alloc, self, storage)
    }
}
