//! Layouts that store a row's bit or bytes: the new validity is made here, and the rows by
//! `vx_stored`.
ghost use Rattle.std.specs.Prelude.{◌+◌, ◌≤◌, All, length, map, Some, IfOk, IfSome};
ghost use Rattle.vx_types.specs.declared.nullability.Nullability.TheVariants.{NonNullable};
ghost use Rattle.vx_take.specs.Picks.{run_places};
ghost use Rattle.vx_model.specs.Records.{records_column};
ghost use Rattle.vx_model.specs.Step.{IsTake};
ghost use Rattle.vx_model.specs.Stored.{stored_column};
ghost use Rattle.vx_plain.specs.Stored.{parts_of};

use crate::executing::ExecuteRows;
use crate::filtering::FilterRows;
use crate::parts::{Parts, StepResult};
use crate::slicing::SliceRows;
use crate::taking::TakeRows;
use crate::validity::{execute_validity, filter_validity, slice_validity, take_validity};
use std::alloc::Global;
use vx_bits::NoMemory;
use vx_column::{Array, Nullability, RecordArray, Runs};
use vx_mask::{MaskValues, Policy};
use vx_plain::Stored;
use vx_stored::{filter_stored, slice_stored, take_array_runs, take_stored, with_validity};
use vx_take::Picks;

impl Parts for Stored<'_> {
    ghost column = { λ stored. stored_column (parts_of stored) };
}

impl SliceRows for Stored<'_> {
    #[cycle(slice)]
    fn slice(&self, alloc: Global, start: usize, end: usize) -> StepResult {
        let validity = slice_validity(alloc, self.validity(), self.len(), start, end)?;
        Ok(slice_stored(*self, start, end, validity))
    }
}

impl FilterRows for Stored<'_> {
    #[cycle(filter)]
    fn filter(&self, alloc: Global, mask: &MaskValues, policy: &Policy) -> StepResult {
        let validity = filter_validity(alloc, self.validity(), mask, policy)?;
        filter_stored(alloc, *self, mask, policy, validity)
    }
}

impl TakeRows for Stored<'_> {
    #[cycle(take)]
    fn take(&self, alloc: Global, picks: Picks, nulls: Nullability, policy: &Policy) -> StepResult {
        let validity = take_validity(alloc, self.validity(), &picks, nulls, policy)?;
        take_stored(alloc, *self, &picks, validity)
    }
}

// The stored rows, with the validity unwrapped.
impl ExecuteRows for Stored<'_> {
    #[cycle(execute)]
    fn execute(&self, alloc: Global, policy: &Policy) -> StepResult {
        let validity = execute_validity(alloc, self.validity(), self.len(), policy)?;
        Ok(with_validity(*self, validity))
    }
}

/// The rows in the runs, each its start and its length, one run after another; none where the
/// validity isn't a constant form. Fails only with `NoMemory`.
#[tactic(auto, using(vx_model::proofs::Layouts::layout_rows))]
pub(crate) fn take_record_runs(
    alloc: Global,
    array: &RecordArray,
    runs: &Runs,
) -> Result<Option<Array>, NoMemory>
    requires { All (λ run. run.0 + run.1 ≤ length (records_column array.now).rows) runs.now }
    ensures { IfOk result (λ taken. IfSome taken (IsTake (records_column array.now)
        (map Some (run_places runs.now)) NonNullable)) }
{
    let validity = array.validity();
    if !validity.is_constant_form() {
        return Ok(None);
    }
    let taken = take_array_runs(alloc, array, runs.as_slice(), validity.share())?;
    Ok(Some(taken.into_array()))
}
