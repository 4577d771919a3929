//! Layouts that store records: the records, with the new validity handed in.
ghost use Rattle.std.specs.Prelude.{◌≡◌, ◌+◌, ◌≤◌, All, length, true, IfOk};
ghost use Rattle.vx_take.specs.Picks.{in_runs};
ghost use Rattle.vx_model.specs.Valid.{is_fitting};
ghost use Rattle.vx_model.specs.Records.{records_with};
ghost use Rattle.vx_column.specs.Validity.{valid_of};

use crate::rows::{StepResult, StoredRows};
use std::alloc::Global;
use vx_bits::NoMemory;
use vx_column::{Array, RecordArray, Validity};
use vx_filter::filter_records;
use vx_mask::{MaskValues, Policy};
use vx_take::{Picks, take_records, take_runs};

impl StoredRows for RecordArray {
    ghost use Rattle.vx_model.specs.Records.{stored_records};

    ghost parts = { stored_records };

    fn slice(&self, start: usize, end: usize, valid: Validity) -> Array {
        let values = self.values().slice(start, end);
        self.with_rows(values, valid).into_array()
    }

    fn filter(
        &self,
        alloc: Global,
        mask: &MaskValues,
        policy: &Policy,
        valid: Validity,
    ) -> StepResult {
        let values = filter_records(alloc, self.values(), mask, policy)?;
        Ok(self.with_rows(values, valid).into_array())
    }

    fn take(&self, alloc: Global, picks: &Picks, valid: Validity) -> StepResult {
        let values = take_records(alloc, self.values(), picks)?;
        Ok(self.with_rows(values, valid).into_array())
    }
}

/// The records in the runs, each its start and its length, one run after another, with this
/// validity. Fails only with `NoMemory`.
pub fn take_array_runs(
    alloc: Global,
    array: &RecordArray,
    runs: &[(usize, usize)],
    validity: Validity,
) -> Result<RecordArray, NoMemory>
    requires within { All (λ run. run.0 + run.1 ≤ length array.now.records) runs.now }
    requires fitting { is_fitting (valid_of validity)
        (length (in_runs array.now.records runs.now)) ≡ true }
    ensures { IfOk result (λ a. a ≡ records_with array.now
        (in_runs array.now.records runs.now) (valid_of validity)) }
{
    let values = take_runs(alloc, array.values(), runs)?;
    Ok(array.with_rows(values, validity))
}
