//! Layout `Struct`: a step over the rows is that step over each field.
ghost use Rattle.std.specs.Prelude.{◌≡◌, length, IfOk};
ghost use Rattle.std.specs.List.{items_where_true};
ghost use Rattle.vx_model.specs.Step.{IsCut};
ghost use Rattle.vx_model.specs.Struct.{struct_column};

use crate::columns::{execute_each, filter_each, slice_each, take_each};
use crate::executing::ExecuteRows;
use crate::filtering::FilterRows;
use crate::parts::{Parts, StepResult};
use crate::slicing::SliceRows;
use crate::taking::TakeRows;
use crate::validity::{execute_validity, filter_validity, slice_validity, take_validity};
use std::alloc::Global;
use vx_bits::NoMemory;
use vx_column::{Nullability, StructArray};
use vx_filler::{fillers, firsts_for_nulls};
use vx_mask::{Mask, MaskValues, Policy, prepare_mask_for_reuse};
use vx_take::Picks;

impl Parts for StructArray {
    ghost column = { struct_column };
}

impl SliceRows for StructArray {
    #[cycle(slice)]
    #[tactic(auto, using(vx_model::proofs::StructSteps::struct_rows))]
    fn slice(&self, alloc: Global, start: usize, end: usize) -> StepResult {
        let len = self.len();
        let validity = slice_validity(alloc, self.validity(), len, start, end)?;
        let fields = slice_each(alloc, self.fields(), len, start, end)?;
        Ok(self.with_parts(fields, end - start, validity).into_array())
    }
}

/// The structs at the set positions of a mask that is as long: each field's rows there, by a mask
/// that is made ready for as many consumers as there are fields. Fails only with `NoMemory`.
#[cycle(filter)]
#[tactic(auto, using(vx_model::proofs::StructSteps::struct_rows))]
pub fn filter_fields(
    alloc: Global,
    array: &StructArray,
    mask: &MaskValues,
    policy: &Policy,
) -> Result<StructArray, NoMemory>
    requires { length mask.now.bits.bits ≡ length (struct_column array.now).rows }
    ensures { IfOk result (λ a. IsCut (struct_column array.now)
        (items_where_true mask.now.bits.bits (struct_column array.now).rows) (struct_column a)) }
{
    let columns = array.fields();
    let validity = filter_validity(alloc, array.validity(), mask, policy)?;
    let shared = Mask::Values(mask.share());
    let ready = prepare_mask_for_reuse(alloc, &shared, columns.len(), policy)?;
    let fields = filter_each(alloc, columns, &ready, policy)?;
    Ok(array.with_parts(fields, mask.true_count(), validity))
}

impl FilterRows for StructArray {
    #[cycle(filter)]
    fn filter(&self, alloc: Global, mask: &MaskValues, policy: &Policy) -> StepResult {
        Ok(filter_fields(alloc, self, mask, policy)?.into_array())
    }
}

// At a null pick the fields have row 0, or fillers where there is no row; the validity hides them.
impl TakeRows for StructArray {
    #[cycle(take)]
    #[tactic(auto, using(vx_model::proofs::StructSteps::struct_rows))]
    fn take(&self, alloc: Global, picks: Picks, nulls: Nullability, policy: &Policy) -> StepResult {
        let len = picks.len();
        let validity = take_validity(alloc, self.validity(), &picks, nulls, policy)?;
        if picks.bound() == 0 {
            let types = self.struct_fields().types();
            let fields = fillers(alloc, types, len)?;
            return Ok(self.with_parts(fields, len, validity).into_array());
        }
        let firsts = firsts_for_nulls(alloc, &picks)?;
        let fields = take_each(alloc, self.fields(), &firsts, policy)?;
        Ok(self.with_parts(fields, len, validity).into_array())
    }
}

// The structs' rows, with the fields and the validity executed.
impl ExecuteRows for StructArray {
    #[cycle(execute)]
    #[tactic(auto, using(vx_model::proofs::StructSteps::struct_rows))]
    fn execute(&self, alloc: Global, policy: &Policy) -> StepResult {
        let len = self.len();
        let validity = execute_validity(alloc, self.validity(), len, policy)?;
        let fields = execute_each(alloc, self.fields(), policy)?;
        Ok(self.with_parts(fields, len, validity).into_array())
    }
}
