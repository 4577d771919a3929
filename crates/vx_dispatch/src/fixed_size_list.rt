//! Layout `FixedSizeList`: a step over the lists is one over their elements.
ghost use Rattle.std.specs.Prelude.{◌≡◌, None, IfOk};
ghost use Rattle.vx_model.specs.FixedSizeList.{fixed_column, fixed_fault};
ghost use Rattle.vx_column.specs.ListParts.{fixed_parts};

use crate::filtering::{FilterRows, filter};
use crate::parts::{Parts, StepResult};
use crate::runs::take_runs;
use crate::slicing::{SliceRows, slice};
use crate::taking::TakeRows;
use crate::validity::{filter_validity, slice_validity, take_validity};
use std::alloc::Global;
use vx_bits::NoMemory;
use vx_column::{Array, FixedSizeListArray, Nullability, Validity};
use vx_lists::{FixedFilterPlan, FixedTakePlan, plan_fixed_filter, plan_fixed_take};
use vx_mask::{MaskValues, Policy};
use vx_take::Picks;

// So many lists of these elements.
fn relisted(
    alloc: Global,
    array: &FixedSizeListArray,
    elements: Array,
    validity: Validity,
    len: usize,
) -> Result<Array, NoMemory>
    requires valid { fixed_fault (fixed_parts elements array.now.size len validity) ≡ None }
    requires dtype { elements.dtype ≡ array.now.elements.dtype }
    ensures { IfOk result
        (λ a. a ≡ fixed_column (fixed_parts elements array.now.size len validity)) }
{
    let elements = elements.into_ref(alloc)?;
    Ok(array.with_parts(elements, validity, len).into_array())
}

impl Parts for FixedSizeListArray {
    ghost column = { fixed_column };
}

impl SliceRows for FixedSizeListArray {
    #[cycle(slice)]
    #[tactic(auto, using(vx_model::proofs::ListRows::fixed_rows))]
    fn slice(&self, alloc: Global, start: usize, end: usize) -> StepResult {
        let size = self.list_size() as usize;
        let len = self.len();
        // the elements of all rows are there
        let _ = self.elements().len();
        let validity = slice_validity(alloc, self.validity(), len, start, end)?;
        let elements = slice(alloc, self.elements(), start * size, end * size)?;
        Ok(
            self.with_parts(elements.into_ref(alloc)?, validity, end - start)
                .into_array(),
        )
    }
}

impl FilterRows for FixedSizeListArray {
    #[cycle(filter)]
    #[tactic(auto, using(vx_model::proofs::ListRows::fixed_rows))]
    fn filter(&self, alloc: Global, mask: &MaskValues, policy: &Policy) -> StepResult {
        let validity = filter_validity(alloc, self.validity(), mask, policy)?;
        let FixedFilterPlan {
            validity,
            mask: kept,
        } = plan_fixed_filter(alloc, self, mask, policy, validity)?;
        let elements = filter(alloc, self.elements(), &kept, policy)?;
        let elements = elements.into_ref(alloc)?;
        Ok(
            self.with_parts(elements, validity, mask.true_count())
                .into_array(),
        )
    }
}

// A null pick takes the elements of list 0, or fillers where there is no list; the validity hides
// them.
impl TakeRows for FixedSizeListArray {
    #[cycle(take)]
    #[tactic(auto, using(vx_model::proofs::ListRows::fixed_rows))]
    fn take(&self, alloc: Global, picks: Picks, nulls: Nullability, policy: &Policy) -> StepResult {
        let validity = take_validity(alloc, self.validity(), &picks, nulls, policy)?;
        let FixedTakePlan {
            validity,
            runs,
            filler,
        } = plan_fixed_take(alloc, self, &picks, validity)?;
        let len = picks.len();
        drop(picks);
        if self.len() == 0 {
            let elements = vx_filler::filler(alloc, self.elements().dtype(), filler)?;
            return relisted(alloc, self, elements, validity, len);
        }
        let elements = take_runs(alloc, self.elements(), runs, policy)?;
        relisted(alloc, self, elements, validity, len)
    }
}
