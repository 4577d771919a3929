//! Layout `Dict`: a step over the rows is that step over the codes.
ghost use Rattle.std.specs.Prelude.{◌≡◌, None, IfOk};
ghost use Rattle.vx_model.specs.Dict.{dict_column, dict_fault, dict_with};
ghost use Rattle.vx_model.specs.Step.{IsStep};

use crate::executing::{ExecuteRows, execute};
use crate::filtering::{FilterRows, filter_values};
use crate::parts::{Parts, StepResult};
use crate::slicing::{SliceRows, slice};
use crate::taking::{TakeRows, take_picks};
use crate::validity::{TakeBits, taken_bits};
use std::alloc::Global;
use vx_bits::{BitBuffer, NoMemory};
use vx_column::{Array, DictArray, Nullability};
use vx_mask::{MaskValues, Policy};
use vx_pieces::number_picks;
use vx_take::Picks;

// The column with other codes for its rows.
fn recoded(alloc: Global, array: &DictArray, codes: Array) -> Result<Array, NoMemory>
    requires { dict_fault (dict_with array.now codes) ≡ None }
    ensures { IfOk result (λ a. a ≡ dict_column (dict_with array.now codes)) }
{
    Ok(array.with_codes(codes.into_ref(alloc)?).into_array())
}

impl Parts for DictArray {
    ghost column = { dict_column };
}

impl SliceRows for DictArray {
    #[cycle(slice)]
    #[tactic(auto, using(vx_model::proofs::LazyRows::lazy_rows))]
    fn slice(&self, alloc: Global, start: usize, end: usize) -> StepResult {
        let codes = slice(alloc, self.codes(), start, end)?;
        recoded(alloc, self, codes)
    }
}

impl FilterRows for DictArray {
    #[cycle(filter)]
    #[tactic(auto, using(vx_model::proofs::LazyRows::lazy_rows))]
    fn filter(&self, alloc: Global, mask: &MaskValues, policy: &Policy) -> StepResult {
        let codes = filter_values(alloc, self.codes(), mask, policy)?;
        recoded(alloc, self, codes)
    }
}

impl TakeRows for DictArray {
    #[cycle(take)]
    #[tactic(auto, using(vx_model::proofs::LazyRows::lazy_rows))]
    fn take(&self, alloc: Global, picks: Picks, nulls: Nullability, policy: &Policy) -> StepResult {
        let codes = take_picks(alloc, self.codes(), picks, nulls, policy)?;
        recoded(alloc, self, codes)
    }
}

// The bits of the rows at the picks, of a dictionary of bools that aren't null.
impl TakeBits for DictArray {
    #[cycle(take)]
    #[tactic(auto, using(vx_model::proofs::LazyRows::lazy_rows))]
    fn bits(&self, alloc: Global, picks: &Picks, policy: &Policy) -> Result<BitBuffer, NoMemory> {
        let values = self.values();
        let copy = picks.copied(alloc)?;
        let codes = take_picks(alloc, self.codes(), copy, Nullability::Nullable, policy)?;
        let named = number_picks(alloc, &codes, values.len())?;
        taken_bits(alloc, values, &named, policy)
    }
}

// The dictionary's rows, each the value that its code names.
impl ExecuteRows for DictArray {
    #[cycle(execute)]
    #[tactic(auto, using(vx_model::proofs::LazyRows::lazy_rows))]
    fn execute(&self, alloc: Global, policy: &Policy) -> StepResult {
        let codes = execute(alloc, self.codes(), policy)?;
        let values = execute(alloc, self.values(), policy)?;
        let named = number_picks(alloc, &codes, values.len())?;
        take_picks(alloc, &values, named, codes.dtype().nullability(), policy)
    }
}

/// The dictionary with its values executed and its codes as they are.
#[cycle(execute)]
#[tactic(auto, using(crate::proofs::Codes::other_values))]
pub(crate) fn execute_values(
    alloc: Global,
    array: &DictArray,
    policy: &Policy,
) -> Result<Array, NoMemory>
    ensures { IfOk result (IsStep (dict_column array.now) (dict_column array.now).rows
        (dict_column array.now).dtype) }
{
    let values = execute(alloc, array.values(), policy)?;
    Ok(array.with_values(values.into_ref(alloc)?).into_array())
}
