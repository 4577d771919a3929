//! Layout `Filter`: a step over the rows is one over the child and the mask.
ghost use Rattle.std.specs.Prelude.{◌≡◌, length, map, IfOk};
ghost use Rattle.vx_bits.specs.BitBuffer.{true_count_of};
ghost use Rattle.vx_mask.specs.Mask.{mask_bits};
ghost use Rattle.vx_mask.specs.Positions.{rank_of, set_of};
ghost use Rattle.vx_take.specs.Picks.{AreBelow};
ghost use Rattle.vx_take.specs.Ranks.{positions_by_rank};
ghost use Rattle.vx_positions.specs.Positions.{AllThere};
ghost use Rattle.vx_model.specs.Filter.{filter_column};

use crate::executing::{ExecuteRows, execute};
use crate::filtering::{FilterRows, filter};
use crate::materialized::is_materialized;
use crate::parts::{Parts, StepResult};
use crate::slicing::{SliceRows, slice};
use crate::taking::{TakeRows, take_picks};
use crate::validity::{TakeBits, taken_bits};
use std::alloc::Global;
use vx_bits::{BitBuffer, NoMemory};
use vx_column::{FilterArray, Nullability};
use vx_mask::{Mask, MaskValues, Policy, mask_range, slice_mask};
use vx_take::{Picks, translate_ranks};

impl Parts for FilterArray {
    ghost column = { filter_column };
}

// The part of the child and of the mask that holds the rows.
impl SliceRows for FilterArray {
    #[cycle(slice)]
    #[tactic(auto, using(vx_model::proofs::LazyRows::lazy_rows))]
    fn slice(&self, alloc: Global, start: usize, end: usize) -> StepResult {
        let child = self.child();
        let mask = self.mask();
        let (low, high) = mask_range(mask, start, end);
        let part = slice(alloc, child, low, high)?;
        Ok(FilterArray::of(part.into_ref(alloc)?, slice_mask(mask, low, high)).into_array())
    }
}

// The mask of the rows that a mask keeps of those that another one does.
fn kept_by_both(alloc: Global, first: &Mask, then: &MaskValues) -> Result<Mask, NoMemory>
    requires { length then.now.bits.bits ≡ true_count_of (mask_bits first.now) }
    ensures set { IfOk result (λ m. set_of (mask_bits m)
        ≡ map (rank_of (mask_bits first.now)) (set_of then.now.bits.bits)) }
    ensures len { IfOk result (λ m. length (mask_bits m) ≡ length (mask_bits first.now)) }
{
    let then = Mask::Values(then.share());
    first.intersect_by_rank(alloc, &then)
}

// The child's rows that both masks keep.
impl FilterRows for FilterArray {
    #[cycle(filter)]
    #[tactic(auto, using(vx_model::proofs::LazyRows::lazy_rows))]
    fn filter(&self, alloc: Global, mask: &MaskValues, policy: &Policy) -> StepResult {
        let child = self.child();
        let both = kept_by_both(alloc, self.mask(), mask)?;
        filter(alloc, child, &both, policy)
    }
}

// The positions in the child that the picks are ranks of.
#[tactic(auto, using(vx_model::proofs::LazyRows::lazy_rows))]
fn child_picks(
    alloc: Global,
    array: &FilterArray,
    picks: &Picks,
    policy: &Policy,
) -> Result<Picks, NoMemory>
    requires { picks.now.bound ≡ length (filter_column array.now).rows }
    ensures picks { IfOk result
        (λ p. p.picks ≡ positions_by_rank (mask_bits array.now.mask) picks.now.picks) }
    ensures bound { IfOk result (λ p. p.bound ≡ length array.now.child.rows) }
    ensures there { AllThere picks.now.picks → IfOk result (λ p. AllThere p.picks) }
    ensures below { AreBelow picks.now.picks (true_count_of (mask_bits array.now.mask)) }
{
    // each pick is below the bound
    let _ = picks.bound();
    translate_ranks(alloc, array.mask(), picks, policy)
}

// The child's rows at the set positions that the picks are ranks of, or the rows at the picks of
// those that the mask keeps, as the policy has it. Ranks are let go before the child is taken from,
// so that nested filters hold no list of them each.
impl TakeRows for FilterArray {
    #[cycle(take)]
    #[tactic(auto, using(vx_model::proofs::LazyRows::lazy_rows))]
    fn take(&self, alloc: Global, picks: Picks, nulls: Nullability, policy: &Policy) -> StepResult {
        let child = self.child();
        let mask = self.mask();
        if is_materialized(
            child.dtype(),
            mask.true_count(),
            picks.len(),
            policy.fields(),
        ) {
            let kept = filter(alloc, child, mask, policy)?;
            return take_picks(alloc, &kept, picks, nulls, policy);
        }
        let positions = child_picks(alloc, self, &picks, policy)?;
        drop(picks);
        take_picks(alloc, child, positions, nulls, policy)
    }
}

// The bits of the rows at the picks, of a filter of bools that aren't null: bools are materialized.
impl TakeBits for FilterArray {
    #[cycle(take)]
    #[tactic(auto, using(vx_model::proofs::LazyRows::lazy_rows))]
    fn bits(&self, alloc: Global, picks: &Picks, policy: &Policy) -> Result<BitBuffer, NoMemory> {
        let kept = filter(alloc, self.child(), self.mask(), policy)?;
        taken_bits(alloc, &kept, picks, policy)
    }
}

// The filter's rows: those that the mask keeps of the child's unwrapped form.
impl ExecuteRows for FilterArray {
    #[cycle(execute)]
    #[tactic(auto, using(vx_model::proofs::LazyRows::lazy_rows))]
    fn execute(&self, alloc: Global, policy: &Policy) -> StepResult {
        let child = execute(alloc, self.child(), policy)?;
        filter(alloc, &child, self.mask(), policy)
    }
}
