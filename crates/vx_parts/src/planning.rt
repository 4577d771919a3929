//! What each part is asked, by the lengths of the parts alone.
ghost use Rattle.std.specs.Prelude.{◌≡◌, ◌+◌, ◌<◌, ◌^◌, IfErr, IfOk, OnOk, Some, length, map};
ghost use Rattle.std.specs.List.{All, sum};
ghost use Rattle.std.specs.Option.{option_map};
ghost use Rattle.vx_types.specs.declared.nullability.Nullability.TheVariants.{NonNullable};
ghost use Rattle.vx_positions.specs.Positions.{AllThere};
ghost use Rattle.vx_steps.specs.Compose.{IsFaultOf, IsUnbroken, takes_nullability};
ghost use Rattle.vx_steps.specs.Step.{step_value};
ghost use Rattle.vx_steps.specs.Walk.{walk, walk_picks};
ghost use Rattle.vx_parts.specs.Bounds.{AreBounds, end_of};
ghost use Rattle.vx_parts.specs.Cuts.{cut_value};
ghost use Rattle.vx_parts.specs.Plan.{AllPlaced, AreBelow, AreEachSound, AreOwn, ArePartsOf, IsPartAt, IsPlan, IsRest, IsTakeOf, own_in, places_in};

use crate::cut::{Cut, left_bounds, own_cuts, prefix_of};
use crate::own::{OwnPicks, cut_picks};
use crate::plan::{PartPlan, Plan};
use std::alloc::Global;
use vx_bits::NoMemory;
use vx_column::Nullability;
use vx_cuts::{bounds_of, total_len};
use vx_interleave::Place;
use vx_select::pick_indices;
use vx_steps::{SelectError, Step, check_steps, compose, takes_nullability};
use vx_take::Picks;

// The picks that steps that break no rule leave of `len` rows. Fails only with `NoMemory`.
fn compose_sound(alloc: Global, len: usize, steps: &[Step]) -> Result<Picks, NoMemory>
    requires { IsUnbroken (walk len (map step_value steps.now)) }
    ensures picks { IfOk result (λ p. walk len (map step_value steps.now) ≡ walk_picks p.picks) }
    ensures bound { IfOk result (λ p. p.bound ≡ len) }
    ensures there { IfOk result (λ p. takes_nullability (map step_value steps.now) ≡ NonNullable
        → AllThere p.picks) }
{
    match compose(alloc, len, steps) {
        Ok(picks) => Ok(picks),
        Err(SelectError::NoMemory) => Err(NoMemory),
        Err(SelectError::Broken { .. }) => unreachable!(),
    }
}

// The picks that steps leave of parts with these bounds, cut; none where there is no step.
fn cut_rest(alloc: Global, left: &[usize], steps: &[Step]) -> Result<Option<OwnPicks>, NoMemory>
    requires bounds { AreBounds left.now }
    requires unbroken { IsUnbroken (walk (end_of left.now) (map step_value steps.now)) }
    ensures rest { IfOk result (λ rest. IsRest left.now (map step_value steps.now) (own_in rest)
        (places_in rest)) }
    ensures told { IfOk result (λ rest. takes_nullability (map step_value steps.now) ≡ NonNullable
        → AllPlaced (places_in rest)) }
{
    if steps.is_empty() {
        return Ok(None);
    }
    let picks = compose_sound(alloc, left[left.len() - 1], steps)?;
    Ok(Some(cut_picks(alloc, &picks, left)?))
}

// A take of these positions, each below `len`, by indices that are no nulls.
fn take_of(alloc: Global, own: &[usize], len: usize) -> Result<Step, NoMemory>
    requires { All (λ p. p < len) own.now }
    ensures { IfOk result (λ step. IsTakeOf len own.now (step_value step)) }
{
    let picks = Picks::from_vec(Vec::from_slice(alloc, own)?, len);
    Ok(Step::Take(pick_indices(alloc, &picks, Nullability::NonNullable)?))
}

// What a part is asked: the slices and filters, which leave `len` rows, and then a take of its own
// picks.
fn with_take(
    alloc: Global,
    cuts: Vec<Step>,
    len: usize,
    own: &[usize],
) -> Result<PartPlan, NoMemory>
    requires { All (λ p. p < len) own.now }
    ensures { IfOk result (λ part. AreOwn (map step_value cuts.items) len (Some own.now)
        (map step_value part.steps.items) part.len) }
{
    let mut steps = cuts;
    steps.push(take_of(alloc, own, len)?)?;
    Ok(PartPlan {
        steps,
        len: own.len(),
    })
}

// What part `k` is asked.
fn part_at(
    alloc: Global,
    cuts: &[Cut],
    bounds: &[usize],
    left: &[usize],
    rest: &Option<OwnPicks>,
    k: usize,
) -> Result<PartPlan, NoMemory>
    requires within { k + 1 < length bounds.now }
    requires as_many { length left.now ≡ length bounds.now }
    requires own { AreBelow left.now (own_in rest.now) }
    ensures { IfOk result (λ part. IsPartAt (map cut_value cuts.now) bounds.now left.now
        (own_in rest.now) k (map step_value part.steps.items) part.len) }
{
    let steps = own_cuts(alloc, cuts, bounds[k], bounds[k + 1])?;
    let len = left[k + 1].saturating_sub(left[k]);
    match rest {
        None => Ok(PartPlan { steps, len }),
        Some(cut) => with_take(alloc, steps, len, &cut.own[k]),
    }
}

// What each part is asked.
fn each_part(
    alloc: Global,
    cuts: &[Cut],
    bounds: &[usize],
    left: &[usize],
    rest: &Option<OwnPicks>,
) -> Result<Vec<PartPlan>, NoMemory>
    requires some { 0 < length bounds.now }
    requires as_many { length left.now ≡ length bounds.now }
    requires own { AreBelow left.now (own_in rest.now) }
    ensures many { IfOk result (λ parts. length parts.items + 1 ≡ length bounds.now) }
    ensures parts { IfOk result (λ parts. ArePartsOf (map cut_value cuts.now) bounds.now left.now
        (own_in rest.now) parts.items) }
{
    let mut parts = Vec::new(alloc);
    for k in 0..bounds.len() - 1 {
        parts.push(part_at(alloc, cuts, bounds, left, rest, k)?)?;
    }
    Ok(parts)
}

// Where each picked row stands.
fn into_order(rest: Option<OwnPicks>) -> Option<Vec<Option<Place>>>
    ensures { option_map (λ v. v.items) result ≡ places_in rest }
{
    match rest {
        None => None,
        Some(cut) => Some(cut.order),
    }
}

// Cuts steps that break no rule over the whole. Fails only with `NoMemory`.
fn plan_sound(alloc: Global, lengths: &[usize], steps: &[Step]) -> Result<Plan, NoMemory>
    requires counted { sum lengths.now < 2 ^ 64 }
    requires unbroken { IsUnbroken (walk (sum lengths.now) (map step_value steps.now)) }
    ensures { IfOk result (IsPlan lengths.now (map step_value steps.now)) }
{
    let prefix = prefix_of(alloc, steps)?;
    let bounds = bounds_of(alloc, lengths)?;
    let left = left_bounds(alloc, &prefix.cuts, &bounds)?;
    let rest = cut_rest(alloc, &left, &steps[prefix.done..])?;
    let parts = each_part(alloc, &prefix.cuts, &bounds, &left, &rest)?;
    Ok(Plan {
        parts,
        order: into_order(rest),
        nullability: takes_nullability(steps),
    })
}

/// What each of the parts of a column is asked, and how the answers are put together, so that they
/// are the answer of the whole to the steps. The parts have these lengths, and no row is read.
///
/// Slices and filters before the first take are cut into each part's own, and so the lengths of the
/// parts are counted anew behind each. The picks of the steps from the first take on are composed
/// once and cut into one take a part, and an order. A plan has room for the steps of each part and
/// for these picks, however many rows there are.
///
/// `Broken` exactly where a step breaks a rule over the whole, with the first one. `NoMemory` only
/// where none does.
pub fn plan_steps(alloc: Global, lengths: &[usize], steps: &[Step]) -> Result<Plan, SelectError>
    requires { sum lengths.now < 2 ^ 64 }
    ensures plan { IfOk result (IsPlan lengths.now (map step_value steps.now)) }
    ensures own { IfOk result (λ plan. AreEachSound lengths.now plan.parts.items) }
    ensures unbroken { OnOk result
        (IsUnbroken (walk (sum lengths.now) (map step_value steps.now))) }
    ensures fault { IfErr result (IsFaultOf (walk (sum lengths.now) (map step_value steps.now))) }
{
    let Some(len) = total_len(lengths) else {
        unreachable!()
    };
    check_steps(len, steps)?;
    Ok(plan_sound(alloc, lengths, steps)?)
}
