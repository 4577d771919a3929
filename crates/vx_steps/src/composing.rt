//! The picks that a list of steps leaves.
ghost use Rattle.std.specs.Prelude.{◌≡◌, ◌≤◌, IfErr, IfOk, OnOk, map};
ghost use Rattle.vx_types.specs.declared.nullability.Nullability.TheVariants.{NonNullable};
ghost use Rattle.vx_positions.specs.Positions.{AllThere};
ghost use Rattle.vx_steps.specs.Step.{step_value};
ghost use Rattle.vx_steps.specs.Walk.{walk, walk_picks};
ghost use Rattle.vx_steps.specs.Compose.{IsCounted, IsFaultOf, IsPartOf, bound_of, picks_in, step_nullability, takes_nullability};

use crate::cause::SelectError;
use crate::check::check_steps;
use crate::composed::Composed;
use crate::span::Span;
use crate::step::Step;
use std::alloc::Global;
use vx_column::Nullability;
use vx_take::Picks;

impl Step {
    // Whether it may leave nulls: a take by nullable indices may.
    fn nullability(&self) -> Nullability
        ensures { result ≡ step_nullability (step_value self.now) }
    {
        match self {
            Step::Slice { .. } | Step::Filter(_) | Step::FilterBy(_) => Nullability::NonNullable,
            Step::Take(indices) => indices.nullability(),
        }
    }
}

/// Whether the steps may leave nulls where there were none: by the types of the takes' indices,
/// also where no index is null.
pub fn takes_nullability(steps: &[Step]) -> Nullability
    ensures { result ≡ takes_nullability (map step_value steps.now) }
{
    let mut nullability = Nullability::NonNullable;
    for step in steps {
        nullability = nullability.or(step.nullability());
    }
    nullability
}

// The picks that the steps leave of `len` rows. Slices alone keep them a range.
fn composed_by(alloc: Global, len: usize, steps: &[Step]) -> Result<Composed, SelectError>
    ensures picks { IfOk result
        (λ c. walk len (map step_value steps.now) ≡ walk_picks (picks_in c)) }
    ensures bound { IfOk result (λ c. bound_of c ≡ len) }
    ensures there { IfOk result (λ c. takes_nullability (map step_value steps.now) ≡ NonNullable
        → AllThere (picks_in c)) }
    ensures fault { IfErr result (IsFaultOf (walk len (map step_value steps.now))) }
{
    check_steps(len, steps)?;
    let mut composed = Composed::Range(Span {
        start: 0,
        end: len,
        bound: len,
    });
    for step in steps {
        composed = composed.after(alloc, step)?;
    }
    Ok(composed)
}

/// For each row that the steps leave of `len` rows its position among these, or none for a null.
///
/// `Broken` exactly where a step breaks a rule, with the first one, even when memory runs out.
/// `NoMemory` only where none does. Slices alone allocate nothing but the result.
pub fn compose(alloc: Global, len: usize, steps: &[Step]) -> Result<Picks, SelectError>
    ensures picks { IfOk result (λ p. walk len (map step_value steps.now) ≡ walk_picks p.picks) }
    ensures bound { IfOk result (λ p. p.bound ≡ len) }
    ensures there { IfOk result (λ p. takes_nullability (map step_value steps.now) ≡ NonNullable
        → AllThere p.picks) }
    ensures fault { IfErr result (IsFaultOf (walk len (map step_value steps.now))) }
{
    let composed = composed_by(alloc, len, steps)?;
    Ok(composed.into_picks(alloc)?)
}

/// Of the picks that the steps leave of `len` rows those from number `start` up to `end`, as far
/// as there are any. After slices alone it takes memory for these only, however many rows there
/// are.
///
/// Refuses as [`compose`] does.
pub fn compose_part(
    alloc: Global,
    len: usize,
    steps: &[Step],
    start: usize,
    end: usize,
) -> Result<Picks, SelectError>
    requires { start ≤ end }
    ensures picks { IfOk result
        (λ p. IsPartOf (walk len (map step_value steps.now)) start end p.picks) }
    ensures bound { IfOk result (λ p. p.bound ≡ len) }
    ensures there { IfOk result (λ p. takes_nullability (map step_value steps.now) ≡ NonNullable
        → AllThere p.picks) }
    ensures counted { OnOk result (IsCounted (walk len (map step_value steps.now))) }
    ensures fault { IfErr result (IsFaultOf (walk len (map step_value steps.now))) }
{
    let composed = composed_by(alloc, len, steps)?;
    // a `usize` counts the picks
    let _ = composed.len();
    Ok(composed.into_part(alloc, start, end)?)
}
