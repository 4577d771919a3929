//! The answer to a list of steps over a column in memory.
ghost use Rattle.std.specs.Prelude.{◌≡◌, None, length, map, true, IfOk, IsOk, IsOkAnd};
ghost use Rattle.std.specs.List.{items_where_true};
ghost use Rattle.vx_mask.specs.Mask.{mask_bits};
ghost use Rattle.vx_types.specs.RowValue.{null};
ghost use Rattle.vx_column.specs.Truth.{true_bits};
ghost use Rattle.vx_model.specs.Plain.{is_null_layout, is_plain};
ghost use Rattle.vx_model.specs.Step.{IsStep};
ghost use Rattle.vx_steps.specs.Step.{step_value, is_slice};
ghost use Rattle.vx_steps.specs.Walk.{apply, broken};
ghost use Rattle.vx_steps.specs.Answer.{answer, type_after_step};
ghost use Rattle.vx_select.specs.Select.{IsSelection};

use crate::part::Part;
use std::alloc::Global;
use vx_bits::NoMemory;
use vx_column::Array;
use vx_dispatch::{execute, filter, take};
use vx_mask::{Mask, Policy};
use vx_reading::{mask_of, true_rows};
use vx_steps::{SelectError, Step, check_steps};

// The rows at the set positions of a mask that is as long: the part itself where these are all.
fn kept(alloc: Global, part: Part, mask: &Mask, policy: &Policy) -> Result<Part, NoMemory>
    requires { length (mask_bits mask.now) ≡ length part.rows }
    ensures step { IfOk result
        (IsStep part (items_where_true (mask_bits mask.now) part.rows) part.dtype) }
    ensures null { is_null_layout part.layout ≡ true → IsOk result }
{
    if let Mask::AllTrue(_) = mask {
        return Ok(part);
    }
    let column = part.materialize(alloc)?;
    let rows = filter(alloc, &column, mask, policy)?;
    Ok(Part::whole(rows))
}

// The rows at which a column of bools that is as long is true. Of nulls alone they are counted.
#[tactic(auto, using(crate::proofs::Parts::true_rows))]
fn kept_by(alloc: Global, part: Part, column: &Array, policy: &Policy) -> Result<Part, NoMemory>
    requires { length column.now.rows ≡ length part.rows }
    ensures step { IfOk result
        (IsStep part (items_where_true (true_bits column.now) part.rows) part.dtype) }
    ensures null { is_null_layout part.layout ≡ true → IsOk result }
{
    if part.is_null() {
        return Ok(part.narrowed(0, true_rows(column)));
    }
    let mask = mask_of(alloc, column)?;
    kept(alloc, part, &mask, policy)
}

// What one step that breaks no rule leaves. A slice, and a filter that keeps all, allocate nothing.
fn apply(alloc: Global, part: Part, step: &Step, policy: &Policy) -> Result<Part, NoMemory>
    requires { broken (step_value step.now) (length part.rows) ≡ None }
    ensures step { IfOk result (IsStep part (apply null (step_value step.now) part.rows)
        (type_after_step part.dtype (step_value step.now))) }
    ensures plain { is_slice (step_value step.now) ≡ true → is_plain part ≡ true
        → IsOkAnd result (λ a. is_plain a ≡ true) }
    ensures null { is_null_layout part.layout ≡ true → IsOk result }
{
    match step {
        Step::Slice { start, end } => Ok(part.narrowed(*start, *end)),
        Step::Filter(mask) => kept(alloc, part, mask, policy),
        Step::FilterBy(column) => kept_by(alloc, part, column.array(), policy),
        Step::Take(indices) => {
            let column = part.materialize(alloc)?;
            let taken = take(alloc, &column, indices, policy)?;
            Ok(Part::whole(taken))
        }
    }
}

/// The rows that the steps pick, in order, as a column of the source's type, nullable also where a
/// take's indices are, and unwrapped where the type is flat.
///
/// `Broken` exactly where a step breaks a rule, with the first one, even when memory runs out.
/// `NoMemory` only where none does, and never over layout `Null` or for slices alone over a plain
/// column.
pub fn select(
    alloc: Global,
    column: &Array,
    steps: &[Step],
    policy: &Policy,
) -> Result<Array, SelectError>
    ensures { IsSelection column.now (map step_value steps.now) result }
{
    check_steps(column.len(), steps)?;
    let mut current = Part::whole(column.share());
    for step in steps {
        current = apply(alloc, current, step, policy)?;
    }
    let rows = current.materialize(alloc)?;
    let answer = execute(alloc, &rows, policy)?;
    Ok(answer)
}
