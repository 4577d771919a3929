//! The parts' answers, put together.
ghost use Rattle.std.specs.Prelude.{◌≡◌, ◌≢◌, ◌<◌, ◌^◌, Err, IfErr, IfOk, IsOk, List, OnOk, false, length, map, true};
ghost use Rattle.std.specs.Bool.{Decides};
ghost use Rattle.std.specs.List.{All, sum};
ghost use Rattle.vx_types.specs.DType.{type_of};
ghost use Rattle.vx_types.specs.RowValue.{RowValue};
ghost use Rattle.vx_types.specs.TypeTree.{is_carried, is_flat};
ghost use Rattle.vx_model.specs.Plain.{is_lazy_layout, is_unwrapped};
ghost use Rattle.vx_steps.specs.Answer.{answer_of, answer_rows};
ghost use Rattle.vx_steps.specs.Step.{StepValue};
ghost use Rattle.vx_interleave.specs.Places.{joined};
ghost use Rattle.vx_interleave.specs.Sources.{AreNulls, IsSourceOf, rows_of};
ghost use Rattle.vx_parts.specs.Plan.{lens_in, order_in};
ghost use Rattle.vx_parts.specs.Putting.{AreAnswersTo, AreFit, IsOrderFor, IsPutFault, answer_fault, part_fault, put_fault, put_rows, put_type};
ghost use Rattle.vx_parts.specs.declared.error.PutError.TheVariants.{NoMemory as OutOfMemory};

use crate::error::PutError;
use crate::plan::{PartPlan, Plan};
use std::alloc::Global;
use vx_bits::NoMemory;
use vx_column::{Array, Columns, DType};
use vx_interleave::{are_places, concatenate, interleave};

// Why a column isn't the answer of part `k`, of this type and of `len` rows.
fn part_fault(k: usize, dtype: &DType, len: usize, answer: &Array) -> Option<PutError>
    ensures { result ≡ part_fault k (type_of dtype.now) len answer.now }
{
    if answer.dtype() != dtype {
        return Some(PutError::WrongType { part: k });
    }
    if answer.len() != len {
        return Some(PutError::WrongLength { part: k });
    }
    None
}

// Why columns, as many as parts, aren't the answers of the parts.
fn answer_fault(parts: &[PartPlan], dtype: &DType, answers: &Columns) -> Option<PutError>
    requires { length answers.now ≡ length parts.now }
    ensures { result ≡ answer_fault 0 (type_of dtype.now) (lens_in parts.now) answers.now }
{
    for k in 0..parts.len() {
        if let Some(fault) = part_fault(k, dtype, parts[k].len, answers.get(k)) {
            return Some(fault);
        }
    }
    None
}

// Why columns aren't the answers of the parts.
fn put_fault(parts: &[PartPlan], dtype: &DType, answers: &Columns) -> Option<PutError>
    ensures { result ≡ put_fault (type_of dtype.now) (lens_in parts.now) answers.now }
{
    if answers.len() != parts.len() {
        return Some(PutError::WrongCount);
    }
    answer_fault(parts, dtype, answers)
}

// Whether the places of the plan's order are those of rows, or of nulls in a type that has them.
fn is_order_for(plan: &Plan, dtype: &DType, answers: &Columns) -> bool
    ensures { Decides result (IsOrderFor (type_of dtype.now) answers.now (order_in plan.now)) }
{
    match &plan.order {
        Some(order) => are_places(dtype, answers, order),
        None => true,
    }
}

// The rows at the places of the plan's order; where there is none, one answer behind another.
fn put_rows(alloc: Global, plan: &Plan, dtype: &DType, answers: &Columns) -> Result<Array, NoMemory>
    requires carried { is_carried (type_of dtype.now) ≡ true }
    requires sources { All (IsSourceOf (type_of dtype.now)) answers.now }
    requires order { IsOrderFor (type_of dtype.now) answers.now (order_in plan.now) }
    ensures dtype { IfOk result (λ a. a.dtype ≡ type_of dtype.now) }
    ensures rows { IfOk result (λ a. a.rows ≡ put_rows (order_in plan.now) (rows_of answers.now)) }
    ensures direct { IfOk result (λ a. is_lazy_layout a.layout ≡ false) }
    ensures unwrapped { is_flat (type_of dtype.now) ≡ true
        → IfOk result (λ a. is_unwrapped a ≡ true) }
    ensures null { AreNulls (type_of dtype.now) answers.now
        → sum (map length (rows_of answers.now)) < 2 ^ 64 → IsOk result }
{
    match &plan.order {
        Some(order) => interleave(alloc, dtype, answers, order),
        None => concatenate(alloc, dtype, answers),
    }
}

/// The answer of the whole, of what each part answered to its own steps: column `k` of `answers`
/// is that of part `k`, of any layout. `dtype` is the type of the parts.
///
/// `WrongCount` exactly where there are not as many columns as parts; else `WrongType` or
/// `WrongLength` exactly where one isn't of the parts' type or hasn't as many rows as the plan
/// says, with the first part; else `WrongOrder` exactly where the plan's order names a row that
/// isn't there, or a null though neither the parts' type nor the plan's steps have nulls.
/// `NoMemory` only where none of these is so: what the parts of a plan of
/// [`plan_steps`](crate::plan_steps) answer is refused for no other reason.
pub fn put_together(
    alloc: Global,
    plan: &Plan,
    dtype: &DType,
    answers: &Columns,
) -> Result<Array, PutError>
    requires carried { is_carried (type_of dtype.now) ≡ true }
    ensures dtype { IfOk result (λ a. a.dtype ≡ put_type (type_of dtype.now) plan.now) }
    ensures rows { IfOk result (λ a. a.rows ≡ put_rows (order_in plan.now) (rows_of answers.now)) }
    ensures whole { IfOk result (λ a. (parts : List (List RowValue)) → (steps : List StepValue)
        → AreAnswersTo (type_of dtype.now) parts steps plan.now answers.now
        → answer_of (type_of dtype.now) (joined parts) steps ≡ answer_rows a.dtype a.rows) }
    ensures fit { OnOk result (AreFit (type_of dtype.now) plan.now answers.now) }
    ensures fault { IfErr result (IsPutFault (type_of dtype.now) plan.now answers.now) }
    ensures own { IfErr result (λ e. (parts : List (List RowValue)) → (steps : List StepValue)
        → AreAnswersTo (type_of dtype.now) parts steps plan.now answers.now → e ≡ OutOfMemory) }
    ensures direct { IfOk result (λ a. is_lazy_layout a.layout ≡ false) }
    ensures unwrapped { is_flat (type_of dtype.now) ≡ true
        → IfOk result (λ a. is_unwrapped a ≡ true) }
    ensures null { AreNulls (type_of dtype.now) answers.now
        → sum (map length (rows_of answers.now)) < 2 ^ 64 → result ≢ Err OutOfMemory }
{
    if let Some(fault) = put_fault(&plan.parts, dtype, answers) {
        return Err(fault);
    }
    let dtype = dtype.also_nullable(plan.nullability);
    if !is_order_for(plan, &dtype, answers) {
        return Err(PutError::WrongOrder);
    }
    Ok(put_rows(alloc, plan, &dtype, answers)?)
}
