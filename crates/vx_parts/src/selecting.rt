//! The answer to a list of steps over a column that is cut into parts.
ghost use Rattle.std.specs.Prelude.{◌≡◌, ◌≢◌, ◌<◌, ◌^◌, Err, IfOk, OnOk, false, length, map, true};
ghost use Rattle.std.specs.List.{All, sum};
ghost use Rattle.vx_types.specs.DType.{type_of};
ghost use Rattle.vx_types.specs.TypeTree.{is_carried, is_flat};
ghost use Rattle.vx_model.specs.Plain.{is_lazy_layout, is_unwrapped};
ghost use Rattle.vx_model.specs.Column.{Column};
ghost use Rattle.vx_steps.specs.Answer.{answer_of};
ghost use Rattle.vx_steps.specs.Compose.{IsUnbroken};
ghost use Rattle.vx_steps.specs.Step.{step_value};
ghost use Rattle.vx_steps.specs.Walk.{walk};
ghost use Rattle.vx_select.specs.Select.{IsAnswer};
ghost use Rattle.vx_interleave.specs.Places.{joined};
ghost use Rattle.vx_interleave.specs.Sources.{AreNulls, rows_of};
ghost use Rattle.vx_steps.specs.declared.cause.SelectError.TheVariants.{NoMemory as OutOfMemory};
ghost use Rattle.vx_parts.specs.Plan.{IsPlan, steps_in};
ghost use Rattle.vx_parts.specs.Putting.{AreOwnUnbroken, ArePartAnswers, IsPartAnswer};

use crate::error::PutError;
use crate::plan::Plan;
use crate::planning::plan_steps;
use crate::putting::put_together;
use std::alloc::Global;
use vx_bits::NoMemory;
use vx_column::{Array, Columns, DType, NullArray};
use vx_interleave::are_nulls;
use vx_mask::Policy;
use vx_select::select;
use vx_steps::{SelectError, Step, check_steps, compose};

// How many rows each column has.
fn lengths_of(alloc: Global, columns: &Columns) -> Result<Vec<usize>, NoMemory>
    ensures { IfOk result (λ lengths. lengths.items ≡ map length (rows_of columns.now)) }
{
    let mut lengths = Vec::with_capacity(alloc, columns.len())?;
    for column in columns.as_slice() {
        lengths.push(column.len())?;
    }
    Ok(lengths)
}

// What a part answers to steps that break no rule over its rows. Fails only with `NoMemory`.
fn part_answer(
    alloc: Global,
    dtype: &DType,
    part: &Array,
    steps: &[Step],
    policy: &Policy,
) -> Result<Array, NoMemory>
    requires of_type { part.now.dtype ≡ type_of dtype.now }
    requires unbroken { IsUnbroken (walk (length part.now.rows) (map step_value steps.now)) }
    ensures { IfOk result
        (IsPartAnswer (type_of dtype.now) part.now.rows (map step_value steps.now)) }
{
    // Only the contract speaks of it.
    let _ = dtype;
    match select(alloc, part, steps, policy) {
        Ok(answer) => Ok(answer),
        Err(SelectError::NoMemory) => Err(NoMemory),
        Err(SelectError::Broken { .. }) => unreachable!(),
    }
}

// What each part answers to its own steps. Fails only with `NoMemory`.
fn part_answers(
    alloc: Global,
    dtype: &DType,
    parts: &Columns,
    plan: &Plan,
    policy: &Policy,
) -> Result<Columns, NoMemory>
    requires of_type { All (λ (c : Column). c.dtype ≡ type_of dtype.now) parts.now }
    requires many { length plan.now.parts.items ≡ length parts.now }
    requires unbroken { AreOwnUnbroken (rows_of parts.now) (steps_in plan.now.parts.items) }
    ensures { IfOk result (ArePartAnswers (type_of dtype.now) (rows_of parts.now)
        (steps_in plan.now.parts.items)) }
{
    let mut answers = Vec::with_capacity(alloc, parts.len())?;
    for k in 0..parts.len() {
        let answer = part_answer(alloc, dtype, parts.get(k), plan.steps_of(k), policy)?;
        answers.push(answer.into_ref(alloc)?)?;
    }
    Columns::new(alloc, answers)
}

// How many rows the columns have.
fn total_rows(columns: &Columns) -> usize
    requires { sum (map length (rows_of columns.now)) < 2 ^ 64 }
    ensures { result ≡ sum (map length (rows_of columns.now)) }
{
    let mut total = 0;
    for column in columns.as_slice() {
        total += column.len();
    }
    total
}

// The plan of steps that break no rule over the whole. Fails only with `NoMemory`.
fn sound_plan(alloc: Global, lengths: &[usize], steps: &[Step]) -> Result<Plan, NoMemory>
    requires counted { sum lengths.now < 2 ^ 64 }
    requires unbroken { IsUnbroken (walk (sum lengths.now) (map step_value steps.now)) }
    ensures { IfOk result (IsPlan lengths.now (map step_value steps.now)) }
{
    match plan_steps(alloc, lengths, steps) {
        Ok(plan) => Ok(plan),
        Err(SelectError::NoMemory) => Err(NoMemory),
        Err(SelectError::Broken { .. }) => unreachable!(),
    }
}

// The answer to steps that break no rule over the whole. Fails only with `NoMemory`.
fn select_sound(
    alloc: Global,
    dtype: &DType,
    parts: &Columns,
    len: usize,
    steps: &[Step],
    policy: &Policy,
) -> Result<Array, NoMemory>
    requires carried { is_carried (type_of dtype.now) ≡ true }
    requires of_type { All (λ (c : Column). c.dtype ≡ type_of dtype.now) parts.now }
    requires len { len ≡ sum (map length (rows_of parts.now)) }
    requires unbroken { IsUnbroken (walk len (map step_value steps.now)) }
    ensures answer { IfOk result (IsPartAnswer (type_of dtype.now) (joined (rows_of parts.now))
        (map step_value steps.now)) }
    ensures direct { IfOk result (λ a. is_lazy_layout a.layout ≡ false) }
    ensures unwrapped { is_flat (type_of dtype.now) ≡ true
        → IfOk result (λ a. is_unwrapped a ≡ true) }
{
    let lengths = lengths_of(alloc, parts)?;
    let plan = sound_plan(alloc, &lengths, steps)?;
    let answers = part_answers(alloc, dtype, parts, &plan, policy)?;
    match put_together(alloc, &plan, dtype, &answers) {
        Ok(answer) => Ok(answer),
        Err(PutError::NoMemory) => Err(NoMemory),
        Err(_) => unreachable!(),
    }
}

/// The answer to the steps of the column whose rows are those of the parts, one behind another: of
/// each part its own answer to its own steps, put together. The parts are of this type, and of any
/// layouts.
///
/// `Broken` exactly where a step breaks a rule over the whole, with the first one, even when
/// memory runs out. `NoMemory` only where none does.
pub fn select_parts(
    alloc: Global,
    dtype: &DType,
    parts: &Columns,
    steps: &[Step],
    policy: &Policy,
) -> Result<Array, SelectError>
    requires carried { is_carried (type_of dtype.now) ≡ true }
    requires of_type { All (λ (c : Column). c.dtype ≡ type_of dtype.now) parts.now }
    requires counted { sum (map length (rows_of parts.now)) < 2 ^ 64 }
    ensures answer { IsAnswer result (answer_of (type_of dtype.now) (joined (rows_of parts.now))
        (map step_value steps.now)) }
    ensures direct { IfOk result (λ a. is_lazy_layout a.layout ≡ false) }
    ensures unwrapped { is_flat (type_of dtype.now) ≡ true
        → IfOk result (λ a. is_unwrapped a ≡ true) }
    ensures null { AreNulls (type_of dtype.now) parts.now → result ≢ Err OutOfMemory }
{
    let len = total_rows(parts);
    if are_nulls(dtype, parts) {
        return select(alloc, &NullArray::new(len).into_array(), steps, policy);
    }
    check_steps(len, steps)?;
    Ok(select_sound(alloc, dtype, parts, len, steps, policy)?)
}
