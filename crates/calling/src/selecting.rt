//! Rows of columns in memory.
use crate::columns::{dictionary, filtered};
use crate::error::BuildError;
use crate::policies::with_sparse_limit;
use crate::printing::{print_fault, print_numbers, print_row};
use crate::reading::{first_rows, present_rows, row_or_null};
use crate::steps::take_pieces;
use std::alloc::Global;
use std::test::Fail;
use vortex_select::build::{filter, mask, nullable_numbers, numbers, slice, take};
use vortex_select::{Array, Policy, SelectError, Step, select};

/// The values that the codes name.
fn by_codes(
    alloc: Global,
    codes: &[Option<u32>],
    values: &[Option<u32>],
) -> Result<Array, BuildError> {
    dictionary(
        alloc,
        nullable_numbers(alloc, codes)?,
        nullable_numbers(alloc, values)?,
    )
}

/// The rows 10, 40, null, 20, 40, 10, by codes.
fn source(alloc: Global) -> Result<Array, BuildError> {
    let codes = [Some(0), Some(3), None, Some(1), Some(3), Some(0)];
    by_codes(alloc, &codes, &[Some(10), Some(20), None, Some(40)])
}

/// A slice, a filter, a take by a column with a null, and a take by pieces.
fn step_of(alloc: Global, n: usize) -> Result<Step, BuildError> {
    match n {
        0 => Ok(slice(1, 6)),
        1 => Ok(filter(alloc, &[true, true, true, false, true])?),
        2 => Ok(take(alloc, &[Some(3), None, Some(0), Some(1)])?),
        _ => take_pieces(alloc, &[0, 3], &[2, 2], &[2, 0], 4),
    }
}

fn steps_of(alloc: Global) -> Result<Vec<Step>, Fail> {
    let mut steps = Vec::new(alloc);
    for n in 0..4 {
        steps.push(step_of(alloc, n)?)?;
    }
    Ok(steps)
}

/// The answer's rows behind a name, or the rule that a step breaks. `NoMemory` is handed on.
fn print_answer(
    rt: &impl Print,
    alloc: Global,
    name: &str,
    column: &Array,
    steps: &[Step],
    policy: &Policy,
) -> Result<(), Fail> {
    print!(rt; "{name}")?;
    match select(alloc, column, steps, policy) {
        Ok(answer) => print_numbers(rt, &answer),
        Err(SelectError::Broken { step, cause }) => print_fault(rt, step, cause),
        Err(SelectError::NoMemory) => Err(Fail::from(SelectError::NoMemory)),
    }
}

/// What constructors refuse.
pub(crate) fn print_refusals(rt: &impl Print, alloc: Global) -> Result<(), Fail> {
    println!(rt; "code 2 of 2 values: {:?}", refused_codes(alloc))?;
    println!(rt; "a bit for 2 rows: {:?}", refused_mask(alloc)?)?;
    println!(rt; "a sparse limit of 161: {:?}", with_sparse_limit(161).err())?;
    Ok(())
}

fn refused_codes(alloc: Global) -> Option<BuildError> {
    by_codes(alloc, &[Some(1), Some(2)], &[Some(10), Some(20)]).err()
}

fn refused_mask(alloc: Global) -> Result<Option<BuildError>, BuildError> {
    let child = numbers(alloc, &[10_u32, 20])?;
    Ok(filtered(alloc, child, mask(alloc, &[true])?).err())
}

/// Answers under two policies, of a dictionary and of a lazy filter of it.
pub(crate) fn print_answers(rt: &impl Print, alloc: Global) -> Result<(), Fail> {
    let column = source(alloc)?;
    let [present, len] = [present_rows(&column), column.len()];
    println!(rt; "{present} of {len} rows are there")?;
    print_by_policies(rt, alloc, &column, &steps_of(alloc)?)?;
    print_lazy(rt, alloc, &lazy(alloc, column)?)
}

fn print_by_policies(
    rt: &impl Print,
    alloc: Global,
    column: &Array,
    steps: &[Step],
) -> Result<(), Fail> {
    for policy in &[Policy::vortex(), with_sparse_limit(0)?] {
        print_answer(rt, alloc, "steps:", column, steps, policy)?;
    }
    Ok(())
}

/// The column without its third row.
fn lazy(alloc: Global, column: Array) -> Result<Array, BuildError> {
    let kept = mask(alloc, &[true, true, false, true, true, true])?;
    filtered(alloc, column, kept)
}

fn print_lazy(rt: &impl Print, alloc: Global, lazy: &Array) -> Result<(), Fail> {
    let steps = [slice(1, 4)];
    print_answer(
        rt,
        alloc,
        "1..4 of a lazy filter:",
        lazy,
        &steps,
        &Policy::vortex(),
    )
}

/// The first rule that steps break.
pub(crate) fn print_faults(rt: &impl Print, alloc: Global) -> Result<(), Fail> {
    let column = source(alloc)?;
    for n in 0..4 {
        let steps = broken_steps(alloc, n)?;
        print_answer(rt, alloc, "", &column, &steps, &Policy::vortex())?;
    }
    Ok(())
}

/// A step that breaks a rule: of four rows, of five, and twice of six.
fn broken_step(alloc: Global, n: usize) -> Result<Step, BuildError> {
    match n {
        0 => Ok(slice(1, 9)),
        1 => Ok(filter(alloc, &[true; 6])?),
        2 => Ok(take(alloc, &[Some(5), None, Some(6)])?),
        _ => take_pieces(alloc, &[0, 3], &[2, 2], &[2, 0], 5),
    }
}

/// A step that breaks a rule, one before it that leaves four rows or five, and behind it one that
/// isn't looked at any more.
fn broken_steps(alloc: Global, n: usize) -> Result<Vec<Step>, Fail> {
    let broken = broken_step(alloc, n)?;
    if n < 2 {
        Ok(vec![in alloc; slice(0, 4 + n), broken, slice(9, 1)]?)
    } else {
        Ok(vec![in alloc; broken, slice(9, 1)]?)
    }
}

/// Single rows of the answer, and the first rows of a plain column.
pub(crate) fn print_rows(rt: &impl Print, alloc: Global) -> Result<(), Fail> {
    print_first_two(rt, alloc)?;
    print_rows_at(rt, alloc, &source(alloc)?, &steps_of(alloc)?)
}

fn print_rows_at(
    rt: &impl Print,
    alloc: Global,
    column: &Array,
    steps: &[Step],
) -> Result<(), Fail> {
    for i in [1, 2, 9] {
        print_row_at(rt, alloc, column, steps, i)?;
    }
    Ok(())
}

fn print_row_at(
    rt: &impl Print,
    alloc: Global,
    column: &Array,
    steps: &[Step],
    i: usize,
) -> Result<(), Fail> {
    let row = row_or_null(alloc, column, steps, &Policy::vortex(), i)?;
    print!(rt; "row {i}: ")?;
    Ok(print_row(rt, &row)?)
}

fn print_first_two(rt: &impl Print, alloc: Global) -> Result<(), Fail> {
    let plain = numbers(alloc, &[7_u64, 8, 9])?;
    if plain.len() >= 2 {
        print!(rt; "first 2 of 7 8 9:")?;
        print_numbers(rt, &first_rows(alloc, &plain, 2))?;
    }
    Ok(())
}
