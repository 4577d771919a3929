//! Steps over a column that lies in parts: the plan, the parts' answers, and these put together.

use crate::arguments::{policy_at, steps_at};
use crate::lines::{push_column, push_shown};
use crate::parted::{columns_at, lengths_of};
use serde_json::Value;
use std::alloc::Global;
use std::test::Fail;
use vx_parts::{Plan, PutError, plan_steps, put_together, total_len};
use vx_select::{SelectError, select};
use vx_table::Columns;

/// The plan of the steps over parts of these lengths, or the step that is broken.
fn plan_of(
    alloc: Global,
    row: &Value,
    lengths: &[usize],
) -> Result<Result<Plan, SelectError>, Fail> {
    if total_len(lengths).is_none() {
        return Err("more rows than can be counted".into());
    }
    Ok(plan_steps(alloc, lengths, steps_at(alloc, row)?.as_slice()))
}

/// What each part answers to its own steps.
fn answers_of(alloc: Global, row: &Value, parts: &Columns, plan: &Plan) -> Result<Columns, Fail> {
    let policy = policy_at(row)?;
    let mut answers = Vec::new(alloc);
    for k in 0..parts.len() {
        if k >= plan.parts.len() {
            return Err("a part that isn't planned".into());
        }
        let answer = select(alloc, parts.get(k), plan.steps_of(k), &policy)?;
        answers.push(answer.into_ref(alloc)?)?;
    }
    Ok(Columns::new(alloc, answers)?)
}

/// Appends how many steps each part is asked, and how many rows they leave.
fn push_asked(lines: &mut String, plan: &Plan) -> Result<(), Fail> {
    for k in 0..plan.parts.len() {
        writeln!(
            lines,
            "=: {} steps, {} rows",
            plan.steps_of(k).len(),
            plan.len_of(k)
        )?;
    }
    Ok(())
}

/// Appends where each row of the answer stands, where the plan has an order.
fn push_order(lines: &mut String, plan: &Plan) -> Result<(), Fail> {
    let Some(order) = &plan.order else {
        return Ok(());
    };
    write!(lines, "=: order")?;
    for place in order {
        match place {
            Some(place) => write!(lines, " {}:{}", place.column, place.row)?,
            None => write!(lines, " null")?,
        }
    }
    writeln!(lines, "")?;
    Ok(())
}

/// Appends what the answers are put together to, or why they aren't.
fn push_put(
    lines: &mut String,
    alloc: Global,
    plan: &Plan,
    parts: &Columns,
    answers: &Columns,
) -> Result<(), Fail> {
    if parts.len() == 0 {
        return Err("no part has a type".into());
    }
    match put_together(alloc, plan, parts.get(0).dtype(), answers) {
        Ok(column) => push_column(lines, alloc, &column),
        Err(error) => push_shown::<PutError>(lines, &error),
    }
}

/// Appends the plan of steps over parts, and what their answers, or those that the row has, are put
/// together to.
pub(crate) fn push_parts(lines: &mut String, alloc: Global, row: &Value) -> Result<(), Fail> {
    let parts = columns_at(alloc, row, "parts")?;
    let lengths = lengths_of(alloc, &parts)?;
    let plan = match plan_of(alloc, row, &lengths)? {
        Ok(plan) => plan,
        Err(error) => return push_shown(lines, &error),
    };
    push_asked(lines, &plan)?;
    push_order(lines, &plan)?;
    if row.get("answers").is_some() {
        return push_put(
            lines,
            alloc,
            &plan,
            &parts,
            &columns_at(alloc, row, "answers")?,
        );
    }
    push_put(
        lines,
        alloc,
        &plan,
        &parts,
        &answers_of(alloc, row, &parts, &plan)?,
    )
}
