//! Plans over columns of lists.
ghost use Rattle.std.specs.Prelude.{◌≡◌, ◌≤◌, length, true, IfOk};
ghost use Rattle.vx_model.specs.List.{list_spans};
ghost use Rattle.vx_model.specs.ListView.{listview_spans};
ghost use Rattle.vx_model.specs.Valid.{is_fitting};
ghost use Rattle.vx_column.specs.Validity.{valid_of};

use crate::arguments::{column_at, indices_at, mask_at, policy_at, range_at, validity_at};
use crate::lines::{push_column, push_mask, push_part, push_shown};
use rows_common::{check_slice, some_of};
use serde_json::Value;
use std::alloc::Global;
use std::test::Fail;
use vx_column::{FixedSizeListArray, Layout, ListArray, ListViewArray, PrimitiveArray, Validity};
use vx_lists::{
    FixedFilterPlan, FixedTakePlan, ListFilterPlan, ListTakePlan, ViewPlan, plan_fixed_filter,
    plan_fixed_take, plan_list_filter, plan_list_take, plan_view_filter, plan_view_take,
    slice_list, slice_view,
};
use vx_take::Picks;

/// The picks among so many lists.
fn picks_at(alloc: Global, row: &Value, len: usize) -> Result<Picks, Fail> {
    let indices = indices_at(alloc, row)?;
    match indices.fault(len) {
        None => Ok(indices.picks(alloc, len)?),
        Some(_) => Err("a pick past the lists".into()),
    }
}

/// That the validity fits so many rows.
fn check_fitting(validity: &Validity, rows: usize) -> Result<(), Fail>
    ensures { IfOk result (λ _. is_fitting (valid_of validity.now) rows ≡ true) }
{
    if !validity.is_fitting(rows) {
        return Err("another number of rows".into());
    }
    Ok(())
}

/// The picks among so many lists, and the validity of the rows at them.
fn take_at(alloc: Global, row: &Value, len: usize) -> Result<(Picks, Validity), Fail>
    ensures bound { IfOk result (λ t. t.0.bound ≤ len) }
    ensures fitting { IfOk result
        (λ t. is_fitting (valid_of t.1) (length t.0.picks) ≡ true) }
{
    let (picks, validity) = (picks_at(alloc, row, len)?, validity_at(alloc, row)?);
    if picks.bound() > len {
        return Err("a pick past the lists".into());
    }
    check_fitting(&validity, picks.len())?;
    Ok((picks, validity))
}

/// Appends the numbers of a column, behind its name.
fn push_numbers(
    lines: &mut String,
    alloc: Global,
    name: &str,
    numbers: &PrimitiveArray,
) -> Result<(), Fail> {
    lines.push_str("=: ")?;
    lines.push_str(name)?;
    lines.push('\n')?;
    push_column(lines, alloc, &numbers.share().into_array())
}

// How many rows it has.
#[tactic(auto, using(vx_model::proofs::ListRows::list_rows))]
fn lists_in(array: &ListArray) -> usize
    ensures { result ≡ length (list_spans array.now).spans }
{
    array.offsets().values().len().saturating_sub(1)
}

// How many rows it has.
#[tactic(auto, using(vx_model::proofs::ListRows::listview_rows))]
fn views_in(array: &ListViewArray) -> usize
    ensures { result ≡ length (listview_spans array.now).spans }
{
    array.offsets().values().len()
}

fn list_filter(alloc: Global, row: &Value, array: &ListArray) -> Result<ListFilterPlan, Fail> {
    let (mask, validity) = (mask_at(alloc, row)?, validity_at(alloc, row)?);
    let mask = some_of(&mask, lists_in(array))?;
    check_fitting(&validity, mask.true_count())?;
    Ok(plan_list_filter(alloc, array, mask, &policy_at(row)?, validity)?)
}

fn list_take(alloc: Global, row: &Value, array: &ListArray) -> Result<ListTakePlan, Fail> {
    let (picks, validity) = take_at(alloc, row, lists_in(array))?;
    Ok(plan_list_take(alloc, array, &picks, validity)?)
}

fn push_list_slice(
    lines: &mut String,
    alloc: Global,
    row: &Value,
    array: &ListArray,
) -> Result<(), Fail> {
    let (start, end) = range_at(row)?;
    check_slice(start, end, lists_in(array))?;
    let rows = slice_list(array, start, end, Validity::NonNullable);
    push_numbers(lines, alloc, "offsets", rows.offsets())?;
    push_part(lines, "elements", &rows.elements().len())
}

fn push_list_plan(
    lines: &mut String,
    alloc: Global,
    row: &Value,
    array: &ListArray,
    call: &str,
) -> Result<(), Fail> {
    match call {
        "plan_filter" => {
            let plan = list_filter(alloc, row, array)?;
            push_numbers(lines, alloc, "offsets", &plan.offsets)?;
            push_part(lines, "elements", &plan.range)?;
            push_mask(lines, "=: mask ", &plan.mask)
        }
        "plan_take" => {
            let plan = list_take(alloc, row, array)?;
            push_numbers(lines, alloc, "offsets", &plan.offsets)?;
            push_part(lines, "runs", &plan.runs.as_slice())
        }
        _ => push_list_slice(lines, alloc, row, array),
    }
}

fn view_take(alloc: Global, row: &Value, array: &ListViewArray) -> Result<ViewPlan, Fail> {
    let (picks, validity) = take_at(alloc, row, views_in(array))?;
    Ok(plan_view_take(alloc, array, &picks, validity)?)
}

fn view_filter(alloc: Global, row: &Value, array: &ListViewArray) -> Result<ViewPlan, Fail> {
    let (mask, validity) = (mask_at(alloc, row)?, validity_at(alloc, row)?);
    let mask = some_of(&mask, views_in(array))?;
    check_fitting(&validity, mask.true_count())?;
    Ok(plan_view_filter(alloc, array, mask, &policy_at(row)?, validity)?)
}

fn push_views(
    lines: &mut String,
    alloc: Global,
    offsets: &PrimitiveArray,
    sizes: &PrimitiveArray,
) -> Result<(), Fail> {
    push_numbers(lines, alloc, "offsets", offsets)?;
    push_numbers(lines, alloc, "sizes", sizes)
}

fn push_view_plan(
    lines: &mut String,
    alloc: Global,
    row: &Value,
    array: &ListViewArray,
    call: &str,
) -> Result<(), Fail> {
    let plan = match call {
        "plan_filter" => view_filter(alloc, row, array)?,
        "plan_take" => view_take(alloc, row, array)?,
        _ => {
            let (start, end) = range_at(row)?;
            check_slice(start, end, views_in(array))?;
            let rows = slice_view(array, start, end, Validity::NonNullable);
            return push_views(lines, alloc, rows.offsets(), rows.sizes());
        }
    };
    push_views(lines, alloc, &plan.offsets, &plan.sizes)
}

fn fixed_filter(
    alloc: Global,
    row: &Value,
    array: &FixedSizeListArray,
) -> Result<FixedFilterPlan, Fail> {
    let (mask, validity) = (mask_at(alloc, row)?, validity_at(alloc, row)?);
    let mask = some_of(&mask, array.len())?;
    check_fitting(&validity, mask.true_count())?;
    Ok(plan_fixed_filter(alloc, array, mask, &policy_at(row)?, validity)?)
}

fn fixed_take(
    alloc: Global,
    row: &Value,
    array: &FixedSizeListArray,
) -> Result<FixedTakePlan, Fail> {
    let (picks, validity) = take_at(alloc, row, array.len())?;
    Ok(plan_fixed_take(alloc, array, &picks, validity)?)
}

fn push_fixed_plan(
    lines: &mut String,
    alloc: Global,
    row: &Value,
    array: &FixedSizeListArray,
    call: &str,
) -> Result<(), Fail> {
    if call == "plan_filter" {
        let plan = fixed_filter(alloc, row, array)?;
        push_mask(lines, "=: mask ", &plan.mask)?;
        return push_shown(lines, &plan.mask.cached_slices());
    }
    let plan = fixed_take(alloc, row, array)?;
    push_part(lines, "runs", &plan.runs.as_slice())?;
    push_part(lines, "filler", &plan.filler)
}

/// Appends what a plan or a slice gives of a column of lists.
pub(crate) fn push_plan(
    lines: &mut String,
    alloc: Global,
    row: &Value,
    call: &str,
) -> Result<(), Fail> {
    match column_at(alloc, row, "column")?.layout() {
        Layout::List(array) => push_list_plan(lines, alloc, row, array, call),
        Layout::ListView(array) => push_view_plan(lines, alloc, row, array, call),
        Layout::FixedSizeList(array) => push_fixed_plan(lines, alloc, row, array, call),
        _ => Err("no lists".into()),
    }
}
