//! Reading rows, and what the clauses of `select` say of them.
ghost use Rattle.std.specs.Prelude.{◌≡◌, ◌≤◌, IfErr, IfOk, count_by, length, map, not, take, true};
ghost use Rattle.vortex_select.specs.Row.{row_value};
ghost use Rattle.vortex_select.specs.RowValue.{is_null};
ghost use Rattle.vortex_select.specs.Plain.{is_plain};
ghost use Rattle.vortex_select.specs.Step.{step_value};
ghost use Rattle.vortex_select.specs.Walk.{walk};
ghost use Rattle.vortex_select.specs.Compose.{IsFaultOf};
ghost use Rattle.calling.specs.Picked.{IsPicked};

use std::alloc::Global;
use vortex_select::{Array, Policy, Row, SelectError, Step, row_at, select};

/// Row `i` of what the steps leave: the source's row at the `i`th pick, and null where the pick is
/// null or no such row is left. `select`'s clause `answer` says so.
pub(crate) fn row_or_null(
    alloc: Global,
    column: &Array,
    steps: &[Step],
    policy: &Policy,
    i: usize,
) -> Result<Row, SelectError>
    ensures row { IfOk result (λ r. IsPicked column.now.rows
        (walk (length column.now.rows) (map step_value steps.now)) i (row_value r)) }
    ensures fault { IfErr result (IsFaultOf
        (walk (length column.now.rows) (map step_value steps.now))) }
{
    let answer = select(alloc, column, steps, policy)?;
    if i < answer.len() {
        Ok(row_at(alloc, &answer, i)?)
    } else {
        Ok(Row::Null)
    }
}

/// The first `n` rows of a plain column. It doesn't fail: no step is broken, by `answer`, and no
/// memory is wanted, by `no_memory_wanted`.
pub(crate) fn first_rows(alloc: Global, column: &Array, n: usize) -> Array
    requires plain { is_plain column.now ≡ true }
    requires within { n ≤ length column.now.rows }
    ensures rows { result.rows ≡ take n column.now.rows }
    ensures dtype { result.dtype ≡ column.now.dtype }
{
    let steps = [Step::Slice { start: 0, end: n }];
    match select(alloc, column, &steps, &Policy::vortex()) {
        Ok(answer) => answer,
        Err(_) => unreachable!(),
    }
}

/// How many rows aren't null.
pub(crate) fn present_rows(column: &Array) -> usize
    ensures { result ≡ count_by (λ row. not (is_null row)) column.now.rows }
{
    let mut present = 0;
    for i in 0..column.len() {
        if column.is_valid_at(i) {
            present += 1;
        }
    }
    present
}
