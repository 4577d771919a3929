//! The answer to a list of steps by one take.
ghost use Rattle.std.specs.Prelude.{◌≡◌, IfErr, IfOk, None, false, length, map, true};
ghost use Rattle.std.specs.List.{list_all};
ghost use Rattle.vx_types.specs.RowValue.{null};
ghost use Rattle.vx_types.specs.TypeTree.{also_nullable, is_flat};
ghost use Rattle.vx_model.specs.Plain.{is_lazy_layout, is_plain, is_unwrapped};
ghost use Rattle.vx_take.specs.Picks.{at};
ghost use Rattle.vx_pieces.specs.Indices.{index_fault, index_nullability, index_picks, index_value};
ghost use Rattle.vx_steps.specs.Step.{is_slice, step_value};
ghost use Rattle.vx_steps.specs.Walk.{walk, walk_picks};
ghost use Rattle.vx_steps.specs.Compose.{IsFaultOf, takes_nullability};
ghost use Rattle.vx_select.specs.Select.{IsSelection, needs_no_memory};

use crate::picked::pick_indices;
use crate::selection::select;
use std::alloc::Global;
use vx_bits::NoMemory;
use vx_column::{Array, LayoutName};
use vx_dispatch::{execute, take};
use vx_mask::Policy;
use vx_pieces::Indices;
use vx_plain::{ReadLayout, slice_plain};
use vx_steps::{SelectError, Step, compose, takes_nullability};

fn is_slice(step: &Step) -> bool
    ensures { result ≡ is_slice (step_value step.now) }
{
    matches!(step, Step::Slice { .. })
}

// Whether all are slices.
fn are_slices(steps: &[Step]) -> bool
    ensures { result ≡ list_all is_slice (map step_value steps.now) }
{
    for step in steps {
        if !is_slice(step) {
            return false;
        }
    }
    true
}

// Whether a column has all its rows in their places, and one answer for all to which are there.
fn is_plain(column: &Array) -> bool
    ensures { result ≡ is_plain column.now }
{
    slice_plain(column, 0, 0).is_some()
}

// Whether no step takes memory.
fn needs_no_memory(column: &Array, steps: &[Step]) -> bool
    ensures { result ≡ needs_no_memory column.now (map step_value steps.now) }
{
    match column.layout_name() {
        LayoutName::Null => true,
        _ => is_plain(column) && are_slices(steps),
    }
}

// The composed picks as indices of one take.
fn composed_indices(alloc: Global, len: usize, steps: &[Step]) -> Result<Indices, SelectError>
    ensures picks { IfOk result (λ i. walk len (map step_value steps.now)
        ≡ walk_picks (index_picks (index_value i))) }
    ensures sound { IfOk result (λ i. index_fault (index_value i) len ≡ None) }
    ensures nullability { IfOk result (λ i. index_nullability (index_value i)
        ≡ takes_nullability (map step_value steps.now)) }
    ensures fault { IfErr result (IsFaultOf (walk len (map step_value steps.now))) }
{
    let picks = compose(alloc, len, steps)?;
    Ok(pick_indices(alloc, &picks, takes_nullability(steps))?)
}

// The rows that the indices name, unwrapped. The indices are let go before that.
fn taken(
    alloc: Global,
    column: &Array,
    indices: Indices,
    policy: &Policy,
) -> Result<Array, NoMemory>
    requires { index_fault (index_value indices) (length column.now.rows) ≡ None }
    ensures rows { IfOk result
        (λ a. a.rows ≡ at null column.now.rows (index_picks (index_value indices))) }
    ensures dtype { IfOk result (λ a. a.dtype
        ≡ also_nullable column.now.dtype (index_nullability (index_value indices))) }
    ensures unwrapped { is_flat column.now.dtype ≡ true
        → IfOk result (λ a. is_unwrapped a ≡ true) }
    ensures direct { IfOk result (λ a. is_lazy_layout a.layout ≡ false) }
{
    let rows = take(alloc, column, &indices, policy)?;
    drop(indices);
    execute(alloc, &rows, policy)
}

/// The rows that [`select`] returns, by one take of the composed picks. Both have one contract.
///
/// `Broken` exactly where a step breaks a rule, with the first one, even when memory runs out.
/// `NoMemory` only where none does, and never over layout `Null` or for slices alone over a plain
/// column: there it is `select`.
pub fn select_fused(
    alloc: Global,
    column: &Array,
    steps: &[Step],
    policy: &Policy,
) -> Result<Array, SelectError>
    ensures { IsSelection column.now (map step_value steps.now) result }
{
    if needs_no_memory(column, steps) {
        return select(alloc, column, steps, policy);
    }
    let indices = composed_indices(alloc, column.len(), steps)?;
    Ok(taken(alloc, column, indices, policy)?)
}
