//! Columns side by side, the fields of a struct or the variants of a union: a step over each.
ghost use Rattle.std.specs.Prelude.{◌≡◌, ◌≤◌, ◌<◌, length, slice_range, true, IfOk};
ghost use Rattle.std.specs.List.{items_where_true};
ghost use Rattle.vx_types.specs.RowValue.{null};
ghost use Rattle.vx_mask.specs.Mask.{mask_bits};
ghost use Rattle.vx_take.specs.Picks.{at};
ghost use Rattle.vx_positions.specs.Positions.{AllThere};
ghost use Rattle.vx_model.specs.Columns.{AreCuts, AreSteps, are_long};

use crate::filtering::filter;
use crate::lists::execute_elements;
use crate::slicing::slice;
use crate::taking::take_picks;
use std::alloc::Global;
use vx_bits::NoMemory;
use vx_column::{Columns, Nullability};
use vx_mask::{Mask, Policy};
use vx_take::Picks;

/// The rows of each column at the set positions of a mask that is as long.
#[cycle(filter)]
#[tactic(auto, using(crate::proofs::EachColumn::each_column))]
pub(crate) fn filter_each(
    alloc: Global,
    columns: &Columns,
    mask: &Mask,
    policy: &Policy,
) -> Result<Columns, NoMemory>
    requires { are_long (length (mask_bits mask.now)) columns.now ≡ true }
    ensures { IfOk result (AreCuts (items_where_true (mask_bits mask.now)) columns.now) }
{
    let mut cut = Vec::with_capacity(alloc, columns.len())?;
    for column in columns.as_slice() {
        cut.push(filter(alloc, column, mask, policy)?.into_ref(alloc)?)?;
    }
    Columns::new(alloc, cut)
}

/// The rows from `start` up to `end` of each column, of `len` rows.
#[cycle(slice)]
#[tactic(auto, using(crate::proofs::EachColumn::each_column))]
pub(crate) fn slice_each(
    alloc: Global,
    columns: &Columns,
    len: usize,
    start: usize,
    end: usize,
) -> Result<Columns, NoMemory>
    requires long { are_long len columns.now ≡ true }
    requires ordered { start ≤ end }
    requires within { end ≤ len }
    ensures { IfOk result (AreCuts (λ rows. slice_range rows start end) columns.now) }
{
    // Only the contract speaks of it.
    let _ = len;
    let mut cut = Vec::with_capacity(alloc, columns.len())?;
    for column in columns.as_slice() {
        cut.push(slice(alloc, column, start, end)?.into_ref(alloc)?)?;
    }
    Columns::new(alloc, cut)
}

/// The rows of each column at the picks, none of which is a null.
#[cycle(take)]
#[tactic(auto, using(crate::proofs::EachColumn::each_column))]
pub(crate) fn take_each(
    alloc: Global,
    columns: &Columns,
    picks: &Picks,
    policy: &Policy,
) -> Result<Columns, NoMemory>
    requires long { are_long picks.now.bound columns.now ≡ true }
    requires there { AllThere picks.now.picks }
    ensures { IfOk result (AreSteps (λ rows. at null rows picks.now.picks) columns.now) }
{
    let mut taken = Vec::with_capacity(alloc, columns.len())?;
    for column in columns.as_slice() {
        let copy = picks.copied(alloc)?;
        let rows = take_picks(alloc, column, copy, Nullability::NonNullable, policy)?;
        taken.push(rows.into_ref(alloc)?)?;
    }
    Columns::new(alloc, taken)
}

/// Each column executed, except where one value or one code stands for all its rows: they may be
/// more than any memory holds.
#[cycle(execute)]
#[tactic(auto, using(crate::proofs::EachColumn::each_column))]
pub(crate) fn execute_each(
    alloc: Global,
    columns: &Columns,
    policy: &Policy,
) -> Result<Columns, NoMemory>
    ensures { IfOk result (AreSteps (λ rows. rows) columns.now) }
{
    let mut executed = Vec::with_capacity(alloc, columns.len())?;
    for column in columns.as_slice() {
        executed.push(execute_elements(alloc, column, policy)?.into_ref(alloc)?)?;
    }
    Columns::new(alloc, executed)
}
