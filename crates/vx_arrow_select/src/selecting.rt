//! Steps over a column, composed and taken.
ghost use Rattle.std.specs.Prelude.{◌≡◌, IfErr, IfOk, IfSome, OnErr, OnOk, OnSome, length, map, true};
ghost use Rattle.vx_arrow.specs.Answer.{AreMeant, HasNeed};
ghost use Rattle.vx_arrow.specs.Image.{step_parts};
ghost use Rattle.vx_arrow_image.specs.Image.{column_in, parts_of};
ghost use Rattle.vx_arrow_columns.specs.Answer.{IsRefusal};
ghost use Rattle.vx_arrow_columns.specs.Picks.{picking_of};
ghost use Rattle.vx_arrow_columns.specs.Planned.{first_len};
ghost use Rattle.vx_arrow_columns.specs.Written.{KeepLists};
ghost use Rattle.vx_arrow_select.specs.Selected.{AreComposed, AreFilled, AreNeeds, AreTold, IsFault, IsStepFault, IsSelected, IsUnmeant};

use crate::refusal::Refusal;
use std::alloc::Global;
use vx_arrow::{Need, StepImage, compose, count};
use vx_arrow_columns::{Node, Room, take};

// Picks as places and bits.
#[derive(Drop)]
struct Places {
    places: Vec<u64>,
    valid: Vec<u8>,
}

// Writes the picks that the steps leave of `len` rows to lists that are as long as they need.
fn fill_picks(
    alloc: Global,
    len: usize,
    steps: &[StepImage],
    places: &mut [u64],
    valid: &mut [u8],
) -> Result<(), vx_arrow::Refusal>
    requires { HasNeed len (map step_parts steps.now)
        (record { places = length places.old; valid = length valid.old }) }
    ensures picks { OnOk result (AreComposed len (map step_parts steps.now)
        (picking_of places.new valid.new 0)) }
    ensures meant { OnOk result (AreMeant (map step_parts steps.now)) }
    ensures fault { IfErr result (IsStepFault len (map step_parts steps.now)) }
{
    compose(alloc, len, steps, places, valid)?;
    Ok(())
}

// The kind of a take by numbers.
const TAKE: u64 = 2;

// Whether a take may leave nulls.
fn may_leave_nulls(steps: &[StepImage]) -> bool {
    let mut may = false;
    for k in 0..steps.len() {
        may = may || (steps[k].kind == TAKE && !steps[k].valid.is_empty());
    }
    may
}

// How much room the picks need where the last step is a take that breaks no rule. No list of the
// steps is read.
fn need_of_last(steps: &[StepImage]) -> Option<Need> {
    let last = &steps[steps.len().checked_sub(1)?];
    let len = last.len as usize;
    if last.kind != TAKE || len > last.values.len() {
        return None;
    }
    Some(Need {
        places: len,
        valid: if may_leave_nulls(steps) {
            len.div_ceil(8)
        } else {
            0
        },
    })
}

// Writes the picks that the steps leave of `len` rows, and returns whether these are as many as the
// lists are long.
fn fill_exactly(
    alloc: Global,
    len: usize,
    steps: &[StepImage],
    places: &mut [u64],
    valid: &mut [u8],
) -> Result<bool, vx_arrow::Refusal>
    ensures picks { IfOk result (λ is_exact. is_exact ≡ true
        → AreComposed len (map step_parts steps.now) (picking_of places.new valid.new 0)) }
    ensures meant { IfOk result (λ is_exact. is_exact ≡ true
        → AreMeant (map step_parts steps.now)) }
    ensures fault { IfErr result (IsStepFault len (map step_parts steps.now)) }
{
    match compose(alloc, len, steps, places, valid) {
        Ok(need) => Ok(need.places == places.len() && need.valid == valid.len()),
        Err(vx_arrow::Refusal::Lacking(lacking)) => Err(vx_arrow::Refusal::Lacking(lacking)),
        Err(vx_arrow::Refusal::Broken { step, cause }) => {
            Err(vx_arrow::Refusal::Broken { step, cause })
        }
        Err(vx_arrow::Refusal::Room(_)) => Ok(false),
        Err(vx_arrow::Refusal::NoMemory) => Err(vx_arrow::Refusal::NoMemory),
    }
}

// The picks that the steps leave of `len` rows, where they need just this room.
fn composed_to(
    alloc: Global,
    len: usize,
    steps: &[StepImage],
    need: Need,
) -> Result<Option<Places>, vx_arrow::Refusal>
    ensures picks { IfOk result (λ found. IfSome found (λ c.
        AreComposed len (map step_parts steps.now) (picking_of c.places.items c.valid.items 0))) }
    ensures meant { IfOk result (λ found. OnSome found (AreMeant (map step_parts steps.now))) }
    ensures fault { IfErr result (IsStepFault len (map step_parts steps.now)) }
{
    let Ok(mut places) = vec![in alloc; 0u64; need.places] else {
        return Ok(None);
    };
    let Ok(mut valid) = vec![in alloc; 0u8; need.valid] else {
        return Ok(None);
    };
    if !fill_exactly(alloc, len, steps, &mut places, &mut valid)? {
        return Ok(None);
    }
    Ok(Some(Places { places, valid }))
}

// The picks that the steps leave of `len` rows, which are counted first.
fn counted(alloc: Global, len: usize, steps: &[StepImage]) -> Result<Places, vx_arrow::Refusal>
    ensures picks { IfOk result (λ c. AreComposed len (map step_parts steps.now)
        (picking_of c.places.items c.valid.items 0)) }
    ensures meant { OnOk result (AreMeant (map step_parts steps.now)) }
    ensures fault { IfErr result (IsStepFault len (map step_parts steps.now)) }
{
    let need = count(alloc, len, steps)?;
    let Ok(mut places) = vec![in alloc; 0u64; need.places] else {
        return Err(vx_arrow::Refusal::NoMemory);
    };
    let Ok(mut valid) = vec![in alloc; 0u8; need.valid] else {
        return Err(vx_arrow::Refusal::NoMemory);
    };
    fill_picks(alloc, len, steps, &mut places, &mut valid)?;
    Ok(Places { places, valid })
}

// The picks that the steps leave of `len` rows. Those of a take at the end needn't be counted
// first.
fn composed(alloc: Global, len: usize, steps: &[StepImage]) -> Result<Places, vx_arrow::Refusal>
    ensures picks { IfOk result (λ c. AreComposed len (map step_parts steps.now)
        (picking_of c.places.items c.valid.items 0)) }
    ensures meant { OnOk result (AreMeant (map step_parts steps.now)) }
    ensures fault { IfErr result (IsStepFault len (map step_parts steps.now)) }
{
    if let Some(need) = need_of_last(steps) {
        if let Some(picks) = composed_to(alloc, len, steps, need)? {
            return Ok(picks);
        }
    }
    counted(alloc, len, steps)
}

// How many rows the first node of a table has, and 0 where there is none.
fn len_of(nodes: &[Node]) -> usize
    ensures { result ≡ first_len nodes.now }
{
    match nodes.get(0) {
        Some(node) => node.len as usize,
        None => 0,
    }
}

/// Writes the rows that the steps leave of a column: into each room the lists of a node of the same
/// format, and to `needs` how many rows and bytes these are. Where the table means a column, they
/// are the answer that `select` of `vx_select` gives for these rows and steps. Rows that the steps
/// drop may hold anything.
///
/// The needs are written too where a room is smaller than its need. At every other error they are
/// as they were, and at each error the rooms are.
pub fn select(
    alloc: Global,
    nodes: &[Node],
    steps: &[StepImage],
    needs: &mut [vx_arrow_columns::Need],
    rooms: &mut [Room],
) -> Result<(), Refusal>
    ensures answer { OnOk result
        (IsSelected nodes.now (map step_parts steps.now) rooms.new) }
    ensures needs { OnOk result (AreNeeds nodes.now (map step_parts steps.now) needs.new) }
    ensures bytes { OnOk result
        (AreFilled nodes.now (map step_parts steps.now) rooms.old rooms.new) }
    ensures fault { IfErr result (IsFault nodes.now (map step_parts steps.now)
        (λ picks. IsRefusal (parts_of nodes.now) picks (length needs.old) rooms.old)) }
    ensures meant { IfErr result (IsUnmeant (column_in (parts_of nodes.now))) }
    ensures told { IfErr result (AreTold nodes.now (map step_parts steps.now) needs.old
        needs.new (length rooms.old)) }
    ensures lists { KeepLists rooms.old rooms.new }
    ensures kept { OnErr result (rooms.new ≡ rooms.old) }
{
    let picks = composed(alloc, len_of(nodes), steps)?;
    take(alloc, nodes, &picks.places, &picks.valid, needs, rooms)?;
    Ok(())
}
