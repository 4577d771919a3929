//! A single step over a column of one node.
ghost use Rattle.std.specs.Prelude.{◌≡◌, ◌*◌, ◌^◌, ◌<◌, ◌∷◌, [], IfErr, IfNone, IfOk, IfSome, OnErr, OnOk, OnSome, false, length, map, true};
ghost use Rattle.vx_arrow.specs.Image.{step_parts};
ghost use Rattle.vx_arrow.specs.Known.{places_of};
ghost use Rattle.vx_arrow_columns.specs.Answer.{IsRefusal};
ghost use Rattle.vx_arrow_image.specs.Image.{column_in, part_of, parts_of};
ghost use Rattle.vx_arrow_columns.specs.Written.{KeepLists, KeepsLists};
ghost use Rattle.vx_arrow_flat.specs.Flat.{HasRoomFor, HasValues, IsFilled, IsServed};
ghost use Rattle.vx_arrow_select.specs.Selected.{AreFilled, AreNeeds, AreTold, IsFault, IsSelected, IsUnmeant};

use crate::writing::write_picks;
use std::alloc::Global;
use vx_arrow::{KnownPicks, StepImage, known_picks};
use vx_arrow_image::{Format, Need, Node, Room, format_of};
use vx_arrow_select::Refusal;
use vx_bits::NoMemory;

// Whether a node has values of a width that is served, no nulls, and values for all rows.
fn has_values(node: &Node) -> bool
    ensures values { result ≡ true → HasValues (part_of node.now) }
    ensures none { result ≡ false → HasValues (part_of node.now) → ⊥ }
{
    let Some(Format::Fixed) = format_of(node.format) else {
        return false;
    };
    let end = node.offset as u128 + node.len as u128;
    matches!(node.width, 1 | 2 | 4 | 8 | 16 | 32)
        && node.valid.is_empty()
        && node.children == 0
        && end < 1 << 60
        && end * node.width as u128 <= node.values.len() as u128
}

// Whether a room is large enough for the rows at picks.
fn has_room(node: &Node, picks: &KnownPicks, room: &Room) -> bool
    ensures room { result ≡ true → HasRoomFor (part_of node.now) (places_of picks.now) room.now }
    ensures short { result ≡ false
        → HasRoomFor (part_of node.now) (places_of picks.now) room.now → ⊥ }
{
    let count = picks.len();
    let bytes = count as u128 * node.width as u128;
    count < 1 << 60 && bytes < 1 << 63 && bytes <= room.values.len() as u128
}

// What the rows of a node at picks need.
fn need_for(node: &Node, picks: &KnownPicks) -> Need
    requires few { length (places_of picks.now) * node.now.width < 2 ^ 63 }
    ensures { result ≡ record {
      len = length (places_of picks.now);
      valid = 0;
      offsets = 0;
      values = length (places_of picks.now) * node.now.width;
      sizes = 0;
    } }
{
    let len = picks.len() as u64;
    Need {
        len,
        valid: 0,
        offsets: 0,
        values: len * node.width,
        sizes: 0,
    }
}

/// Writes the rows that a single step leaves of a column of one node to a room, and returns how
/// many rows and bytes they are.
///
/// It serves values of 1, 2, 4, 8, 16 or 32 bytes without nulls, and a slice, a filter or a take by
/// integers without nulls. It returns `None` exactly for every other column or list of steps, if
/// the step is malformed or invalid, if the node lacks values, and if the room is too small. Fails
/// only with `NoMemory`. The room is as it was unless a need is returned.
pub(crate) fn select_flat(
    alloc: Global,
    nodes: &[Node],
    steps: &[StepImage],
    room: &mut Room,
) -> Result<Option<Need>, NoMemory>
    ensures answer { IfOk result (λ found. OnSome found
        (IsSelected nodes.now (map step_parts steps.now) (room.new ∷ []))) }
    ensures need { IfOk result (λ found. IfSome found
        (λ need. AreNeeds nodes.now (map step_parts steps.now) (need ∷ []))) }
    ensures bytes { IfOk result (λ found. OnSome found
        (IsFilled nodes.now (map step_parts steps.now) room.old room.new)) }
    ensures filled { IfOk result (λ found. OnSome found
        (AreFilled nodes.now (map step_parts steps.now) (room.old ∷ []) (room.new ∷ []))) }
    ensures unserved { IfOk result (λ found. IfNone found
        (IsServed nodes.now (map step_parts steps.now) room.old → ⊥)) }
    ensures lists { KeepsLists room.old room.new }
    ensures kept { IfOk result (λ found. IfNone found (room.new ≡ room.old)) }
    ensures failed { OnErr result (room.new ≡ room.old) }
{
    if nodes.len() != 1 || !has_values(&nodes[0]) {
        return Ok(None);
    }
    let node = &nodes[0];
    let Some(picks) = known_picks(alloc, steps, node.len as usize)? else {
        return Ok(None);
    };
    if !has_room(node, &picks, room) {
        return Ok(None);
    }
    write_picks(node, &picks, room.values);
    Ok(Some(need_for(node, &picks)))
}

// Writes the rows and their need to the only room and need, where `select_flat` serves them.
fn select_one(
    alloc: Global,
    nodes: &[Node],
    steps: &[StepImage],
    needs: &mut [Need],
    rooms: &mut [Room],
) -> bool
    ensures answer { result ≡ true → IsSelected nodes.now (map step_parts steps.now) rooms.new }
    ensures bytes { result ≡ true
        → AreFilled nodes.now (map step_parts steps.now) rooms.old rooms.new }
    ensures needs { result ≡ true → AreNeeds nodes.now (map step_parts steps.now) needs.new }
    ensures lists { KeepLists rooms.old rooms.new }
    ensures kept_needs { result ≡ false → needs.new ≡ needs.old }
    ensures kept_rooms { result ≡ false → rooms.new ≡ rooms.old }
{
    if needs.len() != 1 || rooms.len() != 1 {
        return false;
    }
    match select_flat(alloc, nodes, steps, &mut rooms[0]) {
        Ok(Some(need)) => {
            needs[0] = need;
            true
        }
        _ => false,
    }
}

/// Writes the rows that the steps leave of a column, and what they need, as `select` of
/// `vx_arrow_select` does. For a single step over a column of one node it writes no list of picks.
pub fn select(
    alloc: Global,
    nodes: &[Node],
    steps: &[StepImage],
    needs: &mut [Need],
    rooms: &mut [Room],
) -> Result<(), Refusal>
    ensures answer { OnOk result
        (IsSelected nodes.now (map step_parts steps.now) rooms.new) }
    ensures needs { OnOk result (AreNeeds nodes.now (map step_parts steps.now) needs.new) }
    ensures bytes { OnOk result
        (AreFilled nodes.now (map step_parts steps.now) rooms.old rooms.new) }
    ensures fault { IfErr result (IsFault nodes.now (map step_parts steps.now)
        (λ picks. IsRefusal (parts_of nodes.now) picks (length needs.old) rooms.old)) }
    ensures meant { IfErr result (IsUnmeant (column_in (parts_of nodes.now))) }
    ensures told { IfErr result (AreTold nodes.now (map step_parts steps.now) needs.old
        needs.new (length rooms.old)) }
    ensures lists { KeepLists rooms.old rooms.new }
    ensures kept { OnErr result (rooms.new ≡ rooms.old) }
{
    if select_one(alloc, nodes, steps, needs, rooms) {
        return Ok(());
    }
    vx_arrow_select::select(alloc, nodes, steps, needs, rooms)
}
