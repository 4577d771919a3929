//! A column's rows at picks, and what they need.
ghost use Rattle.std.specs.Prelude.{◌≡◌, ◌≤◌, IfErr, IfNone, IfSome, OnErr, OnOk, false, length, IsSome, true};
ghost use Rattle.vx_arrow_columns.specs.Answer.{AreKeptSound, AreTaken, AreTold, HaveRoom, IsRefusal, IsShort, IsUnmeant, MeansPicked};
ghost use Rattle.vx_arrow_image.specs.Image.{column_in, format_in, part_of, parts_of};
ghost use Rattle.vx_arrow_columns.specs.Bytes.{AreBytes, HasBytes, HaveBytes, KeepsPast};
ghost use Rattle.vx_arrow_columns.specs.Picks.{need_of, needs_of, picking_of};
ghost use Rattle.vx_arrow_columns.specs.Planned.{Fits, IsListed, IsPlanned, picking_in};
ghost use Rattle.vx_arrow_columns.specs.Written.{IsRoomTaken, KeepLists, KeepsLists, has_room, written};
ghost use Rattle.vx_arrow_columns.specs.Taken.{IsReadable};

use crate::places::Places;
use crate::plan::{Job, JobPicks, Plan, picks_for, plan_of};
use crate::writing::{write_node, write_plain};
use std::alloc::Global;
use vx_arrow_image::{Need, Node, Refusal, Room};

// Whether a room is as large as a need.
fn has_room(need: &Need, room: &Room) -> bool
    ensures { result ≡ has_room need.now room.now }
{
    need.valid <= room.valid.len() as u64
        && need.offsets <= room.offsets.len() as u64
        && need.values <= room.values.len() as u64
        && need.sizes <= room.sizes.len() as u64
}

// The first room that is smaller than its need.
fn first_short(needs: &[Need], rooms: &[Room]) -> Option<usize>
    requires { length needs.now ≡ length rooms.now }
    ensures none { IfNone result (HaveRoom needs.now rooms.now) }
    ensures short { IfSome result (IsShort needs.now rooms.now) }
{
    for i in 0..needs.len() {
        if !has_room(&needs[i], &rooms[i]) {
            return Some(i);
        }
    }
    None
}

// Writes a node's rows at the picks of a job, or nothing where it is kept.
fn write_job<'a>(
    node: &Node,
    places: &'a [u64],
    valid: &'a [u8],
    lists: &'a [Places],
    job: Job,
    bits: &mut [u8],
    offsets: &mut [u8],
    values: &mut [u8],
    sizes: &mut [u8],
)
    requires listed { IsListed job (length lists.now) }
    requires fits { Fits (part_of node.now) lists.now job }
    requires readable { (picking_in places.now valid.now lists.now job).kept ≡ false
        → IsReadable (part_of node.now) (picking_in places.now valid.now lists.now job).picks }
    requires bits { length bits.old ≡ (need_of (part_of node.now)
        (picking_in places.now valid.now lists.now job)).valid }
    requires offsets { length offsets.old ≡ (need_of (part_of node.now)
        (picking_in places.now valid.now lists.now job)).offsets }
    requires values { length values.old ≡ (need_of (part_of node.now)
        (picking_in places.now valid.now lists.now job)).values }
    requires sizes { length sizes.old ≡ (need_of (part_of node.now)
        (picking_in places.now valid.now lists.now job)).sizes }
    ensures { (picking_in places.now valid.now lists.now job).kept ≡ false
        → AreBytes (part_of node.now) (picking_in places.now valid.now lists.now job)
        bits.new offsets.new values.new sizes.new }
{
    match picks_for(places, valid, lists, job) {
        JobPicks::Kept => {}
        JobPicks::Runs(runs) => write_plain(node, &runs, values),
        JobPicks::Each(picks) => write_node(node, &picks, bits, offsets, values, sizes),
    }
}

// Writes them to the first bytes of lists, as many as are needed. No byte behind these changes.
fn write_front<'a>(
    node: &Node,
    places: &'a [u64],
    valid: &'a [u8],
    lists: &'a [Places],
    job: Job,
    need: &Need,
    bits: &mut [u8],
    offsets: &mut [u8],
    values: &mut [u8],
    sizes: &mut [u8],
)
    requires listed { IsListed job (length lists.now) }
    requires fits { Fits (part_of node.now) lists.now job }
    requires readable { (picking_in places.now valid.now lists.now job).kept ≡ false
        → IsReadable (part_of node.now) (picking_in places.now valid.now lists.now job).picks }
    requires need { need.now
        ≡ need_of (part_of node.now) (picking_in places.now valid.now lists.now job) }
    requires bits { need.now.valid ≤ length bits.old }
    requires offsets { need.now.offsets ≤ length offsets.old }
    requires values { need.now.values ≤ length values.old }
    requires sizes { need.now.sizes ≤ length sizes.old }
    ensures bytes { (picking_in places.now valid.now lists.now job).kept ≡ false
        → AreBytes (part_of node.now) (picking_in places.now valid.now lists.now job)
        bits.new offsets.new values.new sizes.new }
    ensures past_bits { KeepsPast need.now.valid bits.old bits.new }
    ensures past_offsets { KeepsPast need.now.offsets offsets.old offsets.new }
    ensures past_values { KeepsPast need.now.values values.old values.new }
    ensures past_sizes { KeepsPast need.now.sizes sizes.old sizes.new }
{
    write_job(
        node,
        places,
        valid,
        lists,
        job,
        &mut bits[..need.valid as usize],
        &mut offsets[..need.offsets as usize],
        &mut values[..need.values as usize],
        &mut sizes[..need.sizes as usize],
    );
}

// Writes them to a room that is as large as their need.
fn write_room<'a>(
    node: &Node,
    places: &'a [u64],
    valid: &'a [u8],
    lists: &'a [Places],
    job: Job,
    need: &Need,
    room: &mut Room,
)
    requires listed { IsListed job (length lists.now) }
    requires fits { Fits (part_of node.now) lists.now job }
    requires readable { (picking_in places.now valid.now lists.now job).kept ≡ false
        → IsReadable (part_of node.now) (picking_in places.now valid.now lists.now job).picks }
    requires need { need.now
        ≡ need_of (part_of node.now) (picking_in places.now valid.now lists.now job) }
    requires room { has_room need.now room.old ≡ true }
    ensures bytes { HasBytes (part_of node.now)
        (picking_in places.now valid.now lists.now job) room.old room.new }
    ensures taken { IsRoomTaken (part_of node.now)
        (picking_in places.now valid.now lists.now job) room.new }
    ensures lists { KeepsLists room.old room.new }
{
    write_front(
        node,
        places,
        valid,
        lists,
        job,
        need,
        room.valid,
        room.offsets,
        room.values,
        room.sizes,
    );
}

// Writes the rows of each node.
fn write_all<'a>(
    nodes: &[Node],
    places: &'a [u64],
    valid: &'a [u8],
    plan: &'a Plan,
    rooms: &mut [Room],
)
    requires planned { IsPlanned (parts_of nodes.now) places.now valid.now plan.now }
    requires rooms { length rooms.old ≡ length nodes.now }
    requires room { HaveRoom plan.now.needs.items rooms.old }
    ensures bytes { HaveBytes (parts_of nodes.now) (picking_of places.now valid.now 0)
        rooms.old rooms.new }
    ensures taken { AreTaken (parts_of nodes.now) (picking_of places.now valid.now 0) rooms.new }
    ensures lists { KeepLists rooms.old rooms.new }
{
    for i in 0..nodes.len() {
        write_room(
            &nodes[i],
            places,
            valid,
            &plan.lists,
            plan.jobs[i],
            &plan.needs[i],
            &mut rooms[i],
        );
    }
}

/// Writes the rows of a column at picks: into each room the lists of a node of the same format, and
/// to `needs` how many rows and bytes these are. The children of views are kept: their nodes stand
/// in the answer as they do in the column, they need no bytes, and nothing is written to their
/// rooms.
///
/// A pick is a row's number, counted from the first one. It is null where its bit of `valid` is
/// clear, and then not looked at. No bits: none is null. Only what stands at picks is looked at,
/// and a node's own numbers. Rows that aren't picked may hold anything.
///
/// Fails with `NoMeaning` where that has none, with `Beyond` where a pick that isn't null is past
/// the rows, with `NullPick` where the column is a union and a pick is null, with `Overflow` where
/// rows are too many to be counted, with `Room` where there are not as many rooms or needs as nodes
/// or a room is smaller than its need, and with `NoMemory`. The rooms are as they were then. The
/// needs are as they were too, unless it was a room that is too small: these needs are what it
/// takes.
pub fn take(
    alloc: Global,
    nodes: &[Node],
    places: &[u64],
    valid: &[u8],
    needs: &mut [Need],
    rooms: &mut [Room],
) -> Result<(), Refusal>
    ensures bytes { OnOk result (HaveBytes (parts_of nodes.now)
        (picking_of places.now valid.now 0) rooms.old rooms.new) }
    ensures picked { OnOk result (MeansPicked (parts_of nodes.now)
        (picking_of places.now valid.now 0) rooms.new) }
    ensures sound { OnOk result (AreKeptSound (parts_of nodes.now)
        (picking_of places.now valid.now 0) → IsSome (column_in
        (written (parts_of nodes.now) (picking_of places.now valid.now 0) rooms.new))) }
    ensures needs { OnOk result
        (needs.new ≡ needs_of (parts_of nodes.now) (picking_of places.now valid.now 0)) }
    ensures lists { KeepLists rooms.old rooms.new }
    ensures refused { IfErr result (IsRefusal (parts_of nodes.now)
        (picking_of places.now valid.now 0) (length needs.old) rooms.old) }
    ensures meant { IfErr result (IsUnmeant (column_in (parts_of nodes.now))) }
    ensures told { IfErr result (AreTold (parts_of nodes.now)
        (picking_of places.now valid.now 0) needs.old needs.new (length rooms.old)) }
    ensures kept { OnErr result (rooms.new ≡ rooms.old) }
{
    if rooms.len() != nodes.len() {
        return Err(Refusal::Room { node: nodes.len() });
    }
    if needs.len() != nodes.len() {
        return Err(Refusal::Room { node: nodes.len() });
    }
    let plan = match plan_of(alloc, nodes, places, valid) {
        Ok(plan) => plan,
        Err(refusal) => return Err(refusal),
    };
    needs.copy_from_slice(&plan.needs);
    if let Some(node) = first_short(&plan.needs, rooms) {
        return Err(Refusal::Room { node });
    }
    write_all(nodes, places, valid, &plan, rooms);
    Ok(())
}
