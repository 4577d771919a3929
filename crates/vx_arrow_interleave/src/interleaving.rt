//! The rows of several columns, and what they need.
ghost use Rattle.std.specs.Prelude.{◌≡◌, IfErr, IfNone, IfOk, IfSome, OnErr, OnOk, length, true};
ghost use Rattle.vx_arrow_columns.specs.Answer.{HaveRoom, IsShort};
ghost use Rattle.vx_arrow_columns.specs.Written.{KeepLists, has_room};
ghost use Rattle.vx_arrow_interleave.specs.Given.{needs_of};
ghost use Rattle.vx_arrow_interleave.specs.Joined.{MeansGathered};
ghost use Rattle.vx_arrow_interleave.specs.Planned.{IsPlanned, groups_of, sources_in};
ghost use Rattle.vx_arrow_interleave.specs.Spots.{spots};
ghost use Rattle.vx_arrow_interleave.specs.Taken.{AreTold, HaveBytes, IsRefusal};

use crate::faults::Refused;
use crate::planning::{Plan, plan_of};
use crate::rooms::write_room;
use crate::sources::Group;
use crate::spans::Span;
use std::alloc::Global;
use vx_arrow_image::{Need, Room};

// Whether a room is as large as a need.
fn has_room(need: &Need, room: &Room) -> bool
    ensures { result ≡ has_room need.now room.now }
{
    need.valid <= room.valid.len() as u64
        && need.offsets <= room.offsets.len() as u64
        && need.values <= room.values.len() as u64
        && need.sizes <= room.sizes.len() as u64
}

// The first room that is smaller than its need.
fn first_short(needs: &[Need], rooms: &[Room]) -> Option<usize>
    requires { length needs.now ≡ length rooms.now }
    ensures none { IfNone result (HaveRoom needs.now rooms.now) }
    ensures short { IfSome result (IsShort needs.now rooms.now) }
{
    for i in 0..needs.len() {
        if !has_room(&needs[i], &rooms[i]) {
            return Some(i);
        }
    }
    None
}

// Writes the rows of each node.
fn write_all(groups: &[Group], plan: &Plan, rooms: &mut [Room], spans: &[Span])
    requires planned { IsPlanned (sources_in groups.now) (groups_of groups.now)
        (spots spans.now) plan.now }
    requires rooms { length rooms.old ≡ length groups.now }
    requires room { HaveRoom plan.now.needs.items rooms.old }
    ensures bytes { HaveBytes (groups_of groups.now) (spots spans.now) rooms.old rooms.new }
    ensures lists { KeepLists rooms.old rooms.new }
{
    for i in 0..groups.len() {
        write_room(
            groups[i].nodes,
            &plan.jobs[i],
            &plan.needs[i],
            &mut rooms[i],
        );
    }
}

/// Writes rows of several columns, one after another: into each room the lists of a node of the
/// columns' format, and to `needs` how many rows and bytes these are.
///
/// The columns are tables of one shape. A group has the nodes at one place of each. A span is rows
/// of one table, counted from its first one. Where all tables mean columns, the rooms hold the rows
/// of these at the spans.
///
/// At `Room`, where there are as many needs and rooms as groups, the needs say what is missing. At
/// each error the rooms are as they were, and at all others so are the needs.
pub fn interleave(
    alloc: Global,
    groups: &[Group],
    spans: &[Span],
    needs: &mut [Need],
    rooms: &mut [Room],
) -> Result<(), Refused>
    ensures needs { OnOk result (needs.new ≡ needs_of (groups_of groups.now) (spots spans.now)) }
    ensures bytes { OnOk result
        (HaveBytes (groups_of groups.now) (spots spans.now) rooms.old rooms.new) }
    ensures meaning { OnOk result (MeansGathered (sources_in groups.now) (groups_of groups.now)
        (spots spans.now) rooms.new) }
    ensures refused { IfErr result (IsRefusal (groups_of groups.now) (spots spans.now)
        (length needs.old) rooms.old) }
    ensures told { IfErr result (AreTold (groups_of groups.now) (spots spans.now) needs.old
        needs.new (length rooms.old)) }
    ensures kept { OnErr result (rooms.new ≡ rooms.old) }
    ensures lists { KeepLists rooms.old rooms.new }
{
    if needs.len() != groups.len() || rooms.len() != groups.len() {
        return Err(Refused::Room { node: groups.len() });
    }
    let plan = plan_of(alloc, groups, spans)?;
    needs.copy_from_slice(&plan.needs);
    if let Some(node) = first_short(needs, rooms) {
        return Err(Refused::Room { node });
    }
    write_all(groups, &plan, rooms, spans);
    Ok(())
}
