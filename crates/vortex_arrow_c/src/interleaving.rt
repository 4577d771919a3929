//! Rows of several columns as one.
ghost use Rattle.std.specs.Prelude.{◌≡◌, ◌≢◌, length};
ghost use Rattle.vortex_arrow_c.specs.Interleaved.{IsUnjoined};
ghost use Rattle.vx_arrow_columns.specs.Written.{KeepLists};
ghost use Rattle.vx_arrow_interleave.specs.Given.{needs_of};
ghost use Rattle.vx_arrow_interleave.specs.Joined.{MeansGathered};
ghost use Rattle.vx_arrow_interleave.specs.Planned.{groups_of, sources_in};
ghost use Rattle.vx_arrow_interleave.specs.Spots.{spots};
ghost use Rattle.vx_arrow_interleave.specs.Taken.{AreTold, HaveBytes, IsRefusal};

use crate::answer::Answer;
use std::alloc::Global;
use vx_arrow_columns::{Need, Room};
use vx_arrow_interleave::{Group, Span, interleave};

/// Writes rows of several columns, one after another: to a room for each node the rows of a node
/// of the columns' format, and to a need for each how many rows and bytes these are.
///
/// The columns are tables of one shape. A group has the nodes at one place of each table, and a
/// span is rows of one table.
///
/// | status | stands for |
/// |---|---|
/// | 0 | the rooms hold a column of the same format: the rows at the spans |
/// | 1 | a node, whose number is told, has no meaning in some table, and `what` is what it lacks |
/// | 2 | a span is past the rows of its table, or names none |
/// | 3 | there are not as many needs or rooms as groups, or a room is smaller than its need |
/// | 4 | a node's rows are more than its offsets, or a length, can count |
/// | 5 | memory runs out |
/// | 8 | a node's number of a format names none |
/// | 10 | the nodes at a place, whose number is told, differ in format, width or children |
///
/// What a node lacks has the numbers of
/// [`vortex_arrow_select`](crate::columns::vortex_arrow_select). From 1 on nothing is written to
/// the rooms. The needs are written at 0, and where a room is too small.
#[unsafe(no_mangle)]
pub extern "C" fn vortex_arrow_interleave(
    alloc: Global,
    groups: &[Group],
    spans: &[Span],
    needs: &mut [Need],
    rooms: &mut [Room],
) -> Answer
    ensures rows { result.status ≡ 0 → MeansGathered (sources_in groups.now)
        (groups_of groups.now) (spots spans.now) rooms.new }
    ensures bytes { result.status ≡ 0
        → HaveBytes (groups_of groups.now) (spots spans.now) rooms.old rooms.new }
    ensures needs { result.status ≡ 0
        → needs.new ≡ needs_of (groups_of groups.now) (spots spans.now) }
    ensures refused { result.status ≢ 0 → IsUnjoined (λ e.
        IsRefusal (groups_of groups.now) (spots spans.now) (length needs.old) rooms.old e
        × AreTold (groups_of groups.now) (spots spans.now) needs.old needs.new
        (length rooms.old) e) result }
    ensures lists { KeepLists rooms.old rooms.new }
    ensures kept { result.status ≢ 0 → rooms.new ≡ rooms.old }
{
    Answer::of_interleaving(interleave(alloc, groups, spans, needs, rooms))
}
