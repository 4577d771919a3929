//! Calls over columns.
ghost use Rattle.std.specs.Prelude.{◌≡◌, ◌≢◌, ◌⊎◌, IsSome, None, length, map};
ghost use Rattle.vortex_arrow_c.specs.Answer.{IsRefused};
ghost use Rattle.vortex_arrow_c.specs.Selected.{IsUnselected};
ghost use Rattle.vx_arrow.specs.Image.{step_parts};
ghost use Rattle.vx_arrow_columns.specs.Answer.{IsRefusal};
ghost use Rattle.vx_arrow_columns.specs.Written.{KeepLists};
ghost use Rattle.vx_arrow_image.specs.Checking.{IsUnsound};
ghost use Rattle.vx_arrow_image.specs.Image.{column_in, parts_of};
ghost use Rattle.vx_arrow_select.specs.Selected.{AreFilled, AreNeeds, AreTold, IsFault, IsSelected};

use crate::answer::{Answer, DONE, NO_MEMORY};
use std::alloc::Global;
use vx_arrow::StepImage;
use vx_arrow_columns::{Need, Node, Room, check};
use vx_arrow_flat::select;
use vx_arrow_guess::guess;

/// Writes about how many rows and bytes `rows` picks of a column take of each node. The picks may
/// be null unless `is_nullable` is 0.
///
/// It is a guess for [`vortex_arrow_select`], which says what the rooms really need. Returns 0, or
/// 5 if memory runs out.
#[unsafe(no_mangle)]
pub extern "C" fn vortex_arrow_guess(
    alloc: Global,
    nodes: &[Node],
    rows: u64,
    is_nullable: u64,
    needs: &mut [Need],
) -> u64
    ensures status { (result ≡ 0) ⊎ (result ≡ 5) }
    ensures count { length needs.new ≡ length needs.old }
{
    match guess(alloc, nodes, rows, is_nullable != 0, needs) {
        Ok(()) => DONE,
        Err(_) => NO_MEMORY,
    }
}

/// Writes the rows that the steps leave of a column: to a room for each node the rows of a node of
/// the same format, and to a need for each how many rows and bytes these are.
///
/// Nothing is written to the rooms of the children of views: they stand in the answer as they do in
/// the column. A list of rows that aren't selected may be anything.
///
/// | status | stands for |
/// |---|---|
/// | 0 | the rooms hold a column of the same format: the rows that `select` leaves |
/// | 1 | a node, whose number is told, has no meaning, and `what` is what it lacks |
/// | 3 | there are not as many needs or rooms as nodes, or a room is smaller than its need |
/// | 4 | a node's rows are more than its offsets, or a length, can count |
/// | 5 | memory runs out |
/// | 6 | a step, whose number is told, breaks a rule, and `what` says which |
/// | 7 | a step's image has no meaning, and `what` is what it lacks |
/// | 8 | a node's number of a format names none |
/// | 9 | the column is a union, and a row is null |
///
/// What a node lacks: 1 the place of a tree, 2 fewer than 2^60 rows, 3 validity, 4 its children,
/// 5 values, 6 offsets, 7 items in order, 8 as many rows as its parent asks for, 9 sizes, 10 the id
/// of a child in each row. [`vortex_arrow_compose`](crate::steps::vortex_arrow_compose) has the
/// numbers of the steps.
///
/// From 1 on nothing is written to the rooms. The needs are written at 0, and where a room is too
/// small: so a caller that has guessed makes larger rooms, and calls again.
#[unsafe(no_mangle)]
pub extern "C" fn vortex_arrow_select(
    alloc: Global,
    nodes: &[Node],
    steps: &[StepImage],
    needs: &mut [Need],
    rooms: &mut [Room],
) -> Answer
    ensures selected { result.status ≡ 0
        → IsSelected nodes.now (map step_parts steps.now) rooms.new }
    ensures bytes { result.status ≡ 0
        → AreFilled nodes.now (map step_parts steps.now) rooms.old rooms.new }
    ensures needs { result.status ≡ 0
        → AreNeeds nodes.now (map step_parts steps.now) needs.new }
    ensures meaning { result.status ≡ 1 → column_in (parts_of nodes.now) ≡ None }
    ensures format { result.status ≡ 8 → column_in (parts_of nodes.now) ≡ None }
    ensures refused { result.status ≢ 0 → IsUnselected (λ e.
        IsFault nodes.now (map step_parts steps.now)
        (λ picks. IsRefusal (parts_of nodes.now) picks (length needs.old) rooms.old) e
        × AreTold nodes.now (map step_parts steps.now) needs.old needs.new
        (length rooms.old) e) result }
    ensures lists { KeepLists rooms.old rooms.new }
    ensures kept { result.status ≢ 0 → rooms.new ≡ rooms.old }
{
    Answer::of_selection(select(alloc, nodes, steps, needs, rooms))
}

/// Tests a whole table: the status is 0 exactly where it means a column, 5 when memory runs out,
/// and else 1 or 8 with a node that lacks something, as [`vortex_arrow_select`] has them.
#[unsafe(no_mangle)]
pub extern "C" fn vortex_arrow_check(alloc: Global, nodes: &[Node]) -> Answer
    ensures sound { result.status ≡ 0 → IsSome (column_in (parts_of nodes.now)) }
    ensures unsound { result.status ≢ 0 → result.status ≢ 5
        → column_in (parts_of nodes.now) ≡ None }
    ensures refused { result.status ≢ 0
        → IsRefused (IsUnsound (column_in (parts_of nodes.now))) result }
{
    Answer::of(check(alloc, nodes))
}
