//! What rows at picks reach in children that are kept.
ghost use Rattle.std.specs.Prelude.{◌≡◌, ◌+◌, ◌*◌, ◌≤◌, IfErr, IfOk, OnOk, Some, false, length, true};
ghost use Rattle.vx_arrow_image.specs.Image.{format_in, holds_starts, is_list_view, is_placed, is_view, part_of, parts_of};
ghost use Rattle.vx_arrow_columns.specs.Asked.{the_picks};
ghost use Rattle.vx_arrow_columns.specs.Planned.{child_lens, first_len};
ghost use Rattle.vx_arrow_columns.specs.Sound.{IsBelowFault, IsFault};
ghost use Rattle.vx_arrow_columns.specs.Taken.{AllAt, AreInside, AreWithin, IsReadable};

use crate::faults::Fault;
use crate::places::{Picks, place};
use std::alloc::Global;
use vx_arrow_image::{Format, Lack, Node, Offsets, is_list_view, is_view};

/// How many rows the first of these nodes has, and 0 where there is none.
pub(crate) fn first_len(nodes: &[Node]) -> u64
    ensures { result ≡ first_len nodes.now }
{
    match nodes.first() {
        Some(node) => node.len,
        None => 0,
    }
}

// How many bytes each buffer of views of texts has, which are the first of these nodes.
fn buffer_lens(alloc: Global, node: &Node, behind: &[Node]) -> Result<Vec<u64>, Fault>
    ensures lens { IfOk result
        (λ v. v.items ≡ child_lens (part_of node.now) (parts_of behind.now)) }
    ensures fault { IfErr result (IsFault ⊥ ⊥) }
{
    let mut lens = Vec::new(alloc);
    // How many trees of the last buffer's are still to come.
    let mut open = 0;
    for i in 0..behind.len() {
        let below = behind[i].children;
        if open > 0 {
            open = below.saturating_add(open - 1);
        } else if lens.len() as u64 == node.children {
            return Ok(lens);
        } else {
            lens.push(behind[i].len)?;
            open = below;
        }
    }
    Ok(lens)
}

// Whether the texts at the picks lie within buffers of so many bytes.
fn are_views(node: &Node, picks: &Picks, lens: &[u64]) -> bool
    requires placed { is_placed (part_of node.now) ≡ true }
    requires within { AreWithin (the_picks picks.now) node.now.len }
    requires held { 16 * (node.now.offset + node.now.len) ≤ length node.now.values.now }
    ensures all { result ≡ true → AllAt (part_of node.now) (the_picks picks.now)
        (is_view (part_of node.now) lens.now) }
    ensures some { result ≡ false → AllAt (part_of node.now) (the_picks picks.now)
        (is_view (part_of node.now) lens.now) → ⊥ }
{
    for k in 0..picks.places.len() {
        if let Some(i) = place(node, picks, k) {
            if !is_view(node, lens, i) {
                return false;
            }
        }
    }
    true
}

// Whether the items of the lists at the picks are among so many.
fn are_list_views(size: Offsets, node: &Node, picks: &Picks, count: u64) -> bool
    requires placed { is_placed (part_of node.now) ≡ true }
    requires within { AreWithin (the_picks picks.now) node.now.len }
    requires offsets { holds_starts size node.now.offsets.now (node.now.offset + node.now.len)
        ≡ true }
    requires sizes { holds_starts size node.now.sizes.now (node.now.offset + node.now.len)
        ≡ true }
    ensures all { result ≡ true → AllAt (part_of node.now) (the_picks picks.now)
        (is_list_view size (part_of node.now) count) }
    ensures some { result ≡ false → AllAt (part_of node.now) (the_picks picks.now)
        (is_list_view size (part_of node.now) count) → ⊥ }
{
    for k in 0..picks.places.len() {
        if let Some(i) = place(node, picks, k) {
            if !is_list_view(size, node, count, i) {
                return false;
            }
        }
    }
    true
}

// Tests the texts at the picks.
fn test_views(alloc: Global, node: &Node, picks: &Picks, behind: &[Node]) -> Result<(), Fault>
    requires format { format_in node.now.format ≡ Some Format.TextView }
    requires readable { IsReadable (part_of node.now) (the_picks picks.now) }
    ensures inside { OnOk result (AreInside (part_of node.now) (the_picks picks.now)
        (child_lens (part_of node.now) (parts_of behind.now))) }
    ensures fault { IfErr result (IsBelowFault (part_of node.now) (the_picks picks.now)
        (child_lens (part_of node.now) (parts_of behind.now))) }
{
    let lens = buffer_lens(alloc, node, behind)?;
    if !are_views(node, picks, &lens) {
        return Err(Fault::Lacks(Lack::Items));
    }
    Ok(())
}

// Tests the lists at the picks.
fn test_list_views(size: Offsets, node: &Node, picks: &Picks, behind: &[Node]) -> Result<(), Fault>
    requires format { format_in node.now.format ≡ Some (Format.ListView size) }
    requires readable { IsReadable (part_of node.now) (the_picks picks.now) }
    ensures inside { OnOk result (AreInside (part_of node.now) (the_picks picks.now)
        (child_lens (part_of node.now) (parts_of behind.now))) }
    ensures fault { IfErr result (IsBelowFault (part_of node.now) (the_picks picks.now)
        (child_lens (part_of node.now) (parts_of behind.now))) }
{
    if !are_list_views(size, node, picks, first_len(behind)) {
        return Err(Fault::Lacks(Lack::Items));
    }
    Ok(())
}

/// Tests that the rows at picks lie within the children, where these are kept and the first of
/// these nodes.
pub(crate) fn test_inside(
    alloc: Global,
    format: Format,
    node: &Node,
    picks: &Picks,
    behind: &[Node],
) -> Result<(), Fault>
    requires format { format_in node.now.format ≡ Some format }
    requires readable { IsReadable (part_of node.now) (the_picks picks.now) }
    ensures inside { OnOk result (AreInside (part_of node.now) (the_picks picks.now)
        (child_lens (part_of node.now) (parts_of behind.now))) }
    ensures fault { IfErr result (IsBelowFault (part_of node.now) (the_picks picks.now)
        (child_lens (part_of node.now) (parts_of behind.now))) }
{
    match format {
        Format::TextView => test_views(alloc, node, picks, behind),
        Format::ListView(size) => test_list_views(size, node, picks, behind),
        Format::Nulls
        | Format::Bits
        | Format::Fixed
        | Format::Text(_)
        | Format::Struct
        | Format::List(_)
        | Format::FixedList
        | Format::Union
        | Format::DenseUnion => Ok(()),
    }
}
