//! Whether a table of nodes means a column.
ghost use Rattle.std.specs.Prelude.{◌≡◌, ◌+◌, ◌^◌, ◌<◌, IfErr, IsSome, MatchOption, OnOk, true, false};
ghost use Rattle.vx_arrow_image.specs.Checking.{IsUnsound};
ghost use Rattle.vx_arrow_image.specs.Image.{column_in, is_sound, part_of, parts_of};

use crate::fitting::{all_long, are_tagged, fits, placed};
use crate::format::{Format, Offsets, format_of};
use crate::image::Node;
use crate::offsets::holds_offsets;
use crate::refusal::{Lack, Refusal};
use crate::unions::{holds_ids, ids_lack};
use crate::views::{holds_starts, list_views_lack};
use std::alloc::Global;

// What a union lacks that doesn't fit over children that have so many rows.
fn union_lacks(node: &Node, lens: &[u64]) -> Lack
    requires { node.now.offset + node.now.len < 2 ^ 60 }
{
    if !holds_ids(node) {
        return ids_lack(node);
    }
    if all_long(lens, node.offset + node.len) {
        Lack::Id
    } else {
        Lack::Length
    }
}

// What a dense union lacks that doesn't fit.
fn dense_lacks(node: &Node) -> Lack
    requires { node.now.offset + node.now.len < 2 ^ 60 }
{
    if !holds_ids(node) {
        return ids_lack(node);
    }
    if !holds_starts(Offsets::Short, node.offsets, node.offset + node.len) {
        return Lack::Offsets;
    }
    if are_tagged(node) {
        Lack::Items
    } else {
        Lack::Id
    }
}

// What a node lacks that doesn't fit.
fn unfit(format: Format, node: &Node, lens: &[u64]) -> Lack
    requires { node.now.offset + node.now.len < 2 ^ 60 }
{
    match format {
        Format::Nulls => Lack::Children,
        Format::Bits | Format::Fixed => {
            if node.children != 0 {
                Lack::Children
            } else {
                Lack::Values
            }
        }
        Format::Struct | Format::FixedList => Lack::Length,
        Format::Text(size) | Format::List(size) => {
            if holds_offsets(size, node) {
                Lack::Items
            } else {
                Lack::Offsets
            }
        }
        Format::TextView => {
            if 16 * (node.offset + node.len) <= node.values.len() as u64 {
                Lack::Items
            } else {
                Lack::Values
            }
        }
        Format::ListView(size) => list_views_lack(size, node),
        Format::Union => union_lacks(node, lens),
        Format::DenseUnion => dense_lacks(node),
    }
}

// What a node lacks over children that have so many rows.
fn lack_of(node: &Node, lens: &[u64]) -> Option<Lack>
    ensures { MatchOption result (is_sound (part_of node.now) lens.now ≡ true)
        (λ _. is_sound (part_of node.now) lens.now ≡ false) }
{
    let Some(format) = format_of(node.format) else {
        return Some(Lack::Format);
    };
    if !placed(node) {
        return Some(Lack::Rows);
    }
    if !fits(format, node, lens) {
        return Some(unfit(format, node, lens));
    }
    None
}

/// Tests a whole table: whether it means a column.
///
/// Refused with `NoMeaning` where it doesn't, with the last node that lacks something and what, or
/// with `NoMemory`.
pub fn check(alloc: Global, nodes: &[Node]) -> Result<(), Refusal>
    ensures sound { OnOk result (IsSome (column_in (parts_of nodes.now))) }
    ensures unsound { IfErr result (IsUnsound (column_in (parts_of nodes.now))) }
{
    let Ok(mut lens) = vec![in alloc; 0u64; nodes.len()] else {
        return Err(Refusal::NoMemory);
    };
    let mut top = nodes.len();
    for i in (0..nodes.len()).rev() {
        let node = &nodes[i];
        if node.children > (nodes.len() - top) as u64 {
            return Err(Refusal::NoMeaning {
                node: i,
                lack: Lack::Tree,
            });
        }
        let children = node.children as usize;
        if let Some(lack) = lack_of(node, &lens[top..top + children]) {
            return Err(Refusal::NoMeaning { node: i, lack });
        }
        top = top + children - 1;
        lens[top] = node.len;
    }
    if top + 1 != nodes.len() {
        return Err(Refusal::NoMeaning {
            node: 0,
            lack: Lack::Tree,
        });
    }
    Ok(())
}
