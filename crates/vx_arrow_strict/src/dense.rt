//! Offsets of dense unions.
ghost use Rattle.std.specs.Prelude.{◌≡◌, ◌+◌, ◌*◌, ◌^◌, ◌<◌, ◌≤◌, length};
ghost use Rattle.std.specs.List.{list_all, range_with_len};
ghost use Rattle.vx_arrow_image.specs.Image.{part_of};
ghost use Rattle.vx_arrow_strict.specs.Dense.{ascends, follows, id_of};

use crate::reads::{four_at, placed};
use vx_arrow_image::{Node, Offsets, holds_starts};

// The type id of row `i`.
#[inline(always)]
fn id_at(node: &Node, i: usize) -> u8
    requires { i < length node.now.values.now }
    ensures { result ≡ id_of (part_of node.now) i }
{
    node.values[i]
}

// Whether no earlier row of a row's child has a higher offset.
fn all_follow(node: &Node) -> bool
    requires few { node.now.offset + node.now.len < 2 ^ 60 }
    requires offsets { 4 * (node.now.offset + node.now.len) ≤ length node.now.offsets.now }
    requires ids { node.now.offset + node.now.len ≤ length node.now.values.now }
    ensures { result ≡ list_all (follows (part_of node.now))
        (range_with_len node.now.offset node.now.len) }
{
    let mut last = [0u64; 256];
    let start = node.offset as usize;
    for i in start..start + node.len as usize {
        let at = four_at(node.offsets, i);
        let id = id_at(node, i) as usize;
        if at < last[id] {
            return false;
        }
        last[id] = at;
    }
    true
}

/// Whether the offsets of the rows of each child do not descend.
#[tactic(auto, unfolding(crate::specs::Dense::ascends))]
pub(crate) fn ascends(node: &Node) -> bool
    ensures { result ≡ ascends (part_of node.now) }
{
    if !placed(node) {
        return false;
    }
    let end = node.offset + node.len;
    if !holds_starts(Offsets::Short, node.offsets, end) {
        return false;
    }
    if end > node.values.len() as u64 {
        return false;
    }
    all_follow(node)
}
