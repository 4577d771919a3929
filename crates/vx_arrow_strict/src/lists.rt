//! List views.
ghost use Rattle.std.specs.Prelude.{◌≡◌, ◌+◌, ◌*◌, ◌^◌, ◌<◌, ◌≤◌, length};
ghost use Rattle.std.specs.List.{list_all, range_with_len};
ghost use Rattle.vx_arrow_image.specs.Image.{is_list_view, part_of, size_of};
ghost use Rattle.vx_arrow_strict.specs.Lists.{are_lists};

use crate::reads::placed;
use vx_arrow_image::{Node, Offsets, holds_starts, is_list_view};

// Whether each row lies within so many items.
fn all_lists(size: Offsets, node: &Node, count: u64) -> bool
    requires few { node.now.offset + node.now.len < 2 ^ 60 }
    requires offsets { size_of size * (node.now.offset + node.now.len)
        ≤ length node.now.offsets.now }
    requires sizes { size_of size * (node.now.offset + node.now.len)
        ≤ length node.now.sizes.now }
    ensures { result ≡ list_all (is_list_view size (part_of node.now) count)
        (range_with_len node.now.offset node.now.len) }
{
    let start = node.offset as usize;
    for i in start..start + node.len as usize {
        if !is_list_view(size, node, count, i) {
            return false;
        }
    }
    true
}

/// Whether each row lies within so many items, nulls too.
#[tactic(auto, unfolding(crate::specs::Lists::are_lists))]
pub(crate) fn are_lists(size: Offsets, node: &Node, count: u64) -> bool
    ensures { result ≡ are_lists size (part_of node.now) count }
{
    if !placed(node) {
        return false;
    }
    let end = node.offset + node.len;
    if !holds_starts(size, node.offsets, end) {
        return false;
    }
    if !holds_starts(size, node.sizes, end) {
        return false;
    }
    all_lists(size, node, count)
}
