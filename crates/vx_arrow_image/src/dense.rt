//! Dense unions: which row of which child each row is.
ghost use Rattle.std.specs.Prelude.{◌≡◌, ◌+◌, ◌*◌, ◌<◌, ◌≤◌, ◌^◌, length};
ghost use Rattle.vx_arrow_image.specs.Image.{child_of, dense_start, is_dense, part_of};

use crate::format::Offsets;
use crate::image::Node;
use crate::offsets::{offset, short_offset};

/// Which child is the first with an id; how many there are where none is.
pub fn child_of(ids: &[u8], id: u8) -> usize
    ensures { result ≡ child_of ids.now id }
{
    for k in 0..ids.len() {
        if ids[k] == id {
            return k;
        }
    }
    ids.len()
}

/// Which row of its child row `i` is.
pub fn start_of(node: &Node, i: usize) -> u64
    requires { 4 * i + 4 ≤ length node.now.offsets.now }
    ensures start { result ≡ dense_start (part_of node.now) i }
    ensures small { result < 2 ^ 32 }
{
    short_offset(node.offsets, i) as u64
}

/// Whether the row that row `i` is of its child is there, where the children have so many.
pub fn is_dense(node: &Node, lens: &[u64], i: usize) -> bool
    requires ids { node.now.children ≤ length node.now.sizes.now }
    requires row { i < length node.now.values.now }
    requires offset { 4 * i + 4 ≤ length node.now.offsets.now }
    ensures { result ≡ is_dense (part_of node.now) lens.now i }
{
    let start = offset(Offsets::Short, node.offsets, i);
    if start >= Offsets::Short.limit() {
        return false;
    }
    let ids = &node.sizes[..node.children as usize];
    let child = child_of(ids, node.values[i]);
    if child >= lens.len() {
        return false;
    }
    start < lens[child]
}
