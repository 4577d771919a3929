//! Sparse unions: whose child's row each row is.
ghost use Rattle.std.specs.Prelude.{◌≡◌, ◌==◌, ◌+◌, ◌^◌, ◌<◌, ◌≤◌, false, length};
ghost use Rattle.std.specs.List.{list_any};
ghost use Rattle.vx_arrow_image.specs.Checking.{LacksIds};
ghost use Rattle.vx_arrow_image.specs.Image.{has_child, holds_ids, part_of};

use crate::image::Node;
use crate::refusal::Lack;

// Whether an id is among these.
fn is_among(ids: &[u8], id: u8) -> bool
    ensures { result ≡ list_any (λ x. x == id) ids.now }
{
    ids.iter().any(|x| *x == id)
}

/// Whether row `i` has the id of a child.
pub fn has_child(node: &Node, i: usize) -> bool
    requires ids { node.now.children ≤ length node.now.sizes.now }
    requires row { i < length node.now.values.now }
    ensures { result ≡ has_child (part_of node.now) i }
{
    let ids = &node.sizes[..node.children as usize];
    is_among(ids, node.values[i])
}

/// Whether a union has an id for each row and each child, and no validity.
pub fn holds_ids(node: &Node) -> bool
    requires { node.now.offset + node.now.len < 2 ^ 60 }
    ensures { result ≡ holds_ids (part_of node.now) }
{
    if !node.valid.is_empty() {
        return false;
    }
    if node.children == 0 {
        return false;
    }
    if node.children > node.sizes.len() as u64 {
        return false;
    }
    node.offset + node.len <= node.values.len() as u64
}

/// What a union lacks that has not.
pub fn ids_lack(node: &Node) -> Lack
    ensures { holds_ids (part_of node.now) ≡ false → LacksIds (part_of node.now) result }
{
    if !node.valid.is_empty() {
        return Lack::Valid;
    }
    if node.children == 0 {
        return Lack::Children;
    }
    if node.children > node.sizes.len() as u64 {
        return Lack::Sizes;
    }
    Lack::Values
}
