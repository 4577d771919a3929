//! Views of texts and of lists: which bytes or items a row has.
ghost use Rattle.std.specs.Prelude.{◌≡◌, ◌*◌, ◌<◌, ◌≤◌, ◌+◌, ◌^◌, length};
ghost use Rattle.vx_arrow_image.specs.Image.{holds_starts, is_list_view, is_view, part_of, size_of, view_buffer, view_len, view_start};

use crate::format::Offsets;
use crate::image::Node;
use crate::offsets::offset;
use crate::refusal::Lack;

// How many bytes the text of view `i` has.
fn view_len(node: &Node, i: usize) -> u64
    requires { 16 * i + 16 ≤ length node.now.values.now }
    ensures { result ≡ view_len (part_of node.now) i }
{
    offset(Offsets::Short, node.values, 4 * i)
}

// Which buffer a long text stands in.
fn view_buffer(node: &Node, i: usize) -> u64
    requires { 16 * i + 16 ≤ length node.now.values.now }
    ensures { result ≡ view_buffer (part_of node.now) i }
{
    offset(Offsets::Short, node.values, 4 * i + 2)
}

// Where it begins there.
fn view_start(node: &Node, i: usize) -> u64
    requires { 16 * i + 16 ≤ length node.now.values.now }
    ensures { result ≡ view_start (part_of node.now) i }
{
    offset(Offsets::Short, node.values, 4 * i + 3)
}

/// Whether the text of view `i` lies within buffers of so many bytes.
pub fn is_view(node: &Node, lens: &[u64], i: usize) -> bool
    requires { 16 * i + 16 ≤ length node.now.values.now }
    ensures { result ≡ is_view (part_of node.now) lens.now i }
{
    let len = view_len(node, i);
    if len >= 1 << 31 {
        return false;
    }
    if len <= 12 {
        return true;
    }
    let buffer = view_buffer(node, i);
    if buffer >= lens.len() as u64 {
        return false;
    }
    let start = view_start(node, i);
    if start >= 1 << 31 {
        return false;
    }
    start + len <= lens[buffer as usize]
}

/// Whether there is an offset and a size for each row.
pub fn holds_starts(size: Offsets, numbers: &[u8], end: u64) -> bool
    requires { end < 2 ^ 60 }
    ensures { result ≡ holds_starts size numbers.now end }
{
    size.size() * end <= numbers.len() as u64
}

/// Whether the items of list view `i` are among so many.
pub fn is_list_view(size: Offsets, node: &Node, count: u64, i: usize) -> bool
    requires offsets { size_of size * i + size_of size ≤ length node.now.offsets.now }
    requires sizes { size_of size * i + size_of size ≤ length node.now.sizes.now }
    ensures { result ≡ is_list_view size (part_of node.now) count i }
{
    let start = offset(size, node.offsets, i);
    if start >= size.limit() {
        return false;
    }
    let len = offset(size, node.sizes, i);
    if len >= size.limit() {
        return false;
    }
    start + len <= count
}

/// What list views lack that don't fit.
pub(crate) fn list_views_lack(size: Offsets, node: &Node) -> Lack
    requires { node.now.offset + node.now.len < 2 ^ 60 }
{
    let end = node.offset + node.len;
    if node.children != 1 {
        return Lack::Children;
    }
    if !holds_starts(size, node.offsets, end) {
        return Lack::Offsets;
    }
    if holds_starts(size, node.sizes, end) {
        Lack::Items
    } else {
        Lack::Sizes
    }
}
