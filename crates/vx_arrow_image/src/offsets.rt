//! Offsets of four or eight bytes, and what they cut.
ghost use Rattle.std.specs.Prelude.{◌≡◌, ◌*◌, ◌<◌, ◌≤◌, ◌+◌, ◌^◌, length, true};
ghost use Rattle.vx_arrow_image.specs.Image.{holds_offsets, offset_at, part_of, size_of};

use crate::format::Offsets;
use crate::image::Node;

/// Offset `j` of four bytes.
#[inline(always)]
pub(crate) fn short_offset(offsets: &[u8], j: usize) -> u32
    requires { 4 * j + 4 ≤ length offsets.now }
    ensures { result ≡ offset_at Offsets.Short offsets.now j }
{
    let at = 4 * j;
    u32::from_le_bytes([
        offsets[at],
        offsets[at + 1],
        offsets[at + 2],
        offsets[at + 3],
    ])
}

// Offset `j` of eight bytes.
#[inline(always)]
fn long_offset(offsets: &[u8], j: usize) -> u64
    requires { 8 * j + 8 ≤ length offsets.now }
    ensures { result ≡ offset_at Offsets.Long offsets.now j }
{
    let at = 8 * j;
    u64::from_le_bytes([
        offsets[at],
        offsets[at + 1],
        offsets[at + 2],
        offsets[at + 3],
        offsets[at + 4],
        offsets[at + 5],
        offsets[at + 6],
        offsets[at + 7],
    ])
}

/// Offset `j`.
#[inline(always)]
pub(crate) fn offset(size: Offsets, offsets: &[u8], j: usize) -> u64
    requires { size_of size * j + size_of size ≤ length offsets.now }
    ensures { result ≡ offset_at size offsets.now j }
{
    match size {
        Offsets::Short => short_offset(offsets, j) as u64,
        Offsets::Long => long_offset(offsets, j),
    }
}

/// Whether there is an offset for each row and one more.
pub fn holds_offsets(size: Offsets, node: &Node) -> bool
    requires { node.now.offset + node.now.len < 2 ^ 60 }
    ensures { result ≡ holds_offsets size (part_of node.now) }
{
    node.len == 0 || size.size() * (node.offset + node.len + 1) <= node.offsets.len() as u64
}

/// Where the items of a row begin and end.
#[derive(Clone, Copy)]
pub struct Cut {
    /// The first one's place.
    pub start: u64,
    /// The place behind the last one.
    pub end: u64,
}

/// Where the items of row `i` begin and end.
#[inline(always)]
pub fn cut_at(size: Offsets, node: &Node, i: usize) -> Cut
    requires held { holds_offsets size (part_of node.now) ≡ true }
    requires from { node.now.offset ≤ i }
    requires below { i < node.now.offset + node.now.len }
    ensures start { result.start ≡ offset_at size node.now.offsets.now i }
    ensures end { result.end ≡ offset_at size node.now.offsets.now (i + 1) }
{
    Cut {
        start: offset(size, node.offsets, i),
        end: offset(size, node.offsets, i + 1),
    }
}
