//! Offsets and lengths that are read from buffers.
ghost use Rattle.std.specs.Prelude.{◌≡◌, ◌*◌, ◌+◌, ◌≤◌, length, nat_lt};
ghost use Rattle.vx_arrow_formats.specs.Ends.{data_length, ends_past, last_number, number_at, text_len, top_of};
ghost use Rattle.vx_arrow_image.specs.Image.{offset_at, part_of, size_of};

use vx_arrow_image::{Format, Node, Offsets, format_of};

// Number `j` of four bytes, without a sign.
fn short_number(bytes: &[u8], j: usize) -> u64
    requires { 4 * j + 4 ≤ length bytes.now }
    ensures { result ≡ offset_at Offsets.Short bytes.now j }
{
    let at = 4 * j;
    u32::from_le_bytes([bytes[at], bytes[at + 1], bytes[at + 2], bytes[at + 3]]) as u64
}

// Number `j` of eight bytes, without a sign.
fn long_number(bytes: &[u8], j: usize) -> u64
    requires { 8 * j + 8 ≤ length bytes.now }
    ensures { result ≡ offset_at Offsets.Long bytes.now j }
{
    let at = 8 * j;
    u64::from_le_bytes([
        bytes[at],
        bytes[at + 1],
        bytes[at + 2],
        bytes[at + 3],
        bytes[at + 4],
        bytes[at + 5],
        bytes[at + 6],
        bytes[at + 7],
    ])
}

// Numbers that are negative with a sign begin here.
fn top_of(size: Offsets) -> u64
    ensures { result ≡ top_of size }
{
    match size {
        Offsets::Short => 1 << 31,
        Offsets::Long => 1 << 63,
    }
}

// Number `j`, if it is there and isn't negative.
fn number_at(size: Offsets, bytes: &[u8], j: usize) -> Option<u64>
    ensures { result ≡ number_at size bytes.now j }
{
    if j >= bytes.len() / size.size() as usize {
        return None;
    }
    let number = match size {
        Offsets::Short => short_number(bytes, j),
        Offsets::Long => long_number(bytes, j),
    };
    if number < top_of(size) {
        Some(number)
    } else {
        None
    }
}

// The last number, or 0 where it is negative or missing.
fn last_number(size: Offsets, bytes: &[u8]) -> u64
    ensures { result ≡ last_number size bytes.now }
{
    let last = (bytes.len() / size.size() as usize).saturating_sub(1);
    number_at(size, bytes, last).unwrap_or(0)
}

/// Returns how many bytes the strings of a node have: its last offset, or 0 where that is negative
/// or missing. Returns 0 for other formats.
pub fn text_len(node: &Node) -> u64
    ensures { result ≡ text_len (part_of node.now) }
{
    match format_of(node.format) {
        Some(Format::Text(size)) => last_number(size, node.offsets),
        _ => 0,
    }
}

/// Returns how many bytes data buffer `k` of views has, by the lengths in `sizes`. `None` where its
/// length is negative or missing.
pub fn data_length(node: &Node, k: usize) -> Option<u64>
    ensures { result ≡ data_length (part_of node.now) k }
{
    number_at(Offsets::Long, node.sizes, k)
}

// Whether lists of a fixed size end after so many rows of their child.
fn fixed_past(node: &Node, rows: u64) -> bool
    ensures { result ≡ nat_lt rows ((node.now.offset + node.now.len) * node.now.width) }
{
    let Some(end) = node.offset.checked_add(node.len) else {
        return node.width != 0;
    };
    match end.checked_mul(node.width) {
        Some(items) => rows < items,
        None => true,
    }
}

/// Returns whether lists end after the last row of their child, which has so many.
pub fn ends_past(node: &Node, rows: u64) -> bool
    ensures { result ≡ ends_past (part_of node.now) rows }
{
    match format_of(node.format) {
        Some(Format::List(size)) => rows < last_number(size, node.offsets),
        Some(Format::FixedList) => fixed_past(node, rows),
        _ => false,
    }
}
