//! Numbers of two, four and eight bytes, and places of rows.
ghost use Rattle.std.specs.Prelude.{◌≡◌, ◌*◌, ◌+◌, ◌^◌, ◌<◌, ◌≤◌, length, take, drop, true};
ghost use Rattle.std.specs.Int.{from_le_bytes, w16};
ghost use Rattle.vx_arrow_image.specs.declared.format.Offsets.TheVariants.{Short, Long};
ghost use Rattle.vx_arrow_image.specs.Image.{is_placed, offset_at, part_of};

use vx_arrow_image::{Node, holds_valid};

/// Number `j` of two bytes.
#[inline(always)]
pub(crate) fn two_at(bytes: &[u8], j: usize) -> u64
    requires { 2 * j + 2 ≤ length bytes.now }
    ensures { result ≡ from_le_bytes w16 (take 2 (drop (2 * j) bytes.now)) }
{
    let at = 2 * j;
    u16::from_le_bytes([bytes[at], bytes[at + 1]]) as u64
}

/// Number `j` of four bytes.
#[inline(always)]
pub(crate) fn four_at(bytes: &[u8], j: usize) -> u64
    requires { 4 * j + 4 ≤ length bytes.now }
    ensures value { result ≡ offset_at Short bytes.now j }
    ensures small { result < 2 ^ 32 }
{
    let at = 4 * j;
    u32::from_le_bytes([bytes[at], bytes[at + 1], bytes[at + 2], bytes[at + 3]]) as u64
}

/// Number `j` of eight bytes.
#[inline(always)]
pub(crate) fn eight_at(bytes: &[u8], j: usize) -> u64
    requires { 8 * j + 8 ≤ length bytes.now }
    ensures { result ≡ offset_at Long bytes.now j }
{
    let at = 8 * j;
    u64::from_le_bytes([
        bytes[at],
        bytes[at + 1],
        bytes[at + 2],
        bytes[at + 3],
        bytes[at + 4],
        bytes[at + 5],
        bytes[at + 6],
        bytes[at + 7],
    ])
}

/// Whether the rows have numbers below 2^60, and a bit of validity each, if there are any.
pub(crate) fn placed(node: &Node) -> bool
    ensures placed { result ≡ is_placed (part_of node.now) }
    ensures few { result ≡ true → node.now.offset + node.now.len < 2 ^ 60 }
{
    let Some(end) = node.offset.checked_add(node.len) else {
        return false;
    };
    end < 1 << 60 && holds_valid(node.valid, end)
}
