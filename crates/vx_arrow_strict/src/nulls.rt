//! Which rows are null, and how many.
ghost use Rattle.std.specs.Prelude.{◌≡◌, ◌+◌, ◌^◌, ◌<◌, not};
ghost use Rattle.std.specs.List.{count_by, list_all, range_with_len};
ghost use Rattle.vx_arrow_image.specs.Image.{format_in, is_valid, part_of};
ghost use Rattle.vx_arrow_strict.specs.Nulls.{counts_nulls, has_no_nulls, is_nulls, null_count};

use crate::flaw::Extra;
use crate::reads::placed;
use vx_arrow_image::{Format, Node, format_of, is_there};

// Whether the format is that of nulls.
fn has_nulls_alone(node: &Node) -> bool
    ensures { result ≡ is_nulls (format_in node.now.format) }
{
    match format_of(node.format) {
        Some(Format::Nulls) => true,
        _ => false,
    }
}

// How many bits of validity of the rows are clear.
fn clear_bits(valid: &[u8], start: usize, len: usize) -> u64
    requires { start + len < 2 ^ 60 }
    ensures { result ≡ count_by (λ j. not (is_valid valid.now j)) (range_with_len start len) }
{
    let mut count = 0;
    for i in start..start + len {
        if !is_there(valid, i) {
            count += 1;
        }
    }
    count
}

// How many rows are null.
fn null_count(node: &Node) -> u64
    requires { node.now.offset + node.now.len < 2 ^ 60 }
    ensures { result ≡ null_count (part_of node.now) }
{
    if has_nulls_alone(node) {
        return node.len;
    }
    if node.valid.is_empty() {
        return 0;
    }
    clear_bits(node.valid, node.offset as usize, node.len as usize)
}

// Whether none of the bits of validity of the rows is clear.
fn are_set(valid: &[u8], start: usize, len: usize) -> bool
    requires { start + len < 2 ^ 63 }
    ensures { result ≡ list_all (is_valid valid.now) (range_with_len start len) }
{
    for i in start..start + len {
        if !is_there(valid, i) {
            return false;
        }
    }
    true
}

/// Whether none of `count` rows from row `start` on is null.
pub(crate) fn has_no_nulls(node: &Node, start: u64, count: u64) -> bool
    requires { start + count < 2 ^ 63 }
    ensures { result ≡ has_no_nulls (part_of node.now) start count }
{
    if count == 0 {
        return true;
    }
    if has_nulls_alone(node) {
        return false;
    }
    if node.valid.is_empty() {
        return true;
    }
    are_set(node.valid, start as usize, count as usize)
}

/// Whether the number of nulls is told as it is, or not known.
#[tactic(auto, unfolding(crate::specs::Nulls::counts_nulls))]
pub(crate) fn counts_nulls(node: &Node, extra: &Extra) -> bool
    ensures { result ≡ counts_nulls (part_of node.now) extra.now }
{
    if extra.null_count == u64::MAX {
        return true;
    }
    if !placed(node) {
        return false;
    }
    null_count(node) == extra.null_count
}
