//! Codes of a dictionary's values.
ghost use Rattle.std.specs.Prelude.{◌≡◌, ◌+◌, ◌*◌, ◌^◌, ◌<◌, ◌≤◌, length, nat_le, nat_lt, true};
ghost use Rattle.vx_arrow_image.specs.Image.{all_valid, part_of};
ghost use Rattle.vx_arrow_strict.specs.Codes.{code_limit, code_of, has_codes, is_width};

use crate::flaw::Extra;
use crate::reads::{eight_at, four_at, placed, two_at};
use vx_arrow_image::{Node, is_there};

// Whether codes may have so many bytes.
fn is_width(bytes: u64) -> bool
    ensures { result ≡ is_width bytes }
{
    bytes == 1 || bytes == 2 || bytes == 4 || bytes == 8
}

// The code of row `j`, read as an unsigned number.
#[inline(always)]
#[tactic(auto, unfolding(crate::specs::Codes::code_of))]
fn code_of(node: &Node, j: usize) -> u64
    requires width { is_width node.now.width ≡ true }
    requires held { node.now.width * j + node.now.width ≤ length node.now.values.now }
    ensures { result ≡ code_of (part_of node.now) j }
{
    match node.width {
        1 => node.values[j] as u64,
        2 => two_at(node.values, j),
        4 => four_at(node.values, j),
        _ => eight_at(node.values, j),
    }
}

// The codes of values are below it.
fn code_limit(node: &Node, extra: &Extra) -> u64
    requires { is_width node.now.width ≡ true }
    ensures { result ≡ code_limit (part_of node.now) extra.now }
{
    if extra.codes != 2 {
        return extra.values;
    }
    let half = match node.width {
        1 => 1 << 7,
        2 => 1 << 15,
        4 => 1 << 31,
        _ => 1 << 63,
    };
    extra.values.min(half)
}

// Whether each row that isn't null has a code below this.
fn are_below(node: &Node, limit: u64) -> bool
    requires width { is_width node.now.width ≡ true }
    requires few { node.now.offset + node.now.len < 2 ^ 60 }
    requires held { (node.now.offset + node.now.len) * node.now.width
        ≤ length node.now.values.now }
    ensures { result ≡ all_valid (part_of node.now)
        (λ j. nat_lt (code_of (part_of node.now) j) limit) }
{
    let start = node.offset as usize;
    for i in start..start + node.len as usize {
        if code_of(node, i) >= limit && is_there(node.valid, i) {
            return false;
        }
    }
    true
}

// Whether the codes are there.
fn holds_codes(node: &Node) -> bool
    requires { node.now.offset + node.now.len < 2 ^ 60 }
    ensures { result ≡ nat_le ((node.now.offset + node.now.len) * node.now.width)
        (length node.now.values.now) }
{
    match (node.offset + node.len).checked_mul(node.width) {
        Some(size) => size <= node.values.len() as u64,
        None => false,
    }
}

/// Whether each row that isn't null has the code of a value of the dictionary, if there is one.
#[tactic(auto, unfolding(crate::specs::Codes::has_codes))]
pub fn has_codes(node: &Node, extra: &Extra) -> bool
    ensures { result ≡ has_codes (part_of node.now) extra.now }
{
    if extra.codes == 0 {
        return true;
    }
    if extra.codes > 2 {
        return false;
    }
    if !is_width(node.width) {
        return false;
    }
    if !placed(node) {
        return false;
    }
    if !holds_codes(node) {
        return false;
    }
    are_below(node, code_limit(node, extra))
}
