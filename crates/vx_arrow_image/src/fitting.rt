//! Whether a node's lists and children are long enough, and what stands in them is sound.
ghost use Rattle.std.specs.Prelude.{◌≡◌, ◌+◌, ◌*◌, ◌^◌, ◌<◌, ◌≤◌, Some, length, nat_le, true};
ghost use Rattle.std.specs.List.{list_all, range_with_len};
ghost use Rattle.vx_arrow_image.specs.Image.{all_valid, are_cut, fits, has_child, holds_offsets, if_valid, is_cut, is_dense, is_list_view, is_placed, is_view, part_of, size_of};

use crate::bits::{holds_valid, is_there};
use crate::dense::is_dense;
use crate::format::{Format, Offsets};
use crate::image::Node;
use crate::offsets::{cut_at, holds_offsets};
use crate::unions::{has_child, holds_ids};
use crate::views::{holds_starts, is_list_view, is_view};

/// Whether the rows have numbers below 2^60, and a bit of validity each, if there are any.
pub(crate) fn placed(node: &Node) -> bool
    ensures placed { result ≡ is_placed (part_of node.now) }
    ensures few { result ≡ true → node.now.offset + node.now.len < 2 ^ 60 }
{
    let Some(end) = node.offset.checked_add(node.len) else {
        return false;
    };
    end < 1 << 60 && holds_valid(node.valid, end)
}

// Whether the items of row `i` stand in order among so many.
fn is_cut(size: Offsets, node: &Node, count: u64, i: usize) -> bool
    requires held { holds_offsets size (part_of node.now) ≡ true }
    requires from { node.now.offset ≤ i }
    requires below { i < node.now.offset + node.now.len }
    ensures { result ≡ is_cut size (part_of node.now) count i }
{
    let cut = cut_at(size, node, i);
    if cut.start > cut.end {
        return false;
    }
    if cut.end >= size.limit() {
        return false;
    }
    cut.end <= count
}

// Whether the items of each row do.
fn are_cut(size: Offsets, node: &Node, count: u64) -> bool
    requires { node.now.offset + node.now.len < 2 ^ 60 }
    ensures { result ≡ are_cut size (part_of node.now) count }
{
    if !holds_offsets(size, node) {
        return false;
    }
    let start = node.offset as usize;
    for i in start..start + node.len as usize {
        if !is_cut(size, node, count, i) {
            return false;
        }
    }
    true
}

/// Whether each child has so many rows.
pub(crate) fn all_long(lens: &[u64], end: u64) -> bool
    ensures { result ≡ list_all (λ n. nat_le end n) lens.now }
{
    lens.iter().all(|len| end <= *len)
}

// Whether the values of a fixed width are there.
fn fixed_fits(node: &Node, lens: &[u64]) -> bool
    requires { node.now.offset + node.now.len < 2 ^ 60 }
    ensures { result ≡ fits (Some Format.Fixed) (part_of node.now) lens.now }
{
    if node.children != 0 {
        return false;
    }
    match (node.offset + node.len).checked_mul(node.width) {
        Some(size) => size <= node.values.len() as u64,
        None => false,
    }
}

// Whether the only child, which has so many rows, has those of lists of a fixed size.
fn fixed_list_fits(node: &Node, lens: &[u64]) -> bool
    requires { node.now.offset + node.now.len < 2 ^ 60 }
    ensures { result ≡ fits (Some Format.FixedList) (part_of node.now) lens.now }
{
    if node.children != 1 {
        return false;
    }
    let count = if lens.is_empty() { 0 } else { lens[0] };
    match (node.offset + node.len).checked_mul(node.width) {
        Some(size) => size <= count,
        None => false,
    }
}

// Whether the text of row `i`, if that is valid, lies within children that have so many rows.
fn view_fits(node: &Node, lens: &[u64], i: usize) -> bool
    requires held { 16 * i + 16 ≤ length node.now.values.now }
    ensures { result ≡ if_valid (part_of node.now) (is_view (part_of node.now) lens.now) i }
{
    if !is_there(node.valid, i) {
        return true;
    }
    is_view(node, lens, i)
}

// Whether the texts of all rows do.
fn are_views(node: &Node, lens: &[u64]) -> bool
    requires few { node.now.offset + node.now.len < 2 ^ 60 }
    requires held { 16 * (node.now.offset + node.now.len) ≤ length node.now.values.now }
    ensures { result ≡ all_valid (part_of node.now) (is_view (part_of node.now) lens.now) }
{
    let start = node.offset as usize;
    for i in start..start + node.len as usize {
        if !view_fits(node, lens, i) {
            return false;
        }
    }
    true
}

// Whether there is a view for each row, and the texts lie within children that have so many rows.
fn views_fit(node: &Node, lens: &[u64]) -> bool
    requires { node.now.offset + node.now.len < 2 ^ 60 }
    ensures { result ≡ fits (Some Format.TextView) (part_of node.now) lens.now }
{
    if 16 * (node.offset + node.len) > node.values.len() as u64 {
        return false;
    }
    are_views(node, lens)
}

// Whether the items of row `i`, if that is valid, are among so many.
fn list_view_fits(size: Offsets, node: &Node, count: u64, i: usize) -> bool
    requires offsets { size_of size * i + size_of size ≤ length node.now.offsets.now }
    requires sizes { size_of size * i + size_of size ≤ length node.now.sizes.now }
    ensures { result
        ≡ if_valid (part_of node.now) (is_list_view size (part_of node.now) count) i }
{
    if !is_there(node.valid, i) {
        return true;
    }
    is_list_view(size, node, count, i)
}

// Whether the items of all rows are.
fn are_list_views(size: Offsets, node: &Node, count: u64) -> bool
    requires few { node.now.offset + node.now.len < 2 ^ 60 }
    requires offsets { size_of size * (node.now.offset + node.now.len)
        ≤ length node.now.offsets.now }
    requires sizes { size_of size * (node.now.offset + node.now.len)
        ≤ length node.now.sizes.now }
    ensures { result
        ≡ all_valid (part_of node.now) (is_list_view size (part_of node.now) count) }
{
    let start = node.offset as usize;
    for i in start..start + node.len as usize {
        if !list_view_fits(size, node, count, i) {
            return false;
        }
    }
    true
}

// Whether there is an offset and a size for each row, and the items are among those of the only
// child, which has so many rows.
fn list_views_fit(size: Offsets, node: &Node, lens: &[u64]) -> bool
    requires { node.now.offset + node.now.len < 2 ^ 60 }
    ensures { result ≡ fits (Some (Format.ListView size)) (part_of node.now) lens.now }
{
    if node.children != 1 {
        return false;
    }
    let end = node.offset + node.len;
    if !holds_starts(size, node.offsets, end) {
        return false;
    }
    if !holds_starts(size, node.sizes, end) {
        return false;
    }
    let count = if lens.is_empty() { 0 } else { lens[0] };
    are_list_views(size, node, count)
}

/// Whether each row of a union has the id of a child.
pub(crate) fn are_tagged(node: &Node) -> bool
    requires few { node.now.offset + node.now.len < 2 ^ 60 }
    requires ids { node.now.children ≤ length node.now.sizes.now }
    requires held { node.now.offset + node.now.len ≤ length node.now.values.now }
    ensures { result ≡ list_all (has_child (part_of node.now))
        (range_with_len node.now.offset node.now.len) }
{
    let start = node.offset as usize;
    for i in start..start + node.len as usize {
        if !has_child(node, i) {
            return false;
        }
    }
    true
}

// Whether the rows of a union are there in its children, which have so many.
fn union_fits(node: &Node, lens: &[u64]) -> bool
    requires { node.now.offset + node.now.len < 2 ^ 60 }
    ensures { result ≡ fits (Some Format.Union) (part_of node.now) lens.now }
{
    if !holds_ids(node) {
        return false;
    }
    all_long(lens, node.offset + node.len) && are_tagged(node)
}

// Whether each row of a dense union is in its child.
fn are_dense(node: &Node, lens: &[u64]) -> bool
    requires few { node.now.offset + node.now.len < 2 ^ 60 }
    requires ids { node.now.children ≤ length node.now.sizes.now }
    requires held { node.now.offset + node.now.len ≤ length node.now.values.now }
    requires offsets { 4 * (node.now.offset + node.now.len) ≤ length node.now.offsets.now }
    ensures { result ≡ list_all (is_dense (part_of node.now) lens.now)
        (range_with_len node.now.offset node.now.len) }
{
    let start = node.offset as usize;
    for i in start..start + node.len as usize {
        if !is_dense(node, lens, i) {
            return false;
        }
    }
    true
}

// Whether the rows of a dense union are there in its children, which have so many.
fn dense_fits(node: &Node, lens: &[u64]) -> bool
    requires { node.now.offset + node.now.len < 2 ^ 60 }
    ensures { result ≡ fits (Some Format.DenseUnion) (part_of node.now) lens.now }
{
    if !holds_ids(node) {
        return false;
    }
    if !holds_starts(Offsets::Short, node.offsets, node.offset + node.len) {
        return false;
    }
    are_dense(node, lens)
}

/// Whether a node's lists and children, which have so many rows, are long enough.
pub(crate) fn fits(format: Format, node: &Node, lens: &[u64]) -> bool
    requires { node.now.offset + node.now.len < 2 ^ 60 }
    ensures { result ≡ fits (Some format) (part_of node.now) lens.now }
{
    let end = node.offset + node.len;
    match format {
        Format::Nulls => node.children == 0,
        Format::Bits => node.children == 0 && end.div_ceil(8) <= node.values.len() as u64,
        Format::Fixed => fixed_fits(node, lens),
        Format::Text(size) => node.children == 0 && are_cut(size, node, node.values.len() as u64),
        Format::Struct => all_long(lens, end),
        Format::FixedList => fixed_list_fits(node, lens),
        Format::TextView => views_fit(node, lens),
        Format::ListView(size) => list_views_fit(size, node, lens),
        Format::Union => union_fits(node, lens),
        Format::DenseUnion => dense_fits(node, lens),
        Format::List(size) => {
            let count = if lens.is_empty() { 0 } else { lens[0] };
            node.children == 1 && are_cut(size, node, count)
        }
    }
}
