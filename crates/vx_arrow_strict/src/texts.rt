//! String views.
ghost use Rattle.std.specs.Prelude.{◌≡◌, ◌+◌, ◌*◌, ◌^◌, ◌<◌, ◌≤◌, length, take, true};
ghost use Rattle.std.specs.List.{list_all, range_with_len};
ghost use Rattle.vx_arrow_image.specs.Image.{format_in, part_of, parts_of, view_len, view_start};
ghost use Rattle.vx_arrow_strict.specs.Texts.{are_texts, is_buffer, is_fixed, is_long, is_padded, is_prefixed, is_text, lies_in, view_byte};

use crate::reads::{four_at, placed};
use vx_arrow_image::{Format, Node, format_of};

// Whether the format is that of values of a fixed width.
fn is_fixed(node: &Node) -> bool
    ensures { result ≡ is_fixed (format_in node.now.format) }
{
    match format_of(node.format) {
        Some(Format::Fixed) => true,
        _ => false,
    }
}

// Whether a node is a data buffer: values of one byte.
#[tactic(auto, unfolding(crate::specs::Texts::is_buffer))]
fn is_buffer(node: &Node) -> bool
    ensures { result ≡ is_buffer (part_of node.now) }
{
    if !is_fixed(node) {
        return false;
    }
    if node.width != 1 {
        return false;
    }
    if node.children != 0 {
        return false;
    }
    if !placed(node) {
        return false;
    }
    node.offset + node.len <= node.values.len() as u64
}

// Whether all of these nodes are.
fn are_buffers(nodes: &[Node]) -> bool
    ensures { result ≡ list_all (λ n. is_buffer (part_of n)) nodes.now }
{
    nodes.iter().all(|node| is_buffer(node))
}

// Byte `k` of the 12 behind the length of view `i`.
#[inline(always)]
fn view_byte(node: &Node, i: usize, k: usize) -> u8
    requires held { 16 * i + 16 ≤ length node.now.values.now }
    requires within { k < 12 }
    ensures { result ≡ view_byte (part_of node.now) i k }
{
    node.values[16 * i + 4 + k]
}

// Whether the bytes behind a short text are 0.
fn is_padded(node: &Node, i: usize, len: usize) -> bool
    requires held { 16 * i + 16 ≤ length node.now.values.now }
    requires len { len ≡ view_len (part_of node.now) i }
    requires short { len ≤ 12 }
    ensures { result ≡ is_padded (part_of node.now) i }
{
    for k in len..12 {
        if view_byte(node, i, k) != 0 {
            return false;
        }
    }
    true
}

// Whether the first four bytes of a long text, which begins at `at` of a buffer's values, are those
// of its view.
fn is_prefixed(node: &Node, buffer: &Node, i: usize, at: usize) -> bool
    requires held { 16 * i + 16 ≤ length node.now.values.now }
    requires at { at ≡ buffer.now.offset + view_start (part_of node.now) i }
    requires within { at + 4 ≤ length buffer.now.values.now }
    ensures { result ≡ is_prefixed (part_of node.now) (part_of buffer.now) i }
{
    for k in 0..4 {
        if view_byte(node, i, k) != buffer.values[at + k] {
            return false;
        }
    }
    true
}

// Whether a long text lies within a data buffer.
#[tactic(auto, unfolding(crate::specs::Texts::lies_in))]
fn lies_in(node: &Node, buffer: &Node, i: usize, len: u64) -> bool
    requires held { 16 * i + 16 ≤ length node.now.values.now }
    requires len { len ≡ view_len (part_of node.now) i }
    requires long { 12 < len }
    requires small { len < 2 ^ 32 }
    requires few { buffer.now.offset + buffer.now.len < 2 ^ 60 }
    requires bytes { buffer.now.offset + buffer.now.len ≤ length buffer.now.values.now }
    ensures { result ≡ lies_in (part_of node.now) (part_of buffer.now) i }
{
    let start = four_at(node.values, 4 * i + 3);
    if start >= 1 << 31 {
        return false;
    }
    if start + len > buffer.len {
        return false;
    }
    is_prefixed(node, buffer, i, (buffer.offset + start) as usize)
}

// Whether a long text lies within one of the data buffers, which are the first nodes below.
#[tactic(auto, unfolding(crate::specs::Texts::is_long))]
fn is_long(node: &Node, below: &[Node], i: usize, len: u64) -> bool
    requires held { 16 * i + 16 ≤ length node.now.values.now }
    requires len { len ≡ view_len (part_of node.now) i }
    requires long { 12 < len }
    requires small { len < 2 ^ 32 }
    requires children { node.now.children ≤ length below.now }
    requires buffers { list_all is_buffer (take node.now.children (parts_of below.now)) ≡ true }
    ensures { result ≡ is_long (part_of node.now) (parts_of below.now) i }
{
    let buffer = four_at(node.values, 4 * i + 2);
    if buffer >= node.children {
        return false;
    }
    lies_in(node, &below[buffer as usize], i, len)
}

// Whether the view of row `i` is a text.
#[tactic(auto, unfolding(crate::specs::Texts::is_text))]
fn is_text(node: &Node, below: &[Node], i: usize) -> bool
    requires held { 16 * i + 16 ≤ length node.now.values.now }
    requires children { node.now.children ≤ length below.now }
    requires buffers { list_all is_buffer (take node.now.children (parts_of below.now)) ≡ true }
    ensures { result ≡ is_text (part_of node.now) (parts_of below.now) i }
{
    let len = four_at(node.values, 4 * i);
    if len >= 1 << 31 {
        return false;
    }
    if len <= 12 {
        return is_padded(node, i, len as usize);
    }
    is_long(node, below, i, len)
}

// Whether the views of all rows are.
fn all_texts(node: &Node, below: &[Node]) -> bool
    requires few { node.now.offset + node.now.len < 2 ^ 60 }
    requires held { 16 * (node.now.offset + node.now.len) ≤ length node.now.values.now }
    requires children { node.now.children ≤ length below.now }
    requires buffers { list_all is_buffer (take node.now.children (parts_of below.now)) ≡ true }
    ensures { result ≡ list_all (is_text (part_of node.now) (parts_of below.now))
        (range_with_len node.now.offset node.now.len) }
{
    let start = node.offset as usize;
    for i in start..start + node.len as usize {
        if !is_text(node, below, i) {
            return false;
        }
    }
    true
}

/// Whether each row of string views is a text, nulls too. `below` are the nodes behind them.
#[tactic(auto, unfolding(crate::specs::Texts::are_texts))]
pub(crate) fn are_texts(node: &Node, below: &[Node]) -> bool
    ensures { result ≡ are_texts (part_of node.now) (parts_of below.now) }
{
    if !placed(node) {
        return false;
    }
    if 16 * (node.offset + node.len) > node.values.len() as u64 {
        return false;
    }
    if node.children > below.len() as u64 {
        return false;
    }
    if !are_buffers(&below[..node.children as usize]) {
        return false;
    }
    all_texts(node, below)
}
