//! The entries of maps.
ghost use Rattle.std.specs.Prelude.{◌≡◌, ◌+◌, ◌^◌, ◌<◌, true};
ghost use Rattle.vx_arrow_image.specs.declared.format.Offsets.TheVariants.{Short};
ghost use Rattle.vx_arrow_image.specs.Image.{format_in, holds_offsets, part_of, parts_of};
ghost use Rattle.vx_arrow_strict.specs.Maps.{has_keys, is_list, is_map, is_struct, maps_hold};

use crate::flaw::Extra;
use crate::nulls::has_no_nulls;
use crate::reads::{four_at, placed};
use vx_arrow_image::{Format, Node, Offsets, format_of, holds_offsets};

// Whether the format is that of maps: lists with offsets of four bytes.
fn is_list(node: &Node) -> bool
    ensures { result ≡ is_list (format_in node.now.format) }
{
    match format_of(node.format) {
        Some(Format::List(Offsets::Short)) => true,
        _ => false,
    }
}

// Whether the format is that of structs.
fn is_struct(node: &Node) -> bool
    ensures { result ≡ is_struct (format_in node.now.format) }
{
    match format_of(node.format) {
        Some(Format::Struct) => true,
        _ => false,
    }
}

// Whether no entry that the lists span is null, and no key of one.
#[tactic(auto, unfolding(crate::specs::Maps::has_keys))]
fn has_keys(node: &Node, entries: &Node, keys: &Node) -> bool
    requires few { node.now.offset + node.now.len < 2 ^ 60 }
    requires few_entries { entries.now.offset < 2 ^ 60 }
    requires few_keys { keys.now.offset < 2 ^ 60 }
    requires held { holds_offsets Short (part_of node.now) ≡ true }
    ensures { result ≡ has_keys (part_of node.now) (part_of entries.now) (part_of keys.now) }
{
    if node.len == 0 {
        return true;
    }
    let first = four_at(node.offsets, node.offset as usize);
    let end = four_at(node.offsets, (node.offset + node.len) as usize);
    let count = end.saturating_sub(first);
    let entry = entries.offset + first;
    has_no_nulls(entries, entry, count) && has_no_nulls(keys, keys.offset + entry, count)
}

// Whether the lists' child is a struct of two children, the first of them the keys.
#[tactic(auto, unfolding(crate::specs::Maps::is_map))]
fn is_map(node: &Node, entries: &Node, keys: &Node) -> bool
    ensures { result ≡ is_map (part_of node.now) (part_of entries.now) (part_of keys.now) }
{
    if !is_list(node) {
        return false;
    }
    if !is_struct(entries) {
        return false;
    }
    if entries.children != 2 {
        return false;
    }
    if !placed(node) {
        return false;
    }
    if !placed(entries) {
        return false;
    }
    if !placed(keys) {
        return false;
    }
    if !holds_offsets(Offsets::Short, node) {
        return false;
    }
    has_keys(node, entries, keys)
}

/// Whether a map has entries as it should. `below` are the nodes behind it.
#[tactic(auto, unfolding(crate::specs::Maps::maps_hold))]
pub(crate) fn maps_hold(node: &Node, extra: &Extra, below: &[Node]) -> bool
    ensures { result ≡ maps_hold (part_of node.now) extra.now (parts_of below.now) }
{
    if extra.map == 0 {
        return true;
    }
    if below.len() < 2 {
        return false;
    }
    is_map(node, &below[0], &below[1])
}
