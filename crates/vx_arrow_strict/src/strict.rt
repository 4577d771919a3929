//! The first node of a table that breaks a rule.
ghost use Rattle.std.specs.Prelude.{◌≡◌, ◌+◌, ◌<◌, IfNone, IfSome, Some, length};
ghost use Rattle.vx_arrow_image.specs.Image.{format_in, part_of, parts_of};
ghost use Rattle.vx_arrow_strict.specs.Dense.{dense_holds};
ghost use Rattle.vx_arrow_strict.specs.Lists.{lists_hold};
ghost use Rattle.vx_arrow_strict.specs.Strict.{IsFirstFlaw, IsStrict, flaw_at, flaw_of};
ghost use Rattle.vx_arrow_strict.specs.Texts.{texts_hold};

use crate::codes::has_codes;
use crate::dense::ascends;
use crate::flaw::{Extra, Flaw, Rule};
use crate::lists::are_lists;
use crate::maps::maps_hold;
use crate::nulls::counts_nulls;
use crate::texts::are_texts;
use vx_arrow_image::{Format, Node, format_of};

// Whether a node that is string views holds texts.
fn texts_hold(node: &Node, below: &[Node]) -> bool
    ensures { result
        ≡ texts_hold (format_in node.now.format) (part_of node.now) (parts_of below.now) }
{
    match format_of(node.format) {
        Some(Format::TextView) => are_texts(node, below),
        _ => true,
    }
}

// Whether a node that is list views lies within its child, which is the first node below.
fn lists_hold(node: &Node, below: &[Node]) -> bool
    ensures { result
        ≡ lists_hold (format_in node.now.format) (part_of node.now) (parts_of below.now) }
{
    match format_of(node.format) {
        Some(Format::ListView(size)) => {
            if below.is_empty() {
                return false;
            }
            are_lists(size, node, below[0].len)
        }
        _ => true,
    }
}

// Whether the offsets of a node that is a dense union ascend.
fn dense_holds(node: &Node) -> bool
    ensures { result ≡ dense_holds (format_in node.now.format) (part_of node.now) }
{
    match format_of(node.format) {
        Some(Format::DenseUnion) => ascends(node),
        _ => true,
    }
}

// The first rule that a node breaks. `below` are the nodes behind it.
#[tactic(auto, unfolding(crate::specs::Strict::flaw_of))]
fn flaw_of(node: &Node, extra: &Extra, below: &[Node]) -> Option<Rule>
    ensures { result ≡ flaw_of (part_of node.now) (Some extra.now) (parts_of below.now) }
{
    if !counts_nulls(node, extra) {
        return Some(Rule::NullCount);
    }
    if !has_codes(node, extra) {
        return Some(Rule::Codes);
    }
    if !maps_hold(node, extra, below) {
        return Some(Rule::Map);
    }
    if !texts_hold(node, below) {
        return Some(Rule::Views);
    }
    if !lists_hold(node, below) {
        return Some(Rule::ListViews);
    }
    if dense_holds(node) {
        None
    } else {
        Some(Rule::Dense)
    }
}

// The first rule that node `k` of a table breaks.
fn flaw_at(nodes: &[Node], extras: &[Extra], k: usize) -> Option<Rule>
    requires { k < length nodes.now }
    ensures { result ≡ flaw_at (parts_of nodes.now) extras.now k }
{
    if k >= extras.len() {
        return Some(Rule::NullCount);
    }
    flaw_of(&nodes[k], &extras[k], &nodes[k + 1..])
}

/// Returns the first node that breaks a rule, with the first rule that it breaks, or `None` where
/// no node does.
///
/// `extras` has an item for each node, in order. A node without one breaks the first rule. The
/// rules are those of [`Rule`], in order. Each test fails where a node's buffers are too short for
/// it.
pub fn first_flaw(nodes: &[Node], extras: &[Extra]) -> Option<Flaw>
    ensures strict { IfNone result (IsStrict (parts_of nodes.now) extras.now) }
    ensures flaw { IfSome result (IsFirstFlaw (parts_of nodes.now) extras.now) }
{
    for k in 0..nodes.len() {
        if let Some(rule) = flaw_at(nodes, extras, k) {
            return Some(Flaw { node: k, rule });
        }
    }
    None
}
