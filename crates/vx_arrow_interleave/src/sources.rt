//! The nodes at one place of each table, and which of their rows stand where.
ghost use Rattle.std.specs.Prelude.{◌≡◌, ◌+◌, ◌<◌, ◌≤◌, ◌∷◌, [], IfOk, OnOk, Some, length};
ghost use Rattle.std.specs.List.{list_any};
ghost use Rattle.vx_arrow_image.specs.Image.{Part, part_of, parts_of};
ghost use Rattle.vx_arrow_columns.specs.Picks.{has_bits};
ghost use Rattle.vx_arrow_interleave.specs.Given.{places};
ghost use Rattle.vx_arrow_interleave.specs.Sources.{AreAlike, ArePlaces, AreRows, IsLike, part_at, shows_valid};
ghost use Rattle.vx_arrow_interleave.specs.Spots.{spots};

use crate::faults::Fault;
use crate::spans::{Span, push_span};
use std::alloc::Global;
use vx_arrow_image::{Format, Lack, Node, format_of, holds_valid};

/// The nodes at one place of each table. It crosses a border to C as it stands.
#[repr(C)]
#[derive(Clone, Copy)]
pub struct Group<'a> {
    /// A node of each table, in the tables' order.
    pub nodes: &'a [Node<'a>],
}

// Tests that a node's rows have places and bits of validity, and that it is like the first.
fn test_like(first: &Node, node: &Node) -> Result<(), Fault>
    ensures { OnOk result (IsLike (part_of first.now) (part_of node.now)) }
{
    if node.format != first.format {
        return Err(Fault::Unlike);
    }
    if node.width != first.width {
        return Err(Fault::Unlike);
    }
    if node.children != first.children {
        return Err(Fault::Unlike);
    }
    let Some(last) = node.offset.checked_add(node.len) else {
        return Err(Fault::Lacks(Lack::Rows));
    };
    if last >= 1 << 60 {
        return Err(Fault::Lacks(Lack::Rows));
    }
    if !holds_valid(node.valid, last) {
        return Err(Fault::Lacks(Lack::Valid));
    }
    Ok(())
}

/// The format of nodes that are alike.
pub(crate) fn tested(sources: &[Node]) -> Result<Format, Fault>
    ensures format { IfOk result
        (λ f. (part_at (parts_of sources.now) 0).format ≡ Some f) }
    ensures alike { OnOk result (AreAlike (parts_of sources.now)) }
{
    if sources.len() == 0 {
        return Err(Fault::Lacks(Lack::Tree));
    }
    let Some(format) = format_of(sources[0].format) else {
        return Err(Fault::Lacks(Lack::Format));
    };
    for s in 0..sources.len() {
        test_like(&sources[0], &sources[s])?;
    }
    Ok(format)
}

// Whether one of the nodes has bits of validity.
fn have_bits(sources: &[Node]) -> bool
    ensures { result ≡ list_any (λ (p : Part). has_bits p.valid) (parts_of sources.now) }
{
    for s in 0..sources.len() {
        if !sources[s].valid.is_empty() {
            return true;
        }
    }
    false
}

/// Whether bits of validity are written for rows of these nodes.
pub(crate) fn shows_valid(sources: &[Node]) -> bool
    requires { 0 < length sources.now }
    ensures { result ≡ shows_valid (parts_of sources.now) }
{
    match format_of(sources[0].format) {
        Some(Format::Nulls | Format::Union | Format::DenseUnion) => false,
        _ => have_bits(sources),
    }
}

// A span by the places of its rows in its node's lists.
fn placed(sources: &[Node], span: Span) -> Result<Span, Fault>
    requires { AreAlike (parts_of sources.now) }
    ensures places { IfOk result (λ own. places (parts_of sources.now) (spots (span ∷ []))
        ≡ spots (own ∷ [])) }
    ensures rows { OnOk result (AreRows (parts_of sources.now) (spots (span ∷ []))) }
{
    if span.source >= sources.len() as u64 {
        return Err(Fault::Beyond);
    }
    let node = &sources[span.source as usize];
    let Some(end) = span.start.checked_add(span.len) else {
        return Err(Fault::Beyond);
    };
    if end > node.len {
        return Err(Fault::Beyond);
    }
    Ok(Span {
        source: span.source,
        start: node.offset + span.start,
        len: span.len,
    })
}

/// The places of rows in the lists of their nodes.
pub(crate) fn places_of(alloc: Global, sources: &[Node], spans: &[Span]) -> Result<Vec<Span>, Fault>
    requires { AreAlike (parts_of sources.now) }
    ensures places { IfOk result
        (λ own. spots own.items ≡ places (parts_of sources.now) (spots spans.now)) }
    ensures rows { OnOk result (AreRows (parts_of sources.now) (spots spans.now)) }
    ensures within { IfOk result
        (λ own. ArePlaces (parts_of sources.now) (spots own.items)) }
{
    let mut own = Vec::new(alloc);
    for k in 0..spans.len() {
        push_span(&mut own, placed(sources, spans[k])?)?;
    }
    Ok(own)
}
