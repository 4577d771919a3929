//! The items of lists, and the bytes of texts, at places.
ghost use Rattle.std.specs.Prelude.{◌≡◌, ◌+◌, ◌<◌, ◌≤◌, ◌++◌, ◌^◌, ℕ, IfOk, OnOk, length, true};
ghost use Rattle.std.specs.List.{flat_map, range_with_len};
ghost use Rattle.vx_arrow_image.specs.Image.{holds_offsets, is_cut, is_valid, limit_of, offset_at, part_of, parts_of};
ghost use Rattle.vx_arrow_interleave.specs.Cuts.{AreCut, room_of};
ghost use Rattle.vx_arrow_interleave.specs.Given.{fixed_items, items, items_at};
ghost use Rattle.vx_arrow_interleave.specs.Sources.{AreAlike, ArePlaces};
ghost use Rattle.vx_arrow_interleave.specs.Spots.{spots};

use crate::faults::Fault;
use crate::spans::{Span, push_span};
use std::alloc::Global;
use vx_arrow_image::{Cut, Lack, Node, Offsets, cut_at, holds_offsets, is_there};

// Where the items of row `i` begin and end.
fn tested_cut(texts: bool, size: Offsets, node: &Node, i: usize) -> Result<Cut, Fault>
    requires held { holds_offsets size (part_of node.now) ≡ true }
    requires from { node.now.offset ≤ i }
    requires below { i < node.now.offset + node.now.len }
    ensures start { IfOk result (λ r. r.start ≡ offset_at size node.now.offsets.now i) }
    ensures end { IfOk result (λ r. r.end ≡ offset_at size node.now.offsets.now (i + 1)) }
    ensures ordered { IfOk result (λ r. r.start ≤ r.end) }
    ensures small { IfOk result (λ r. r.end < limit_of size) }
    ensures cut { OnOk result (is_cut size (part_of node.now)
        (room_of texts size (part_of node.now)) i ≡ true) }
{
    let cut = cut_at(size, node, i);
    if cut.start > cut.end {
        return Err(Fault::Lacks(Lack::Items));
    }
    if cut.end >= size.limit() {
        return Err(Fault::Lacks(Lack::Items));
    }
    if texts {
        if cut.end > node.values.len() as u64 {
            return Err(Fault::Lacks(Lack::Items));
        }
    }
    Ok(cut)
}

// Appends the items of the rows of a span, and returns how many these are and `total` more.
fn push_items(
    texts: bool,
    size: Offsets,
    node: &Node,
    span: Span,
    total: u64,
    list: &mut Vec<Span>,
) -> Result<u64, Fault>
    requires held { holds_offsets size (part_of node.now) ≡ true }
    requires from { node.now.offset ≤ span.start }
    requires below { span.start + span.len ≤ node.now.offset + node.now.len }
    requires few { node.now.offset + node.now.len < 2 ^ 60 }
    requires small { total < limit_of size }
    ensures items { OnOk result (spots list.new.items ≡ spots list.old.items
        ++ flat_map (items_at size (part_of node.now) span.source)
        (range_with_len span.start span.len)) }
    ensures total { IfOk result (λ n. n ≡ total
        + length (flat_map (items_at size (part_of node.now) span.source)
        (range_with_len span.start span.len))) }
    ensures small { IfOk result (λ n. n < limit_of size) }
    ensures cut { OnOk result ((i : ℕ) → span.start ≤ i → i < span.start + span.len
        → is_valid node.now.valid.now i ≡ true → is_cut size (part_of node.now)
        (room_of texts size (part_of node.now)) i ≡ true) }
{
    let mut sum = total;
    let start = span.start as usize;
    for i in start..start + span.len as usize {
        if is_there(node.valid, i) {
            let cut = tested_cut(texts, size, node, i)?;
            let len = cut.end - cut.start;
            sum += len;
            if sum >= size.limit() {
                return Err(Fault::Overflow);
            }
            push_span(
                list,
                Span {
                    source: span.source,
                    start: cut.start,
                    len,
                },
            )?;
        }
    }
    Ok(sum)
}

/// The items of the rows at places: bytes, where these are texts.
pub(crate) fn items_of(
    alloc: Global,
    texts: bool,
    size: Offsets,
    sources: &[Node],
    places: &[Span],
) -> Result<Vec<Span>, Fault>
    requires alike { AreAlike (parts_of sources.now) }
    requires places { ArePlaces (parts_of sources.now) (spots places.now) }
    ensures items { IfOk result
        (λ v. spots v.items ≡ items size (parts_of sources.now) (spots places.now)) }
    ensures small { OnOk result
        (length (items size (parts_of sources.now) (spots places.now)) < limit_of size) }
    ensures cut { OnOk result (AreCut texts size (parts_of sources.now) (spots places.now)) }
{
    let mut list = Vec::new(alloc);
    let mut total = 0;
    for k in 0..places.len() {
        let span = places[k];
        if span.len != 0 {
            let node = &sources[span.source as usize];
            if !holds_offsets(size, node) {
                return Err(Fault::Lacks(Lack::Offsets));
            }
            total = push_items(texts, size, node, span, total, &mut list)?;
        }
    }
    Ok(list)
}

/// The items of the rows at places, so many of each.
pub(crate) fn fixed_items_of(alloc: Global, width: u64, places: &[Span]) -> Result<Vec<Span>, Fault>
    ensures items { IfOk result
        (λ v. spots v.items ≡ fixed_items width (spots places.now)) }
{
    let mut list = Vec::new(alloc);
    for k in 0..places.len() {
        let span = places[k];
        let Some(start) = span.start.checked_mul(width) else {
            return Err(Fault::Overflow);
        };
        let Some(len) = span.len.checked_mul(width) else {
            return Err(Fault::Overflow);
        };
        push_span(
            &mut list,
            Span {
                source: span.source,
                start,
                len,
            },
        )?;
    }
    Ok(list)
}
