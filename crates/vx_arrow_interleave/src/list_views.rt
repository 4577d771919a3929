//! List views: the items of the rows at places, and the numbers that say which these are.
ghost use Rattle.std.specs.Prelude.{◌≡◌, ◌+◌, ◌*◌, ◌<◌, ◌≤◌, ◌++◌, ◌^◌, ℕ, IfOk, OnOk, length, true};
ghost use Rattle.std.specs.List.{flat_map, range_with_len};
ghost use Rattle.vx_arrow_image.specs.Image.{holds_starts, limit_of, offset_at, part_of, parts_of, size_of};
ghost use Rattle.vx_arrow_interleave.specs.Given.{view_items, view_items_at};
ghost use Rattle.vx_arrow_interleave.specs.Sources.{AreAlike, ArePlaces};
ghost use Rattle.vx_arrow_interleave.specs.Spots.{spots};
ghost use Rattle.vx_arrow_interleave.specs.Views.{AreSizes, AreStarts, HoldSizes, HoldStarts, view_size};

use crate::faults::Fault;
use crate::spans::{Span, push_span};
use std::alloc::Global;
use vx_arrow_columns::put_offset;
use vx_arrow_image::{Lack, Node, Offsets, holds_starts, is_there};

// Number `j` of four bytes.
#[inline(always)]
fn short_number(numbers: &[u8], j: usize) -> u32
    requires { 4 * j + 4 ≤ length numbers.now }
    ensures { result ≡ offset_at Offsets.Short numbers.now j }
{
    let at = 4 * j;
    u32::from_le_bytes([
        numbers[at],
        numbers[at + 1],
        numbers[at + 2],
        numbers[at + 3],
    ])
}

// Number `j` of eight bytes.
#[inline(always)]
fn long_number(numbers: &[u8], j: usize) -> u64
    requires { 8 * j + 8 ≤ length numbers.now }
    ensures { result ≡ offset_at Offsets.Long numbers.now j }
{
    let at = 8 * j;
    u64::from_le_bytes([
        numbers[at],
        numbers[at + 1],
        numbers[at + 2],
        numbers[at + 3],
        numbers[at + 4],
        numbers[at + 5],
        numbers[at + 6],
        numbers[at + 7],
    ])
}

// Number `j`.
#[inline(always)]
fn number_at(size: Offsets, numbers: &[u8], j: usize) -> u64
    requires { size_of size * j + size_of size ≤ length numbers.now }
    ensures { result ≡ offset_at size numbers.now j }
{
    match size {
        Offsets::Short => short_number(numbers, j) as u64,
        Offsets::Long => long_number(numbers, j),
    }
}

// How many items list view `i` has, none where it isn't there.
#[inline(always)]
fn len_at(size: Offsets, node: &Node, i: usize) -> u64
    requires { size_of size * i + size_of size ≤ length node.now.sizes.now }
    ensures { result ≡ view_size size (part_of node.now) i }
{
    if is_there(node.valid, i) {
        number_at(size, node.sizes, i)
    } else {
        0
    }
}

// Tests that the rows of a span have a start and a size.
fn test_views(size: Offsets, node: &Node, span: Span) -> Result<(), Fault>
    requires few { span.start + span.len < 2 ^ 60 }
    ensures starts { OnOk result (holds_starts size node.now.offsets.now
        (span.start + span.len) ≡ true) }
    ensures sizes { OnOk result (holds_starts size node.now.sizes.now
        (span.start + span.len) ≡ true) }
{
    let end = span.start + span.len;
    if !holds_starts(size, node.offsets, end) {
        return Err(Fault::Lacks(Lack::Offsets));
    }
    if !holds_starts(size, node.sizes, end) {
        return Err(Fault::Lacks(Lack::Sizes));
    }
    Ok(())
}

// Appends the items of the rows of a span, and returns how many these are and `total` more.
fn push_views(
    size: Offsets,
    node: &Node,
    span: Span,
    total: u64,
    list: &mut Vec<Span>,
) -> Result<u64, Fault>
    requires few { span.start + span.len < 2 ^ 60 }
    requires starts { size_of size * (span.start + span.len) ≤ length node.now.offsets.now }
    requires sizes { size_of size * (span.start + span.len) ≤ length node.now.sizes.now }
    requires small { total < limit_of size }
    ensures items { OnOk result (spots list.new.items ≡ spots list.old.items
        ++ flat_map (view_items_at size (part_of node.now) span.source)
        (range_with_len span.start span.len)) }
    ensures total { IfOk result (λ n. n ≡ total
        + length (flat_map (view_items_at size (part_of node.now) span.source)
        (range_with_len span.start span.len))) }
    ensures small { IfOk result (λ n. n < limit_of size) }
{
    let mut sum = total;
    let first = span.start as usize;
    for j in 0..span.len as usize {
        let len = len_at(size, node, first + j);
        if len >= size.limit() {
            return Err(Fault::Lacks(Lack::Items));
        }
        sum += len;
        if sum >= size.limit() {
            return Err(Fault::Overflow);
        }
        let start = number_at(size, node.offsets, first + j);
        push_span(
            list,
            Span {
                source: span.source,
                start,
                len,
            },
        )?;
    }
    Ok(sum)
}

/// The items of the list views at places.
pub(crate) fn view_items_of(
    alloc: Global,
    size: Offsets,
    sources: &[Node],
    places: &[Span],
) -> Result<Vec<Span>, Fault>
    requires alike { AreAlike (parts_of sources.now) }
    requires places { ArePlaces (parts_of sources.now) (spots places.now) }
    ensures items { IfOk result
        (λ v. spots v.items ≡ view_items size (parts_of sources.now) (spots places.now)) }
    ensures small { OnOk result
        (length (view_items size (parts_of sources.now) (spots places.now)) < limit_of size) }
    ensures starts { OnOk result (HoldStarts size (parts_of sources.now) (spots places.now)) }
    ensures sizes { OnOk result (HoldSizes size (parts_of sources.now) (spots places.now)) }
{
    let mut list = Vec::new(alloc);
    let mut total = 0;
    for k in 0..places.len() {
        let span = places[k];
        if span.len != 0 {
            let node = &sources[span.source as usize];
            test_views(size, node, span)?;
            total = push_views(size, node, span, total, &mut list)?;
        }
    }
    Ok(list)
}

// Writes where the items of so many rows begin that have numbers from `first` on, and returns where
// the last one's end. The items before them are `total`.
fn put_starts(
    size: Offsets,
    node: &Node,
    span: Span,
    first: usize,
    total: u64,
    out: &mut [u8],
) -> u64
    requires few { span.start + span.len < 2 ^ 60 }
    requires sizes { size_of size * (span.start + span.len) ≤ length node.now.sizes.now }
    requires counted { total + length (flat_map (view_items_at size (part_of node.now) span.source)
        (range_with_len span.start span.len)) < limit_of size }
    requires room { size_of size * (first + span.len) ≤ length out.old }
    ensures total { result ≡ total + length (flat_map (view_items_at size (part_of node.now)
        span.source) (range_with_len span.start span.len)) }
    ensures starts { (i : ℕ) → i < span.len → offset_at size out.new (first + i) ≡ total
        + length (flat_map (view_items_at size (part_of node.now) span.source)
        (range_with_len span.start i)) }
    ensures before { (j : ℕ) → j < first → offset_at size out.new j ≡ offset_at size out.old j }
    ensures long { length out.new ≡ length out.old }
{
    let mut sum = total;
    let start = span.start as usize;
    for i in 0..span.len as usize {
        put_offset(size, out, first + i, sum);
        sum += len_at(size, node, start + i);
    }
    sum
}

/// Writes where the items of the list view at each place begin among those of all rows.
pub(crate) fn write_starts(size: Offsets, sources: &[Node], places: &[Span], out: &mut [u8])
    requires alike { AreAlike (parts_of sources.now) }
    requires places { ArePlaces (parts_of sources.now) (spots places.now) }
    requires held { HoldSizes size (parts_of sources.now) (spots places.now) }
    requires counted { length (view_items size (parts_of sources.now) (spots places.now))
        < limit_of size }
    requires room { size_of size * length (spots places.now) ≤ length out.old }
    ensures { AreStarts size (parts_of sources.now) (spots places.now) out.new }
{
    let mut first = 0;
    let mut total = 0;
    for k in 0..places.len() {
        let span = places[k];
        if span.len != 0 {
            let node = &sources[span.source as usize];
            total = put_starts(size, node, span, first, total, out);
            first += span.len as usize;
        }
    }
}

// Writes how many items so many rows have that have numbers from `first` on.
fn put_sizes(size: Offsets, node: &Node, span: Span, first: usize, out: &mut [u8])
    requires few { span.start + span.len < 2 ^ 60 }
    requires sizes { size_of size * (span.start + span.len) ≤ length node.now.sizes.now }
    requires counted { length (flat_map (view_items_at size (part_of node.now) span.source)
        (range_with_len span.start span.len)) < limit_of size }
    requires room { size_of size * (first + span.len) ≤ length out.old }
    ensures sizes { (i : ℕ) → i < span.len → offset_at size out.new (first + i)
        ≡ length (view_items_at size (part_of node.now) span.source (span.start + i)) }
    ensures before { (j : ℕ) → j < first → offset_at size out.new j ≡ offset_at size out.old j }
    ensures long { length out.new ≡ length out.old }
{
    let start = span.start as usize;
    for i in 0..span.len as usize {
        put_offset(size, out, first + i, len_at(size, node, start + i));
    }
}

/// Writes how many items the list view at each place has.
pub(crate) fn write_sizes(size: Offsets, sources: &[Node], places: &[Span], out: &mut [u8])
    requires alike { AreAlike (parts_of sources.now) }
    requires places { ArePlaces (parts_of sources.now) (spots places.now) }
    requires held { HoldSizes size (parts_of sources.now) (spots places.now) }
    requires counted { length (view_items size (parts_of sources.now) (spots places.now))
        < limit_of size }
    requires room { size_of size * length (spots places.now) ≤ length out.old }
    ensures { AreSizes size (parts_of sources.now) (spots places.now) out.new }
{
    let mut first = 0;
    for k in 0..places.len() {
        let span = places[k];
        if span.len != 0 {
            let node = &sources[span.source as usize];
            put_sizes(size, node, span, first, out);
            first += span.len as usize;
        }
    }
}
