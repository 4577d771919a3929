//! Views of texts: what they show of each buffer, and new ones.
ghost use Rattle.std.specs.Prelude.{◌≡◌, ◌+◌, ◌*◌, ◌<◌, ◌≤◌, ◌++◌, ◌^◌, [], ℕ, IfOk, OnOk, drop, length, map, slice_index, take, true};
ghost use Rattle.std.specs.Int.{to_le_bytes, w32};
ghost use Rattle.std.specs.List.{flat_map, range_with_len};
ghost use Rattle.vx_arrow_image.specs.Image.{is_valid, offset_at, part_of, parts_of, view_buffer, view_len};
ghost use Rattle.vx_arrow_interleave.specs.Given.{viewed_item, viewed_items};
ghost use Rattle.vx_arrow_interleave.specs.Sources.{AreAlike, ArePlaces};
ghost use Rattle.vx_arrow_interleave.specs.Spots.{spots};
ghost use Rattle.vx_arrow_interleave.specs.TextViews.{AreViews, HoldsView, ShowViews, ViewsTo, list_at, lists_in, span_at, view_row};

use crate::faults::Fault;
use crate::spans::{Span, push_span, rows_of};
use std::alloc::Global;
use vx_arrow_image::{Lack, Node, Offsets, is_there};
use vx_runs::{put_block, put_bytes};

// Number `j` of four bytes.
#[inline(always)]
fn number_at(bytes: &[u8], j: usize) -> u32
    requires { 4 * j + 4 ≤ length bytes.now }
    ensures { result ≡ offset_at Offsets.Short bytes.now j }
{
    let at = 4 * j;
    u32::from_le_bytes([bytes[at], bytes[at + 1], bytes[at + 2], bytes[at + 3]])
}

// Appends what view `i` shows of a buffer.
fn push_view(node: &Node, source: u64, i: usize, lists: &mut Vec<Vec<Span>>) -> Result<(), Fault>
    requires there { is_valid node.now.valid.now i ≡ true }
    requires held { 16 * i + 16 ≤ length node.now.values.now }
    requires few { i < 2 ^ 60 }
    ensures many { length lists.new.items ≡ length lists.old.items }
    ensures view { OnOk result (HoldsView (length lists.old.items) (part_of node.now) i) }
    ensures lists { OnOk result ((j : ℕ) → list_at lists.new.items j
        ≡ list_at lists.old.items j ++ viewed_item j (part_of node.now) source i) }
{
    let len = number_at(node.values, 4 * i) as u64;
    if len >= 1 << 31 {
        return Err(Fault::Lacks(Lack::Items));
    }
    if len <= 12 {
        return Ok(());
    }
    let buffer = number_at(node.values, 4 * i + 2) as usize;
    if buffer >= lists.len() {
        return Err(Fault::Lacks(Lack::Items));
    }
    let start = number_at(node.values, 4 * i + 3) as u64;
    push_span(&mut lists[buffer], Span { source, start, len })?;
    Ok(())
}

// Appends what the rows of a span show of each buffer.
fn push_views(node: &Node, span: Span, lists: &mut Vec<Vec<Span>>) -> Result<(), Fault>
    requires held { 16 * (span.start + span.len) ≤ length node.now.values.now }
    requires few { span.start + span.len < 2 ^ 60 }
    ensures many { length lists.new.items ≡ length lists.old.items }
    ensures views { OnOk result ((i : ℕ) → span.start ≤ i → i < span.start + span.len
        → HoldsView (length lists.old.items) (part_of node.now) i) }
    ensures lists { OnOk result ((j : ℕ) → list_at lists.new.items j ≡ list_at lists.old.items j
        ++ flat_map (viewed_item j (part_of node.now) span.source)
        (range_with_len span.start span.len)) }
{
    let start = span.start as usize;
    for i in start..start + span.len as usize {
        if is_there(node.valid, i) {
            push_view(node, span.source, i, lists)?;
        }
    }
    Ok(())
}

// So many lists, each empty.
fn empty_lists(alloc: Global, count: u64) -> Result<Vec<Vec<Span>>, Fault>
    ensures many { IfOk result (λ lists. length lists.items ≡ count) }
    ensures empty { IfOk result (λ lists. (j : ℕ) → list_at lists.items j ≡ []) }
{
    let mut lists = Vec::new(alloc);
    for _ in 0..count {
        lists.push(Vec::new(alloc))?;
    }
    Ok(lists)
}

// Whether a list has fewer than 2^31 rows.
fn is_few(list: &Vec<Span>) -> bool
    ensures { result ≡ true → length (spots list.now.items) < 2 ^ 31 }
{
    match rows_of(list) {
        Some(rows) => rows < 1 << 31,
        None => false,
    }
}

// Whether each list has.
fn are_few(lists: &Vec<Vec<Span>>) -> bool
    ensures { result ≡ true → (j : ℕ) → j < length lists.now.items
        → length (list_at lists.now.items j) < 2 ^ 31 }
{
    for j in 0..lists.len() {
        if !is_few(&lists[j]) {
            return false;
        }
    }
    true
}

/// What the rows at places show of each of so many buffers.
pub(crate) fn viewed_items_of(
    alloc: Global,
    count: u64,
    sources: &[Node],
    places: &[Span],
) -> Result<Vec<Vec<Span>>, Fault>
    requires alike { AreAlike (parts_of sources.now) }
    requires places { ArePlaces (parts_of sources.now) (spots places.now) }
    ensures lists { IfOk result (λ v. lists_in v.items
        ≡ map (viewed_items (parts_of sources.now) (spots places.now)) (range_with_len 0 count)) }
    ensures views { OnOk result
        (ShowViews count (parts_of sources.now) (spots places.now)) }
{
    let mut lists = empty_lists(alloc, count)?;
    for k in 0..places.len() {
        let span = places[k];
        if span.len != 0 {
            let node = &sources[span.source as usize];
            if 16 * (span.start + span.len) > node.values.len() as u64 {
                return Err(Fault::Lacks(Lack::Values));
            }
            push_views(node, span, &mut lists)?;
        }
    }
    if !are_few(&lists) {
        return Err(Fault::Overflow);
    }
    Ok(lists)
}

// Writes a long text's view with a new start.
#[inline(always)]
fn put_moved(values: &[u8], i: usize, start: u64, out: &mut [u8], at: usize)
    requires held { 16 * i + 16 ≤ length values.now }
    requires start { start < 2 ^ 31 }
    requires room { at + 16 ≤ length out.old }
    ensures before { take at out.new ≡ take at out.old }
    ensures view { take 16 (drop at out.new)
        ≡ take 12 (drop (16 * i) values.now) ++ to_le_bytes w32 start }
    ensures long { length out.new ≡ length out.old }
{
    put_block::<12>(out, at, values, 16 * i);
    put_bytes(out, at + 12, &(start as u32).to_le_bytes());
}

// Writes the view of row `i` with a start of its buffer, where it is there and long.
#[inline(always)]
fn put_there(node: &Node, i: usize, starts: &mut [u64], out: &mut [u8], at: usize)
    requires there { is_valid node.now.valid.now i ≡ true }
    requires few { i < 2 ^ 60 }
    requires view { HoldsView (length starts.old) (part_of node.now) i }
    requires small { (j : ℕ) → j < length starts.old → slice_index starts.old j
        + length (viewed_item j (part_of node.now) 0 i) < 2 ^ 31 }
    requires room { at + 16 ≤ length out.old }
    ensures before { take at out.new ≡ take at out.old }
    ensures view { take 16 (drop at out.new) ≡ view_row (part_of node.now) i
        (slice_index starts.old (view_buffer (part_of node.now) i)) }
    ensures starts { (j : ℕ) → j < length starts.old → slice_index starts.new j
        ≡ slice_index starts.old j + length (viewed_item j (part_of node.now) 0 i) }
    ensures many { length starts.new ≡ length starts.old }
    ensures long { length out.new ≡ length out.old }
{
    let len = number_at(node.values, 4 * i) as u64;
    if len <= 12 {
        put_block::<16>(out, at, node.values, 16 * i);
        return;
    }
    let buffer = number_at(node.values, 4 * i + 2) as usize;
    let start = starts[buffer];
    put_moved(node.values, i, start, out, at);
    starts[buffer] = start + len;
}

// Writes the view of row `i`: zeros for a null.
#[inline(always)]
fn put_view(node: &Node, i: usize, starts: &mut [u64], out: &mut [u8], at: usize)
    requires few { i < 2 ^ 60 }
    requires view { HoldsView (length starts.old) (part_of node.now) i }
    requires small { (j : ℕ) → j < length starts.old → slice_index starts.old j
        + length (viewed_item j (part_of node.now) 0 i) < 2 ^ 31 }
    requires room { at + 16 ≤ length out.old }
    ensures before { take at out.new ≡ take at out.old }
    ensures view { take 16 (drop at out.new) ≡ view_row (part_of node.now) i
        (slice_index starts.old (view_buffer (part_of node.now) i)) }
    ensures starts { (j : ℕ) → j < length starts.old → slice_index starts.new j
        ≡ slice_index starts.old j + length (viewed_item j (part_of node.now) 0 i) }
    ensures many { length starts.new ≡ length starts.old }
    ensures long { length out.new ≡ length out.old }
{
    if is_there(node.valid, i) {
        put_there(node, i, starts, out, at);
    } else {
        put_bytes(out, at, &[0; 16]);
    }
}

// Writes the views of the rows of span `k`, which aren't none, behind those of the spans before it.
fn put_views(
    sources: &[Node],
    places: &[Span],
    k: usize,
    first: usize,
    starts: &mut [u64],
    out: &mut [u8],
)
    requires alike { AreAlike (parts_of sources.now) }
    requires places { ArePlaces (parts_of sources.now) (spots places.now) }
    requires views { ShowViews (length starts.old) (parts_of sources.now) (spots places.now) }
    requires span { k < length places.now }
    requires some { 0 < (span_at places.now k).len }
    requires first { first ≡ length (spots (take k places.now)) }
    requires before { ViewsTo (length starts.old) (parts_of sources.now)
        (spots (take k places.now)) starts.old out.old }
    requires room { 16 * length (spots places.now) ≤ length out.old }
    ensures views { ViewsTo (length starts.old) (parts_of sources.now)
        (spots (take (k + 1) places.now)) starts.new out.new }
    ensures many { length starts.new ≡ length starts.old }
    ensures long { length out.new ≡ length out.old }
{
    let span = places[k];
    let node = &sources[span.source as usize];
    let start = span.start as usize;
    for i in 0..span.len as usize {
        put_view(node, start + i, starts, out, 16 * (first + i));
    }
}

// Counts from 0 at each buffer.
fn start_anew(starts: &mut [u64])
    ensures clear { (j : ℕ) → j < length starts.old → slice_index starts.new j ≡ 0 }
    ensures many { length starts.new ≡ length starts.old }
{
    for j in 0..starts.len() {
        starts[j] = 0;
    }
}

/// Writes the view of the row at each place, which shows the bytes that `viewed_items_of` lists.
/// There is a number for each buffer, of any value, to count with.
pub(crate) fn write_views(sources: &[Node], places: &[Span], starts: &mut [u64], out: &mut [u8])
    requires alike { AreAlike (parts_of sources.now) }
    requires places { ArePlaces (parts_of sources.now) (spots places.now) }
    requires views { ShowViews (length starts.old) (parts_of sources.now) (spots places.now) }
    requires room { 16 * length (spots places.now) ≤ length out.old }
    ensures { AreViews (parts_of sources.now) (spots places.now) out.new }
{
    start_anew(starts);
    let mut first = 0;
    for k in 0..places.len() {
        let len = places[k].len as usize;
        if len != 0 {
            put_views(sources, places, k, first, starts, out);
            first += len;
        }
    }
}
