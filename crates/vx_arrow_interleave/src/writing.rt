//! The rows of several nodes at places, written.
ghost use Rattle.std.specs.Prelude.{◌≡◌, ◌+◌, ◌*◌, ◌<◌, ◌≤◌, ◌++◌, ◌^◌, ℕ, drop, false, length, take, true};
ghost use Rattle.std.specs.List.{flat_map, range_with_len};
ghost use Rattle.vx_arrow_image.specs.Image.{bit_of, holds_offsets, is_cut, is_valid, limit_of, offset_at, part_of, parts_of, size_of};
ghost use Rattle.vx_arrow_interleave.specs.Bytes.{AreBits, AreOffsets, HoldRecords, bit_by, bit_in, records};
ghost use Rattle.vx_arrow_interleave.specs.Cuts.{AreOrdered};
ghost use Rattle.vx_arrow_interleave.specs.Given.{items, items_at};
ghost use Rattle.vx_arrow_interleave.specs.Sources.{AreAlike, ArePlaces};
ghost use Rattle.vx_arrow_interleave.specs.Spots.{spots};

use crate::spans::Span;
use vx_arrow_columns::{put_bit, put_offset};
use vx_arrow_image::{Node, Offsets, bit_is, cut_at, is_there};
use vx_runs::put_run;

// Writes the bytes of the rows of a span, so many each, from `at` on, and returns where they end.
#[inline(always)]
fn put_records(width: usize, values: &[u8], span: Span, out: &mut [u8], at: usize) -> usize
    requires held { span.start * width + span.len * width ≤ length values.now }
    requires room { at + span.len * width ≤ length out.old }
    ensures end { result ≡ at + span.len * width }
    ensures put { take (at + span.len * width) out.new
        ≡ take at out.old ++ take (span.len * width) (drop (span.start * width) values.now) }
{
    let len = span.len as usize * width;
    put_run::<32>(out, at, values, span.start as usize * width, len);
    at + len
}

/// Writes the bytes of the rows at places, so many each.
pub(crate) fn write_records(width: usize, sources: &[Node], places: &[Span], out: &mut [u8])
    requires held { HoldRecords width (parts_of sources.now) (spots places.now) }
    requires room { length (spots places.now) * width ≤ length out.old }
    ensures { take (length (spots places.now) * width) out.new
        ≡ records width (parts_of sources.now) (spots places.now) }
{
    let mut at = 0;
    for k in 0..places.len() {
        let span = places[k];
        if span.len != 0 {
            let values = sources[span.source as usize].values;
            at = put_records(width, values, span, out, at);
        }
    }
}

/// Which bits of a node.
#[derive(Clone, Copy)]
pub(crate) enum BitsOf {
    Validity,
    Values,
}

// Bit `i` of a node.
#[inline(always)]
fn bit_by(of: BitsOf, node: &Node, i: usize) -> bool
    ensures { result ≡ bit_by of (part_of node.now) i }
{
    match of {
        BitsOf::Validity => is_there(node.valid, i),
        BitsOf::Values => bit_is(node.values, i),
    }
}

// Writes so many bits of a node from bit `start` on, to the bits from `at` on.
fn put_bits(of: BitsOf, node: &Node, start: usize, len: usize, out: &mut [u8], at: usize)
    requires few { start + len < 2 ^ 60 }
    requires small { at + len < 2 ^ 60 }
    requires room { at + len ≤ 8 * length out.old }
    ensures bits { (i : ℕ) → i < len
        → bit_of out.new (at + i) ≡ bit_by of (part_of node.now) (start + i) }
    ensures before { (j : ℕ) → j < at → bit_of out.new j ≡ bit_of out.old j }
    ensures behind { (j : ℕ) → at + len ≤ j → bit_of out.new j ≡ bit_of out.old j }
    ensures long { length out.new ≡ length out.old }
{
    for i in 0..len {
        put_bit(out, at + i, bit_by(of, node, start + i));
    }
}

// Writes zeros over all bytes.
fn clear(out: &mut [u8])
    ensures clear { (j : ℕ) → bit_of out.new j ≡ false }
    ensures long { length out.new ≡ length out.old }
{
    for k in 0..out.len() {
        out[k] = 0;
    }
}

/// Writes the bit of the row at each place, and clear ones behind them.
pub(crate) fn write_bits(of: BitsOf, sources: &[Node], places: &[Span], out: &mut [u8])
    requires alike { AreAlike (parts_of sources.now) }
    requires places { ArePlaces (parts_of sources.now) (spots places.now) }
    requires few { length (spots places.now) < 2 ^ 60 }
    requires room { length (spots places.now) ≤ 8 * length out.old }
    ensures { AreBits (bit_in of (parts_of sources.now)) (spots places.now) out.new }
{
    clear(out);
    let mut at = 0;
    for k in 0..places.len() {
        let span = places[k];
        if span.len != 0 {
            let node = &sources[span.source as usize];
            put_bits(of, node, span.start as usize, span.len as usize, out, at);
            at += span.len as usize;
        }
    }
}

// Writes where the items of so many rows end that have numbers from `first` on, and returns where
// the last one's do. The items before them are `total`.
fn put_ends(size: Offsets, node: &Node, span: Span, first: usize, total: u64, out: &mut [u8]) -> u64
    requires held { holds_offsets size (part_of node.now) ≡ true }
    requires from { node.now.offset ≤ span.start }
    requires below { span.start + span.len ≤ node.now.offset + node.now.len }
    requires few { node.now.offset + node.now.len < 2 ^ 60 }
    requires cut { (i : ℕ) → span.start ≤ i → i < span.start + span.len
        → is_valid node.now.valid.now i ≡ true → offset_at size node.now.offsets.now i
        ≤ offset_at size node.now.offsets.now (i + 1) }
    requires counted { total + length (flat_map (items_at size (part_of node.now) span.source)
        (range_with_len span.start span.len)) < limit_of size }
    requires room { size_of size * (first + span.len + 1) ≤ length out.old }
    requires total { offset_at size out.old first ≡ total }
    ensures total { result ≡ total + length (flat_map (items_at size (part_of node.now)
        span.source) (range_with_len span.start span.len)) }
    ensures ends { (i : ℕ) → i ≤ span.len → offset_at size out.new (first + i) ≡ total
        + length (flat_map (items_at size (part_of node.now) span.source)
        (range_with_len span.start i)) }
    ensures before { (j : ℕ) → j < first → offset_at size out.new j ≡ offset_at size out.old j }
    ensures long { length out.new ≡ length out.old }
{
    let mut sum = total;
    let start = span.start as usize;
    for i in 0..span.len as usize {
        if is_there(node.valid, start + i) {
            let cut = cut_at(size, node, start + i);
            sum += cut.end - cut.start;
        }
        put_offset(size, out, first + i + 1, sum);
    }
    sum
}

/// Writes where the items of the row at each place begin and end among those of all rows.
pub(crate) fn write_offsets(size: Offsets, sources: &[Node], places: &[Span], out: &mut [u8])
    requires alike { AreAlike (parts_of sources.now) }
    requires places { ArePlaces (parts_of sources.now) (spots places.now) }
    requires cut { AreOrdered size (parts_of sources.now) (spots places.now) }
    requires counted { length (items size (parts_of sources.now) (spots places.now))
        < limit_of size }
    requires room { size_of size * (length (spots places.now) + 1) ≤ length out.old }
    ensures { AreOffsets size (parts_of sources.now) (spots places.now) out.new }
{
    let mut first = 0;
    let mut total = 0;
    put_offset(size, out, 0, 0);
    for k in 0..places.len() {
        let span = places[k];
        if span.len != 0 {
            let node = &sources[span.source as usize];
            total = put_ends(size, node, span, first, total, out);
            first += span.len as usize;
        }
    }
}
