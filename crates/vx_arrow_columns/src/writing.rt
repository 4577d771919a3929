//! The rows of one node at picks, written.
ghost use Rattle.std.specs.Prelude.{◌≡◌, ℕ, List, ◌+◌, ◌*◌, ◌<◌, ◌≤◌, is_some, length, take, true};
ghost use Rattle.vx_arrow_image.specs.Image.{format_in, is_placed, is_valid, limit_of, part_of, size_of};
ghost use Rattle.vx_arrow_columns.specs.Asked.{the_picking, the_picks, the_run_picking, the_run_picks};
ghost use Rattle.vx_arrow_columns.specs.Bytes.{AreBitsOf, AreBytes};
ghost use Rattle.vx_arrow_columns.specs.Picks.{items_len, need_of, pick_at, place_of};
ghost use Rattle.vx_arrow_columns.specs.Planned.{IsPlain};
ghost use Rattle.vx_arrow_columns.specs.Taken.{AreCutAt, AreOffsets, AreOrdered, AreWithin, IsByteOf, IsNullable, IsReadable, bit_in, texts_of};
ghost use Rattle.vx_arrow_columns.specs.Written.{HasValid, IsWritable};
ghost use Rattle.vx_arrow_zeros.specs.Zeros.{ClearsRows, holds_bits};

use crate::copying::{write_fixed, write_numbers, write_records, write_runs};
use crate::dense::write_starts;
use crate::needs::shows_valid;
use crate::places::{Picks, RunPicks, place};
use crate::puts::put_offset;
use crate::unions::write_ids;
use vx_arrow_image::{Format, Node, Offsets, bit_is, cut_at, format_of};
use vx_arrow_zeros::clear_rows;
use vx_runs::{put_bytes, put_text, with_bit};

// A bit for each of so many picks from pick `first` on: whether its row is there.
#[inline(always)]
fn valid_byte(node: &Node, picks: &Picks, first: usize, count: usize) -> u8
    requires placed { is_placed (part_of node.now) ≡ true }
    requires within { AreWithin (the_picks picks.now) node.now.len }
    requires index { first + count ≤ length picks.now.places.now }
    requires few { count ≤ 8 }
    ensures { IsByteOf (λ k. is_some (place_of (part_of node.now)
        (pick_at picks.now.places.now picks.now.valid.now picks.now.add k))) first count result }
{
    let mut byte = 0;
    for j in 0..count {
        byte = with_bit(byte, j, place(node, picks, first + j).is_some());
    }
    byte
}

// Writes a bit for each pick: whether its row is there.
fn write_valid(node: &Node, picks: &Picks, out: &mut [u8])
    requires placed { is_placed (part_of node.now) ≡ true }
    requires within { AreWithin (the_picks picks.now) node.now.len }
    requires room { length picks.now.places.now ≤ 8 * length out.old }
    ensures { AreBitsOf is_some (part_of node.now) (the_picks picks.now) out.new }
{
    let own = *node;
    let all = *picks;
    let count = all.places.len();
    let full = count / 8;
    for b in 0..full {
        out[b] = valid_byte(&own, &all, 8 * b, 8);
    }
    if count % 8 == 0 {
        return;
    }
    out[full] = valid_byte(&own, &all, 8 * full, count % 8);
}

// The bits of so many rows at picks from pick `first` on; a clear one where a row isn't there.
#[inline(always)]
fn bits_byte(node: &Node, picks: &Picks, first: usize, count: usize) -> u8
    requires placed { is_placed (part_of node.now) ≡ true }
    requires within { AreWithin (the_picks picks.now) node.now.len }
    requires index { first + count ≤ length picks.now.places.now }
    requires few { count ≤ 8 }
    ensures { IsByteOf (λ k. bit_in node.now.values.now (place_of (part_of node.now)
        (pick_at picks.now.places.now picks.now.valid.now picks.now.add k))) first count result }
{
    let mut byte = 0;
    for j in 0..count {
        let bit = match place(node, picks, first + j) {
            Some(i) => bit_is(node.values, i),
            None => false,
        };
        byte = with_bit(byte, j, bit);
    }
    byte
}

// Writes the bit of each row that is there.
fn write_bits(node: &Node, picks: &Picks, out: &mut [u8])
    requires placed { is_placed (part_of node.now) ≡ true }
    requires within { AreWithin (the_picks picks.now) node.now.len }
    requires room { length picks.now.places.now ≤ 8 * length out.old }
    ensures { AreBitsOf (bit_in node.now.values.now) (part_of node.now) (the_picks picks.now)
        out.new }
{
    let own = *node;
    let all = *picks;
    let count = all.places.len();
    let full = count / 8;
    for b in 0..full {
        out[b] = bits_byte(&own, &all, 8 * b, 8);
    }
    if count % 8 == 0 {
        return;
    }
    out[full] = bits_byte(&own, &all, 8 * full, count % 8);
}

// Writes where the items of each row begin and end among those of all rows.
#[inline(always)]
fn write_ends(size: Offsets, node: &Node, picks: &Picks, out: &mut [u8])
    requires placed { is_placed (part_of node.now) ≡ true }
    requires within { AreWithin (the_picks picks.now) node.now.len }
    requires ordered { AreOrdered size (part_of node.now) (the_picks picks.now) }
    requires counted { items_len size (part_of node.now) (the_picks picks.now) < limit_of size }
    requires room { size_of size * (length picks.now.places.now + 1) ≤ length out.old }
    ensures { AreOffsets size (part_of node.now) (the_picks picks.now)
        (length picks.now.places.now) out.new }
{
    let own = *node;
    let all = *picks;
    let mut at = 0;
    put_offset(size, out, 0, 0);
    for k in 0..all.places.len() {
        if let Some(i) = place(&own, &all, k) {
            let cut = cut_at(size, &own, i);
            at += cut.end - cut.start;
        }
        put_offset(size, out, k + 1, at);
    }
}

// Writes the offsets of lists. Each size has a loop, and one more without a look at validity,
// where nothing is null.
#[inline(never)]
fn write_offsets(size: Offsets, node: &Node, picks: &Picks, out: &mut [u8])
    requires placed { is_placed (part_of node.now) ≡ true }
    requires within { AreWithin (the_picks picks.now) node.now.len }
    requires ordered { AreOrdered size (part_of node.now) (the_picks picks.now) }
    requires counted { items_len size (part_of node.now) (the_picks picks.now) < limit_of size }
    requires room { size_of size * (length picks.now.places.now + 1) ≤ length out.old }
    ensures { AreOffsets size (part_of node.now) (the_picks picks.now)
        (length picks.now.places.now) out.new }
{
    if !node.valid.is_empty() {
        match size {
            Offsets::Short => write_ends(Offsets::Short, node, picks, out),
            Offsets::Long => write_ends(Offsets::Long, node, picks, out),
        }
        return;
    }
    if !picks.valid.is_empty() {
        match size {
            Offsets::Short => write_ends(Offsets::Short, node, picks, out),
            Offsets::Long => write_ends(Offsets::Long, node, picks, out),
        }
        return;
    }
    match size {
        Offsets::Short => write_ends(Offsets::Short, node, picks, out),
        Offsets::Long => write_ends(Offsets::Long, node, picks, out),
    }
}

// Writes the text of each row behind those of the rows before it, and where it begins and ends.
#[inline(always)]
fn write_each_text(size: Offsets, node: &Node, picks: &Picks, offsets: &mut [u8], out: &mut [u8])
    requires placed { is_placed (part_of node.now) ≡ true }
    requires within { AreWithin (the_picks picks.now) node.now.len }
    requires cut { AreCutAt size (part_of node.now) (the_picks picks.now)
        (length node.now.values.now) }
    requires counted { items_len size (part_of node.now) (the_picks picks.now) < limit_of size }
    requires ends { size_of size * (length picks.now.places.now + 1) ≤ length offsets.old }
    requires room { items_len size (part_of node.now) (the_picks picks.now) ≤ length out.old }
    ensures offsets { AreOffsets size (part_of node.now) (the_picks picks.now)
        (length picks.now.places.now) offsets.new }
    ensures texts { take (items_len size (part_of node.now) (the_picks picks.now)) out.new
        ≡ texts_of size (part_of node.now) (the_picks picks.now) }
{
    let own = *node;
    let all = *picks;
    let mut at = 0;
    put_offset(size, offsets, 0, 0);
    for k in 0..all.places.len() {
        if let Some(i) = place(&own, &all, k) {
            let cut = cut_at(size, &own, i);
            let len = (cut.end - cut.start) as usize;
            put_text(out, at, own.values, cut.start as usize, len);
            at += len;
        }
        put_offset(size, offsets, k + 1, at as u64);
    }
}

// Writes texts and their offsets. Each size has a loop, and one more without a look at validity,
// where nothing is null. It isn't inlined, so that the loops have the registers.
#[inline(never)]
fn write_texts(size: Offsets, node: &Node, picks: &Picks, offsets: &mut [u8], out: &mut [u8])
    requires placed { is_placed (part_of node.now) ≡ true }
    requires within { AreWithin (the_picks picks.now) node.now.len }
    requires cut { AreCutAt size (part_of node.now) (the_picks picks.now)
        (length node.now.values.now) }
    requires counted { items_len size (part_of node.now) (the_picks picks.now) < limit_of size }
    requires ends { size_of size * (length picks.now.places.now + 1) ≤ length offsets.old }
    requires room { items_len size (part_of node.now) (the_picks picks.now) ≤ length out.old }
    ensures offsets { AreOffsets size (part_of node.now) (the_picks picks.now)
        (length picks.now.places.now) offsets.new }
    ensures texts { take (items_len size (part_of node.now) (the_picks picks.now)) out.new
        ≡ texts_of size (part_of node.now) (the_picks picks.now) }
{
    if !node.valid.is_empty() {
        match size {
            Offsets::Short => write_each_text(Offsets::Short, node, picks, offsets, out),
            Offsets::Long => write_each_text(Offsets::Long, node, picks, offsets, out),
        }
        return;
    }
    if !picks.valid.is_empty() {
        match size {
            Offsets::Short => write_each_text(Offsets::Short, node, picks, offsets, out),
            Offsets::Long => write_each_text(Offsets::Long, node, picks, offsets, out),
        }
        return;
    }
    match size {
        Offsets::Short => write_each_text(Offsets::Short, node, picks, offsets, out),
        Offsets::Long => write_each_text(Offsets::Long, node, picks, offsets, out),
    }
}

// Writes validity, where the rows have some.
fn write_valid_of(node: &Node, picks: &Picks, valid: &mut [u8])
    requires placed { is_placed (part_of node.now) ≡ true }
    requires within { AreWithin (the_picks picks.now) node.now.len }
    requires nullable { IsNullable (format_in node.now.format) }
    requires room { length valid.old
        ≡ (need_of (part_of node.now) (the_picking picks.now)).valid }
    ensures { HasValid (part_of node.now) (the_picking picks.now) valid.new }
{
    if !shows_valid(node, picks) {
        return;
    }
    write_valid(node, picks, valid);
}

// Writes zeros over the rows, of so many bytes each, whose bit of validity is clear.
fn clear_nulls(picks: &Picks, width: u64, valid: &[u8], out: &mut [u8])
    requires valid { holds_bits (length valid.now) (length picks.now.places.now) ≡ true }
    requires room { length picks.now.places.now * width ≤ length out.old }
    ensures { ClearsRows (is_valid valid.now) 0 (length picks.now.places.now) width
        out.old out.new }
{
    clear_rows(valid, picks.places.len(), width as usize, out);
}

// Writes bits.
fn write_bits_node(node: &Node, picks: &Picks, valid: &mut [u8], values: &mut [u8])
    requires format { IsWritable Format.Bits node.now picks.now }
    requires valid { length valid.old
        ≡ (need_of (part_of node.now) (the_picking picks.now)).valid }
    requires values { length values.old
        ≡ (need_of (part_of node.now) (the_picking picks.now)).values }
    ensures { (o s : List ℕ) → AreBytes (part_of node.now) (the_picking picks.now)
        valid.new o values.new s }
{
    write_valid_of(node, picks, valid);
    write_bits(node, picks, values);
}

// Writes values of a fixed width, and zeros under nulls.
fn write_fixed_node(node: &Node, picks: &Picks, valid: &mut [u8], values: &mut [u8])
    requires format { IsWritable Format.Fixed node.now picks.now }
    requires valid { length valid.old
        ≡ (need_of (part_of node.now) (the_picking picks.now)).valid }
    requires values { length values.old
        ≡ (need_of (part_of node.now) (the_picking picks.now)).values }
    ensures { (o s : List ℕ) → AreBytes (part_of node.now) (the_picking picks.now)
        valid.new o values.new s }
{
    write_valid_of(node, picks, valid);
    write_fixed(node, picks, values);
    clear_nulls(picks, node.width, valid, values);
}

// Writes texts.
fn write_text_node(
    size: Offsets,
    node: &Node,
    picks: &Picks,
    valid: &mut [u8],
    offsets: &mut [u8],
    values: &mut [u8],
)
    requires format { IsWritable (Format.Text size) node.now picks.now }
    requires valid { length valid.old
        ≡ (need_of (part_of node.now) (the_picking picks.now)).valid }
    requires offsets { length offsets.old
        ≡ (need_of (part_of node.now) (the_picking picks.now)).offsets }
    requires values { length values.old
        ≡ (need_of (part_of node.now) (the_picking picks.now)).values }
    ensures { (s : List ℕ) → AreBytes (part_of node.now) (the_picking picks.now)
        valid.new offsets.new values.new s }
{
    write_valid_of(node, picks, valid);
    write_texts(size, node, picks, offsets, values);
}

// Writes the lists' own part: where the items of each begin and end.
fn write_list_node(size: Offsets, node: &Node, picks: &Picks, valid: &mut [u8], offsets: &mut [u8])
    requires format { IsWritable (Format.List size) node.now picks.now }
    requires valid { length valid.old
        ≡ (need_of (part_of node.now) (the_picking picks.now)).valid }
    requires offsets { length offsets.old
        ≡ (need_of (part_of node.now) (the_picking picks.now)).offsets }
    ensures { (x s : List ℕ) → AreBytes (part_of node.now) (the_picking picks.now)
        valid.new offsets.new x s }
{
    write_valid_of(node, picks, valid);
    write_offsets(size, node, picks, offsets);
}

// Writes a struct's own part.
fn write_struct_node(node: &Node, picks: &Picks, valid: &mut [u8])
    requires format { IsWritable Format.Struct node.now picks.now }
    requires valid { length valid.old
        ≡ (need_of (part_of node.now) (the_picking picks.now)).valid }
    ensures { (o x s : List ℕ) → AreBytes (part_of node.now) (the_picking picks.now)
        valid.new o x s }
{
    write_valid_of(node, picks, valid);
}

// Writes the own part of lists of a fixed size.
fn write_fixed_list_node(node: &Node, picks: &Picks, valid: &mut [u8])
    requires format { IsWritable Format.FixedList node.now picks.now }
    requires valid { length valid.old
        ≡ (need_of (part_of node.now) (the_picking picks.now)).valid }
    ensures { (o x s : List ℕ) → AreBytes (part_of node.now) (the_picking picks.now)
        valid.new o x s }
{
    write_valid_of(node, picks, valid);
}

// Writes views of texts, and zeros under nulls.
fn write_text_view_node(node: &Node, picks: &Picks, valid: &mut [u8], values: &mut [u8])
    requires format { IsWritable Format.TextView node.now picks.now }
    requires valid { length valid.old
        ≡ (need_of (part_of node.now) (the_picking picks.now)).valid }
    requires values { length values.old
        ≡ (need_of (part_of node.now) (the_picking picks.now)).values }
    ensures { (o s : List ℕ) → AreBytes (part_of node.now) (the_picking picks.now)
        valid.new o values.new s }
{
    write_valid_of(node, picks, valid);
    write_records::<16>(node.values, node, picks, values);
    clear_nulls(picks, 16, valid, values);
}

// Writes views of lists, and zeros under nulls.
fn write_list_view_node(
    size: Offsets,
    node: &Node,
    picks: &Picks,
    valid: &mut [u8],
    offsets: &mut [u8],
    sizes: &mut [u8],
)
    requires format { IsWritable (Format.ListView size) node.now picks.now }
    requires valid { length valid.old
        ≡ (need_of (part_of node.now) (the_picking picks.now)).valid }
    requires offsets { length offsets.old
        ≡ (need_of (part_of node.now) (the_picking picks.now)).offsets }
    requires sizes { length sizes.old
        ≡ (need_of (part_of node.now) (the_picking picks.now)).sizes }
    ensures { (x : List ℕ) → AreBytes (part_of node.now) (the_picking picks.now)
        valid.new offsets.new x sizes.new }
{
    write_valid_of(node, picks, valid);
    write_numbers(size, node.offsets, node, picks, offsets);
    clear_nulls(picks, size.size(), valid, offsets);
    write_numbers(size, node.sizes, node, picks, sizes);
    clear_nulls(picks, size.size(), valid, sizes);
}

// Writes a union's own part: the ids of the rows, and those of the children.
fn write_union_node(node: &Node, picks: &Picks, values: &mut [u8], sizes: &mut [u8])
    requires format { IsWritable Format.Union node.now picks.now }
    requires values { length values.old
        ≡ (need_of (part_of node.now) (the_picking picks.now)).values }
    requires sizes { length sizes.old
        ≡ (need_of (part_of node.now) (the_picking picks.now)).sizes }
    ensures { (v o : List ℕ) → AreBytes (part_of node.now) (the_picking picks.now)
        v o values.new sizes.new }
{
    write_ids(node, picks, values);
    put_bytes(sizes, 0, &node.sizes[..node.children as usize]);
}

// Writes a dense union's own part: the ids of the rows, where these stand, and the children's ids.
fn write_dense_node(
    node: &Node,
    picks: &Picks,
    offsets: &mut [u8],
    values: &mut [u8],
    sizes: &mut [u8],
)
    requires format { IsWritable Format.DenseUnion node.now picks.now }
    requires offsets { length offsets.old
        ≡ (need_of (part_of node.now) (the_picking picks.now)).offsets }
    requires values { length values.old
        ≡ (need_of (part_of node.now) (the_picking picks.now)).values }
    requires sizes { length sizes.old
        ≡ (need_of (part_of node.now) (the_picking picks.now)).sizes }
    ensures { (v : List ℕ) → AreBytes (part_of node.now) (the_picking picks.now)
        v offsets.new values.new sizes.new }
{
    write_ids(node, picks, values);
    write_starts(node, picks, offsets);
    put_bytes(sizes, 0, &node.sizes[..node.children as usize]);
}

/// Writes the rows at runs of places, where they are of a fixed width and none is null.
pub(crate) fn write_plain(node: &Node, picks: &RunPicks, values: &mut [u8])
    requires plain { IsPlain (part_of node.now) }
    requires readable { IsReadable (part_of node.now) (the_run_picks picks.now) }
    requires values { length values.old
        ≡ (need_of (part_of node.now) (the_run_picking picks.now)).values }
    ensures { (v o s : List ℕ) → AreBytes (part_of node.now) (the_run_picking picks.now)
        v o values.new s }
{
    write_runs(node, picks, values);
}

/// Writes what a node's own lists hold of its rows at picks. They have as many bytes as these need.
pub(crate) fn write_node(
    node: &Node,
    picks: &Picks,
    valid: &mut [u8],
    offsets: &mut [u8],
    values: &mut [u8],
    sizes: &mut [u8],
)
    requires readable { IsReadable (part_of node.now) (the_picks picks.now) }
    requires valid { length valid.old
        ≡ (need_of (part_of node.now) (the_picking picks.now)).valid }
    requires offsets { length offsets.old
        ≡ (need_of (part_of node.now) (the_picking picks.now)).offsets }
    requires values { length values.old
        ≡ (need_of (part_of node.now) (the_picking picks.now)).values }
    requires sizes { length sizes.old
        ≡ (need_of (part_of node.now) (the_picking picks.now)).sizes }
    ensures { AreBytes (part_of node.now) (the_picking picks.now)
        valid.new offsets.new values.new sizes.new }
{
    match format_of(node.format) {
        Some(Format::Bits) => write_bits_node(node, picks, valid, values),
        Some(Format::Fixed) => write_fixed_node(node, picks, valid, values),
        Some(Format::Text(size)) => write_text_node(size, node, picks, valid, offsets, values),
        Some(Format::Struct) => write_struct_node(node, picks, valid),
        Some(Format::List(size)) => write_list_node(size, node, picks, valid, offsets),
        Some(Format::FixedList) => write_fixed_list_node(node, picks, valid),
        Some(Format::TextView) => write_text_view_node(node, picks, valid, values),
        Some(Format::ListView(size)) => {
            write_list_view_node(size, node, picks, valid, offsets, sizes);
        }
        Some(Format::Union) => write_union_node(node, picks, values, sizes),
        Some(Format::DenseUnion) => write_dense_node(node, picks, offsets, values, sizes),
        Some(Format::Nulls) => {}
        None => {}
    }
}
