//! Bytes of one width, copied for each row at picks.
ghost use Rattle.std.specs.Prelude.{◌≡◌, ◌+◌, ◌*◌, ◌≤◌, false, length, true};
ghost use Rattle.vx_arrow_image.specs.Image.{is_placed, part_of, size_of};
ghost use Rattle.vx_arrow_columns.specs.Asked.{AreRows, the_picks, the_run_picks};
ghost use Rattle.vx_arrow_columns.specs.Picks.{picks_of};
ghost use Rattle.vx_arrow_columns.specs.Taken.{AreCopied, AreWithin};
ghost use Rattle.vx_runs.specs.Runs.{run_places};

use crate::places::{Picks, RunPicks, are_rows, row, row_at};
use vx_arrow_image::{Node, Offsets};
use vx_runs::{put_block, put_bytes, put_run, run_of};

// Writes the bytes of the row at each place, all of which are rows, also under null picks, of a
// width that is known beforehand. Node and picks are copied, so the loop keeps them in registers.
#[inline(always)]
fn write_rows<const W: usize>(src: &[u8], node: &Node, picks: &Picks, out: &mut [u8])
    requires { AreRows W src.now node.now picks.now out.old }
    ensures { AreCopied W src.now (part_of node.now) (the_picks picks.now)
        (length picks.now.places.now) out.new }
{
    let own = *node;
    let all = *picks;
    for k in 0..all.places.len() {
        let i = row_at(&own, &all, k);
        put_block::<W>(out, k * W, src, i * W);
    }
}

/// Writes the bytes of each row at a pick that isn't null, of a width that is known beforehand.
pub(crate) fn write_records<const W: usize>(src: &[u8], node: &Node, picks: &Picks, out: &mut [u8])
    requires placed { is_placed (part_of node.now) ≡ true }
    requires within { AreWithin (the_picks picks.now) node.now.len }
    requires source { (node.now.offset + node.now.len) * W ≤ length src.now }
    requires room { length picks.now.places.now * W ≤ length out.old }
    ensures { AreCopied W src.now (part_of node.now) (the_picks picks.now)
        (length picks.now.places.now) out.new }
{
    if are_rows(picks, node.len) {
        write_rows::<W>(src, node, picks, out);
        return;
    }
    for k in 0..picks.places.len() {
        if let Some(i) = row(node, picks, k) {
            put_bytes(out, k * W, &src[i * W..i * W + W]);
        }
    }
}

// Writes the value of each row at a pick that isn't null, of any width.
fn write_values(node: &Node, picks: &Picks, out: &mut [u8])
    requires placed { is_placed (part_of node.now) ≡ true }
    requires within { AreWithin (the_picks picks.now) node.now.len }
    requires values { (node.now.offset + node.now.len) * node.now.width
        ≤ length node.now.values.now }
    requires room { length picks.now.places.now * node.now.width ≤ length out.old }
    ensures { AreCopied node.now.width node.now.values.now (part_of node.now) (the_picks picks.now)
        (length picks.now.places.now) out.new }
{
    let width = node.width as usize;
    for k in 0..picks.places.len() {
        if let Some(i) = row(node, picks, k) {
            put_bytes(out, k * width, &node.values[i * width..i * width + width]);
        }
    }
}

/// Writes the values of the rows at runs of places, of any width. It isn't inlined, so that its
/// loop has the registers.
#[inline(never)]
pub(crate) fn write_runs(node: &Node, picks: &RunPicks, out: &mut [u8])
    requires placed { is_placed (part_of node.now) ≡ true }
    requires within { AreWithin (the_run_picks picks.now) node.now.len }
    requires values { (node.now.offset + node.now.len) * node.now.width
        ≤ length node.now.values.now }
    requires room { length (run_places picks.now.runs.now) * node.now.width ≤ length out.old }
    ensures { AreCopied node.now.width node.now.values.now (part_of node.now)
        (the_run_picks picks.now) (length (run_places picks.now.runs.now)) out.new }
{
    let own = *node;
    let all = *picks;
    let width = own.width as usize;
    let mut at = 0;
    for k in 0..all.runs.len() {
        let run = all.runs[k];
        if run.len != 0 {
            let from = (own.offset + all.add + run.start) as usize * width;
            let len = run.len as usize * width;
            put_run::<32>(out, at, own.values, from, len);
            at += len;
        }
    }
}

// Writes the values of the rows at picks that are one run, and says whether they are.
fn writes_run(node: &Node, picks: &Picks, out: &mut [u8]) -> bool
    requires placed { is_placed (part_of node.now) ≡ true }
    requires within { AreWithin (the_picks picks.now) node.now.len }
    requires values { (node.now.offset + node.now.len) * node.now.width
        ≤ length node.now.values.now }
    requires room { length picks.now.places.now * node.now.width ≤ length out.old }
    ensures copied { result ≡ true → AreCopied node.now.width node.now.values.now
        (part_of node.now) (the_picks picks.now) (length picks.now.places.now) out.new }
    ensures kept { result ≡ false → out.new ≡ out.old }
{
    if !picks.valid.is_empty() {
        return false;
    }
    let Some(run) = run_of(picks.places) else {
        return false;
    };
    let runs = [run];
    let all = RunPicks {
        runs: &runs,
        add: picks.add,
    };
    write_runs(node, &all, out);
    true
}

/// Writes values of a fixed width.
pub(crate) fn write_fixed(node: &Node, picks: &Picks, out: &mut [u8])
    requires placed { is_placed (part_of node.now) ≡ true }
    requires within { AreWithin (the_picks picks.now) node.now.len }
    requires values { (node.now.offset + node.now.len) * node.now.width
        ≤ length node.now.values.now }
    requires room { length picks.now.places.now * node.now.width ≤ length out.old }
    ensures { AreCopied node.now.width node.now.values.now (part_of node.now) (the_picks picks.now)
        (length picks.now.places.now) out.new }
{
    if writes_run(node, picks, out) {
        return;
    }
    match node.width {
        1 => write_records::<1>(node.values, node, picks, out),
        2 => write_records::<2>(node.values, node, picks, out),
        4 => write_records::<4>(node.values, node, picks, out),
        8 => write_records::<8>(node.values, node, picks, out),
        16 => write_records::<16>(node.values, node, picks, out),
        32 => write_records::<32>(node.values, node, picks, out),
        _ => write_values(node, picks, out),
    }
}

/// Writes a number for each row at a pick that isn't null.
pub(crate) fn write_numbers(size: Offsets, src: &[u8], node: &Node, picks: &Picks, out: &mut [u8])
    requires placed { is_placed (part_of node.now) ≡ true }
    requires within { AreWithin (the_picks picks.now) node.now.len }
    requires source { size_of size * (node.now.offset + node.now.len) ≤ length src.now }
    requires room { size_of size * length picks.now.places.now ≤ length out.old }
    ensures { AreCopied (size_of size) src.now (part_of node.now) (the_picks picks.now)
        (length picks.now.places.now) out.new }
{
    match size {
        Offsets::Short => write_records::<4>(src, node, picks, out),
        Offsets::Long => write_records::<8>(src, node, picks, out),
    }
}
