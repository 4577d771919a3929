//! What the rows of one node at picks need.
ghost use Rattle.std.specs.Prelude.{◌≡◌, ◌+◌, ◌<◌, ◌≤◌, IfErr, IfOk, OnOk, Some, [], false, length, true};
ghost use Rattle.vx_arrow_image.specs.Image.{format_in, holds_offsets, is_cut, is_placed, limit_of, offset_at, part_of};
ghost use Rattle.vx_arrow_columns.specs.Asked.{IsAsked, the_picking, the_picks};
ghost use Rattle.vx_arrow_columns.specs.Measured.{AreItems, IsItemsLen, list_places, list_valid};
ghost use Rattle.vx_arrow_columns.specs.Picks.{items_len, shows_valid};
ghost use Rattle.vx_arrow_columns.specs.Planned.{IsPlain};
ghost use Rattle.vx_arrow_columns.specs.Sound.{IsFault, IsTestFault};
ghost use Rattle.vx_arrow_columns.specs.Taken.{AreCutAt, AreWithin};

use crate::faults::Fault;
use crate::places::{Picks, PlaceList, Places, place};
use std::alloc::Global;
use vx_arrow_image::{
    Cut, Format, Lack, Node, Offsets, cut_at, format_of, holds_offsets, holds_valid,
};
use vx_runs::{Run, greater, push_range};

/// The picks of a child, all below `end`.
#[derive(Drop)]
pub(crate) struct Items {
    pub(crate) list: Places,
    pub(crate) end: u64,
}

/// Which rows of the children are taken.
#[derive(Drop)]
pub(crate) enum Inner {
    // There are no children.
    Leaf,
    // Those at the same picks, as many rows further on as the node's offset.
    Same,
    // These, of the only child.
    Listed(Items),
    // These, of each child its own.
    Split(Vec<Items>),
    // All, as they stand.
    Kept,
}

/// How many bytes of values a node's rows at picks are, and which rows its children's are.
#[derive(Drop)]
pub(crate) struct Measure {
    pub(crate) values: u64,
    pub(crate) inner: Inner,
}

/// Whether bits of validity are written for these rows.
pub(crate) fn shows_valid(node: &Node, picks: &Picks) -> bool
    ensures { result ≡ shows_valid (part_of node.now) (the_picking picks.now) }
{
    match format_of(node.format) {
        Some(Format::Nulls | Format::Union | Format::DenseUnion) => false,
        _ => !node.valid.is_empty() || !picks.valid.is_empty(),
    }
}

/// Whether runs serve a node: its values have a fixed width, and none is null.
pub(crate) fn is_plain(node: &Node) -> bool
    ensures { result ≡ true → IsPlain (part_of node.now) }
{
    match format_of(node.format) {
        Some(Format::Fixed) => node.valid.is_empty(),
        _ => false,
    }
}

/// The format of a node whose rows have places, and are as many as `end` at least.
pub(crate) fn tested(node: &Node, end: u64) -> Result<Format, Fault>
    ensures format { IfOk result (λ f. format_in node.now.format ≡ Some f) }
    ensures placed { OnOk result (is_placed (part_of node.now) ≡ true) }
    ensures long { OnOk result (end ≤ node.now.len) }
    ensures fault { IfErr result (IsTestFault (part_of node.now) end) }
{
    let Some(format) = format_of(node.format) else {
        return Err(Fault::Lacks(Lack::Format));
    };
    let Some(last) = node.offset.checked_add(node.len) else {
        return Err(Fault::Lacks(Lack::Rows));
    };
    if last >= 1 << 60 {
        return Err(Fault::Lacks(Lack::Rows));
    }
    if !holds_valid(node.valid, last) {
        return Err(Fault::Lacks(Lack::Valid));
    }
    if end > node.len {
        return Err(Fault::Lacks(Lack::Length));
    }
    Ok(format)
}

// Where the items of row `i` begin and end, among so many.
fn tested_cut(size: Offsets, node: &Node, i: usize, count: u64) -> Result<Cut, Fault>
    requires held { holds_offsets size (part_of node.now) ≡ true }
    requires from { node.now.offset ≤ i }
    requires below { i < node.now.offset + node.now.len }
    ensures start { IfOk result (λ r. r.start ≡ offset_at size node.now.offsets.now i) }
    ensures end { IfOk result (λ r. r.end ≡ offset_at size node.now.offsets.now (i + 1)) }
    ensures ordered { IfOk result (λ r. r.start ≤ r.end) }
    ensures small { IfOk result (λ r. r.end < limit_of size) }
    ensures cut { OnOk result (is_cut size (part_of node.now) count i ≡ true) }
    ensures fault { IfErr result (IsFault (is_cut size (part_of node.now) count i ≡ false) ⊥) }
{
    let cut = cut_at(size, node, i);
    if cut.start > cut.end {
        return Err(Fault::Lacks(Lack::Items));
    }
    // The lesser bound is the same for all rows, so a loop tests one.
    if cut.end > count.min(size.limit() - 1) {
        return Err(Fault::Lacks(Lack::Items));
    }
    Ok(cut)
}

/// How many items the lists at the picks have together, or bytes the texts, which are cut from so
/// many. It isn't inlined, so that its loop has the registers.
#[inline(never)]
pub(crate) fn count_items(
    size: Offsets,
    node: &Node,
    picks: &Picks,
    items: u64,
) -> Result<u64, Fault>
    requires placed { is_placed (part_of node.now) ≡ true }
    requires within { AreWithin (the_picks picks.now) node.now.len }
    ensures len { IfOk result (IsItemsLen size (part_of node.now) (the_picks picks.now) items) }
    ensures fault { IfErr result (IsFault
        (AreCutAt size (part_of node.now) (the_picks picks.now) items → ⊥)
        (limit_of size ≤ items_len size (part_of node.now) (the_picks picks.now))) }
{
    let own = *node;
    let all = *picks;
    if !holds_offsets(size, node) {
        return Err(Fault::Lacks(Lack::Offsets));
    }
    let mut total = 0;
    for k in 0..all.places.len() {
        if let Some(i) = place(&own, &all, k) {
            let cut = tested_cut(size, &own, i, items)?;
            total += cut.end - cut.start;
            if total >= size.limit() {
                return Err(Fault::Overflow);
            }
        }
    }
    Ok(total)
}

// The places of the items of the lists at the picks, as a run for each list that is there.
#[inline(always)]
fn runs_of(
    alloc: Global,
    size: Offsets,
    node: &Node,
    picks: &Picks,
    items: u64,
) -> Result<Items, Fault>
    requires { IsAsked (Format.List size) node.now picks.now }
    ensures items { IfOk result (λ items. AreItems size (part_of node.now) (the_picks picks.now)
        (list_places items.list) items.end) }
    ensures there { IfOk result (λ items. list_valid items.list ≡ []) }
    ensures fault { IfErr result (IsFault
        (AreCutAt size (part_of node.now) (the_picks picks.now) items → ⊥)
        (limit_of size ≤ items_len size (part_of node.now) (the_picks picks.now))) }
{
    let own = *node;
    let all = *picks;
    if !holds_offsets(size, node) {
        return Err(Fault::Lacks(Lack::Offsets));
    }
    let Ok(mut runs) = Vec::with_capacity(alloc, all.places.len()) else {
        return Err(Fault::NoMemory);
    };
    let mut last = 0;
    let mut total = 0;
    for k in 0..all.places.len() {
        if let Some(i) = place(&own, &all, k) {
            let cut = tested_cut(size, &own, i, items)?;
            let len = cut.end - cut.start;
            total += len;
            if total >= size.limit() {
                return Err(Fault::Overflow);
            }
            runs.push_reserved(Run {
                start: cut.start,
                len,
            });
            last = greater(last, cut.end);
        }
    }
    Ok(Items {
        list: Places::Runs(runs),
        end: last,
    })
}

/// The places of the items of the lists at the picks, as a run for each list that is there. Where
/// nothing is null, each size has a loop without a look at validity. It isn't inlined either.
#[inline(never)]
pub(crate) fn list_runs(
    alloc: Global,
    size: Offsets,
    node: &Node,
    picks: &Picks,
    items: u64,
) -> Result<Items, Fault>
    requires { IsAsked (Format.List size) node.now picks.now }
    ensures items { IfOk result (λ items. AreItems size (part_of node.now) (the_picks picks.now)
        (list_places items.list) items.end) }
    ensures there { IfOk result (λ items. list_valid items.list ≡ []) }
    ensures fault { IfErr result (IsFault
        (AreCutAt size (part_of node.now) (the_picks picks.now) items → ⊥)
        (limit_of size ≤ items_len size (part_of node.now) (the_picks picks.now))) }
{
    if !node.valid.is_empty() {
        return runs_of(alloc, size, node, picks, items);
    }
    if !picks.valid.is_empty() {
        return runs_of(alloc, size, node, picks, items);
    }
    match size {
        Offsets::Short => runs_of(alloc, Offsets::Short, node, picks, items),
        Offsets::Long => runs_of(alloc, Offsets::Long, node, picks, items),
    }
}

/// The places of the items of the lists at the picks, one by one. They are counted first, so that
/// no memory is asked for where they are too many. It isn't inlined either.
#[inline(never)]
pub(crate) fn list_places(
    alloc: Global,
    size: Offsets,
    node: &Node,
    picks: &Picks,
    items: u64,
) -> Result<Items, Fault>
    requires { IsAsked (Format.List size) node.now picks.now }
    ensures items { IfOk result (λ items. AreItems size (part_of node.now) (the_picks picks.now)
        (list_places items.list) items.end) }
    ensures there { IfOk result (λ items. list_valid items.list ≡ []) }
    ensures fault { IfErr result (IsFault
        (AreCutAt size (part_of node.now) (the_picks picks.now) items → ⊥)
        (limit_of size ≤ items_len size (part_of node.now) (the_picks picks.now))) }
{
    let own = *node;
    let all = *picks;
    let count = count_items(size, node, picks, items)?;
    let Ok(mut places) = Vec::with_capacity(alloc, count as usize) else {
        return Err(Fault::NoMemory);
    };
    let mut last = 0;
    let mut total = 0;
    for k in 0..all.places.len() {
        if let Some(i) = place(&own, &all, k) {
            let cut = tested_cut(size, &own, i, items)?;
            total += cut.end - cut.start;
            if total >= size.limit() {
                return Err(Fault::Overflow);
            }
            if push_range(&mut places, cut.start, cut.end).is_err() {
                return Err(Fault::NoMemory);
            }
            last = greater(last, cut.end);
        }
    }
    let valid = Vec::new(alloc);
    Ok(Items {
        list: Places::Each(PlaceList { places, valid }),
        end: last,
    })
}
