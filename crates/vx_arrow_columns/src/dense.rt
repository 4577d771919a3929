//! Dense unions: which rows of each child the rows at picks are, and where they stand there.
ghost use Rattle.std.specs.Prelude.{◌≡◌, ◌+◌, ◌*◌, ◌^◌, ◌<◌, ◌≤◌, ◌==◌, IfErr, IfOk, length, true};
ghost use Rattle.vx_arrow_image.specs.Image.{has_child, holds_ids, holds_starts, is_placed, part_of};
ghost use Rattle.vx_arrow_columns.specs.Asked.{IsAsked, the_picking, the_picks};
ghost use Rattle.vx_arrow_columns.specs.Measured.{AreDenseItems, AreRowsOf, AreShownOf, IsMeasured};
ghost use Rattle.vx_arrow_columns.specs.Picks.{dense_child, pick_at};
ghost use Rattle.vx_arrow_columns.specs.Sound.{IsFault, IsOwnFault};
ghost use Rattle.vx_arrow_columns.specs.Taken.{AllAt, AreDense, AreWithin};

use crate::faults::Fault;
use crate::needs::{Inner, Items, Measure};
use crate::places::{Picks, PlaceList, Places, row};
use crate::puts::{put_bit, put_offset};
use crate::unions::{are_tagged, id_at};
use std::alloc::Global;
use vx_arrow_image::{
    Format, Lack, Node, Offsets, child_of, holds_ids, holds_starts, ids_lack, is_there, start_of,
};
use vx_runs::greater;

/// Places, and an end above them all.
#[derive(Drop)]
pub(crate) struct Rows {
    pub(crate) places: Vec<u64>,
    pub(crate) end: u64,
}

// Whether the row at pick `k` stands in child `j`; one that is null stands in the first.
fn is_in(node: &Node, picks: &Picks, j: usize, k: usize) -> bool
    requires child { j < node.now.children }
    requires index { k < length picks.now.places.now }
    requires placed { is_placed (part_of node.now) ≡ true }
    requires within { AreWithin (the_picks picks.now) node.now.len }
    requires held { holds_ids (part_of node.now) ≡ true }
    ensures { result ≡ (dense_child (part_of node.now)
        (pick_at picks.now.places.now picks.now.valid.now picks.now.add k) == j) }
{
    let own = node.sizes[j];
    let id = id_at(node, picks, k);
    if id != own {
        return false;
    }
    child_of(&node.sizes[..node.children as usize], id) == j
}

// The places of the rows of child `j` at the picks, 0 for a null one, and an end above them all.
fn child_places(alloc: Global, node: &Node, picks: &Picks, j: usize) -> Result<Rows, Fault>
    requires child { j < node.now.children }
    requires placed { is_placed (part_of node.now) ≡ true }
    requires within { AreWithin (the_picks picks.now) node.now.len }
    requires ids { holds_ids (part_of node.now) ≡ true }
    requires starts { holds_starts Offsets.Short node.now.offsets.now
        (node.now.offset + node.now.len) ≡ true }
    ensures rows { IfOk result (AreRowsOf (part_of node.now) (the_picks picks.now) j) }
    ensures fault { IfErr result (IsFault ⊥ ⊥) }
{
    let mut places = Vec::new(alloc);
    let mut end = 0;
    for k in 0..picks.places.len() {
        if is_in(node, picks, j, k) {
            match row(node, picks, k) {
                Some(i) => {
                    let start = start_of(node, i);
                    places.push(start)?;
                    end = greater(end, start + 1);
                }
                None => places.push(0)?,
            }
        }
    }
    Ok(Rows { places, end })
}

// A bit for each row of child `j` at the picks, clear at a null one. None where no pick has one.
fn child_valid(alloc: Global, node: &Node, picks: &Picks, j: usize) -> Result<Vec<u8>, Fault>
    requires child { j < node.now.children }
    requires placed { is_placed (part_of node.now) ≡ true }
    requires within { AreWithin (the_picks picks.now) node.now.len }
    requires ids { holds_ids (part_of node.now) ≡ true }
    ensures bits { IfOk result (λ v. AreShownOf (part_of node.now) (the_picks picks.now) j
        picks.now.valid.now v.items) }
    ensures fault { IfErr result (IsFault ⊥ ⊥) }
{
    if picks.valid.is_empty() {
        return Ok(Vec::new(alloc));
    }
    let Ok(mut bits) = vec![in alloc; 0u8; picks.places.len() / 8 + 1] else {
        return Err(Fault::NoMemory);
    };
    let mut count = 0;
    for k in 0..picks.places.len() {
        if is_in(node, picks, j, k) {
            put_bit(&mut bits, count, is_there(picks.valid, k));
            count += 1;
        }
    }
    Ok(bits)
}

// The places of the rows of each child at the picks.
fn child_items(alloc: Global, node: &Node, picks: &Picks) -> Result<Vec<Items>, Fault>
    requires placed { is_placed (part_of node.now) ≡ true }
    requires within { AreWithin (the_picks picks.now) node.now.len }
    requires ids { holds_ids (part_of node.now) ≡ true }
    requires starts { holds_starts Offsets.Short node.now.offsets.now
        (node.now.offset + node.now.len) ≡ true }
    ensures items { IfOk result
        (λ v. AreDenseItems (part_of node.now) (the_picking picks.now) node.now.children v.items) }
    ensures fault { IfErr result (IsFault ⊥ ⊥) }
{
    let mut all = Vec::new(alloc);
    for j in 0..node.children as usize {
        let rows = child_places(alloc, node, picks, j)?;
        let valid = child_valid(alloc, node, picks, j)?;
        all.push(Items {
            list: Places::Each(PlaceList {
                places: rows.places,
                valid,
            }),
            end: rows.end,
        })?;
    }
    Ok(all)
}

/// Tests the rows of a dense union at picks, and says what they need.
pub(crate) fn measure_dense(alloc: Global, node: &Node, picks: &Picks) -> Result<Measure, Fault>
    requires { IsAsked Format.DenseUnion node.now picks.now }
    ensures measured { IfOk result (IsMeasured (part_of node.now) (the_picking picks.now)) }
    ensures fault { IfErr result (IsOwnFault (part_of node.now) (the_picks picks.now)) }
{
    if !holds_ids(node) {
        return Err(Fault::Lacks(ids_lack(node)));
    }
    if !holds_starts(Offsets::Short, node.offsets, node.offset + node.len) {
        return Err(Fault::Lacks(Lack::Offsets));
    }
    if !are_tagged(node, picks) {
        return Err(Fault::Lacks(Lack::Id));
    }
    if picks.places.len() >= 1 << 31 {
        return Err(Fault::Overflow);
    }
    let items = child_items(alloc, node, picks)?;
    Ok(Measure {
        values: picks.places.len() as u64,
        inner: Inner::Split(items),
    })
}

/// Writes where the row at each pick stands among those of its child.
pub(crate) fn write_starts(node: &Node, picks: &Picks, out: &mut [u8])
    requires placed { is_placed (part_of node.now) ≡ true }
    requires within { AreWithin (the_picks picks.now) node.now.len }
    requires held { holds_ids (part_of node.now) ≡ true }
    requires tagged { AllAt (part_of node.now) (the_picks picks.now)
        (has_child (part_of node.now)) }
    requires few { length picks.now.places.now < 2 ^ 31 }
    requires room { 4 * length picks.now.places.now ≤ length out.old }
    ensures { AreDense (part_of node.now) (the_picks picks.now)
        (length picks.now.places.now) out.new }
{
    let mut counts = [0u64; 256];
    for k in 0..picks.places.len() {
        let id = id_at(node, picks, k) as usize;
        put_offset(Offsets::Short, out, k, counts[id]);
        counts[id] += 1;
    }
}
