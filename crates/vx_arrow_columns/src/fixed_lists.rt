//! The items of lists of a fixed size.
ghost use Rattle.std.specs.Prelude.{◌≡◌, ◌+◌, ◌*◌, ◌/◌, ◌^◌, ◌<◌, ℕ, IfErr, IfOk, length};
ghost use Rattle.vx_arrow_image.specs.Image.{is_valid, part_of};
ghost use Rattle.vx_arrow_columns.specs.Asked.{the_picks};
ghost use Rattle.vx_arrow_columns.specs.Measured.{AreItemPlaces};
ghost use Rattle.vx_arrow_columns.specs.Picks.{fixed_item, fixed_items, has_bits, picks_of};
ghost use Rattle.vx_arrow_columns.specs.Sound.{IsFault};
ghost use Rattle.vx_arrow_columns.specs.Taken.{AreWithin};

use crate::faults::Fault;
use crate::places::{Picks, PlaceList};
use crate::puts::put_bit;
use std::alloc::Global;
use vx_arrow_image::{Node, is_there};

// Where item `m` of the lists at the picks stands; none where the pick is null.
fn item_at(node: &Node, picks: &Picks, m: usize) -> Option<u64>
    requires width { 0 < node.now.width }
    requires index { m < length picks.now.places.now * node.now.width }
    requires within { AreWithin (the_picks picks.now) node.now.len }
    requires end { (node.now.offset + node.now.len) * node.now.width < 2 ^ 60 }
    ensures { result ≡ fixed_item (part_of node.now) (the_picks picks.now) m }
{
    let width = node.width as usize;
    let k = m / width;
    if !is_there(picks.valid, k) {
        return None;
    }
    let row = node.offset + (picks.add + picks.places[k]);
    Some(row * node.width + (m % width) as u64)
}

// The places of so many items, 0 for a null one.
fn item_places(alloc: Global, node: &Node, picks: &Picks, count: usize) -> Result<Vec<u64>, Fault>
    requires count { count ≡ length picks.now.places.now * node.now.width }
    requires within { AreWithin (the_picks picks.now) node.now.len }
    requires end { (node.now.offset + node.now.len) * node.now.width < 2 ^ 60 }
    ensures places { IfOk result (λ v. AreItemPlaces (part_of node.now)
        (the_picks picks.now) count v.items) }
    ensures fault { IfErr result (IsFault ⊥ ⊥) }
{
    let mut places = Vec::new(alloc);
    for m in 0..count {
        let place = item_at(node, picks, m).unwrap_or(0);
        places.push(place)?;
    }
    Ok(places)
}

// A bit for each of so many items: that of its list. None where the lists have none.
fn item_valid(alloc: Global, valid: &[u8], width: usize, count: usize) -> Result<Vec<u8>, Fault>
    requires { 0 < count → 0 < width }
    ensures bits { IfOk result (λ v. (m : ℕ) → m < count
        → is_valid v.items m ≡ is_valid valid.now (m / width)) }
    ensures some { IfOk result (λ v. has_bits v.items ≡ has_bits valid.now) }
    ensures fault { IfErr result (IsFault ⊥ ⊥) }
{
    if valid.is_empty() {
        return Ok(Vec::new(alloc));
    }
    let Ok(mut bits) = vec![in alloc; 0u8; count / 8 + 1] else {
        return Err(Fault::NoMemory);
    };
    for m in 0..count {
        put_bit(&mut bits, m, is_there(valid, m / width));
    }
    Ok(bits)
}

/// The places of the items of the lists at the picks, so many in all.
pub(crate) fn fixed_items(
    alloc: Global,
    node: &Node,
    picks: &Picks,
    count: usize,
) -> Result<PlaceList, Fault>
    requires count { count ≡ length picks.now.places.now * node.now.width }
    requires within { AreWithin (the_picks picks.now) node.now.len }
    requires end { (node.now.offset + node.now.len) * node.now.width < 2 ^ 60 }
    ensures items { IfOk result (λ l. picks_of l.places.items l.valid.items 0
        ≡ fixed_items (part_of node.now)
        (the_picks picks.now)) }
    ensures nullable { IfOk result (λ l. has_bits l.valid.items ≡ has_bits picks.now.valid.now) }
    ensures fault { IfErr result (IsFault ⊥ ⊥) }
{
    let places = item_places(alloc, node, picks, count)?;
    let valid = item_valid(alloc, picks.valid, node.width as usize, count)?;
    Ok(PlaceList { places, valid })
}
