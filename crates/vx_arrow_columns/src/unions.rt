//! The ids of a union's rows at picks.
ghost use Rattle.std.specs.Prelude.{◌≡◌, ◌+◌, ◌^◌, ◌<◌, ◌≤◌, ◌++◌, IfErr, IfOk, Some, false, drop, length, take, true};
ghost use Rattle.vx_arrow_image.specs.Image.{format_in, has_child, holds_ids, ids_of, is_placed, part_of};
ghost use Rattle.vx_arrow_columns.specs.Asked.{IsAsked, the_picking, the_picks};
ghost use Rattle.vx_arrow_columns.specs.Measured.{IsMeasured};
ghost use Rattle.vx_arrow_columns.specs.Picks.{pick_at, tags};
ghost use Rattle.vx_arrow_columns.specs.Sound.{IsOwnFault};
ghost use Rattle.vx_arrow_columns.specs.Taken.{AllAt, AreTagged, AreWithin, id_at};

use crate::faults::Fault;
use crate::needs::{Inner, Measure};
use crate::places::{Picks, place, row};
use vx_arrow_image::{Format, Lack, Node, format_of, has_child, holds_ids, ids_lack};

/// Whether a node is a union, whose rows are never null.
pub(crate) fn is_union(node: &Node) -> bool
    ensures { result ≡ tags (format_in node.now.format) }
{
    match format_of(node.format) {
        Some(Format::Union | Format::DenseUnion) => true,
        _ => false,
    }
}

/// Whether each row at the picks has the id of a child.
pub(crate) fn are_tagged(node: &Node, picks: &Picks) -> bool
    requires placed { is_placed (part_of node.now) ≡ true }
    requires within { AreWithin (the_picks picks.now) node.now.len }
    requires held { holds_ids (part_of node.now) ≡ true }
    ensures all { result ≡ true → AllAt (part_of node.now) (the_picks picks.now)
        (has_child (part_of node.now)) }
    ensures some { result ≡ false → AllAt (part_of node.now) (the_picks picks.now)
        (has_child (part_of node.now)) → ⊥ }
{
    for k in 0..picks.places.len() {
        if let Some(i) = place(node, picks, k) {
            if !has_child(node, i) {
                return false;
            }
        }
    }
    true
}

/// What the rows of a union at picks need.
pub(crate) fn measure_union(node: &Node, picks: &Picks) -> Result<Measure, Fault>
    requires { IsAsked Format.Union node.now picks.now }
    ensures measured { IfOk result (IsMeasured (part_of node.now) (the_picking picks.now)) }
    ensures fault { IfErr result (IsOwnFault (part_of node.now) (the_picks picks.now)) }
{
    if !holds_ids(node) {
        return Err(Fault::Lacks(ids_lack(node)));
    }
    if !are_tagged(node, picks) {
        return Err(Fault::Lacks(Lack::Id));
    }
    Ok(Measure {
        values: picks.places.len() as u64,
        inner: Inner::Same,
    })
}

/// The id of the row at pick `k`.
pub(crate) fn id_at(node: &Node, picks: &Picks, k: usize) -> u8
    requires index { k < length picks.now.places.now }
    requires placed { is_placed (part_of node.now) ≡ true }
    requires within { AreWithin (the_picks picks.now) node.now.len }
    requires held { holds_ids (part_of node.now) ≡ true }
    ensures { result ≡ id_at (part_of node.now)
        (pick_at picks.now.places.now picks.now.valid.now picks.now.add k) }
{
    match row(node, picks, k) {
        Some(i) => node.values[i],
        None => node.sizes[0],
    }
}

/// Writes the id of the row at each pick.
pub(crate) fn write_ids(node: &Node, picks: &Picks, out: &mut [u8])
    requires placed { is_placed (part_of node.now) ≡ true }
    requires within { AreWithin (the_picks picks.now) node.now.len }
    requires held { holds_ids (part_of node.now) ≡ true }
    requires room { length picks.now.places.now ≤ length out.old }
    ensures { AreTagged (part_of node.now) (the_picks picks.now)
        (length picks.now.places.now) out.new }
{
    for k in 0..picks.places.len() {
        out[k] = id_at(node, picks, k);
    }
}
