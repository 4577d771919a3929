//! What the rows of one node at picks need, by its format.
ghost use Rattle.std.specs.Prelude.{◌≡◌, ◌<◌, ◌^◌, IfErr, IfOk, OnOk, Some, true};
ghost use Rattle.vx_arrow_image.specs.Image.{format_in, is_placed, part_of, parts_of};
ghost use Rattle.vx_arrow_columns.specs.Asked.{IsAsked, the_picking, the_picks};
ghost use Rattle.vx_arrow_columns.specs.Measured.{AreMeasured, IsLeaf, IsMeasured};
ghost use Rattle.vx_arrow_columns.specs.Planned.{child_lens};
ghost use Rattle.vx_arrow_columns.specs.Sound.{IsAskedFault, IsCountFault, IsFault, IsNodeFault, IsOwnFault};
ghost use Rattle.vx_arrow_columns.specs.Taken.{AreInside, AreWithin};

use crate::dense::measure_dense;
use crate::faults::Fault;
use crate::fixed_lists::fixed_items;
use crate::kept::{first_len, test_inside};
use crate::needs::{Inner, Items, Measure, count_items, is_plain, list_places, list_runs, tested};
use crate::places::{Picks, Places};
use crate::unions::measure_union;
use std::alloc::Global;
use vx_arrow_image::{Format, Lack, Node, Offsets, holds_starts};

// So many bytes of values, where the node has no children.
fn leaf(node: &Node, values: u64) -> Result<Measure, Fault>
    ensures leaf { IfOk result (IsLeaf (part_of node.now) values) }
    ensures fault { IfErr result (IsFault (node.now.children ≡ 0 → ⊥) ⊥) }
{
    if node.children != 0 {
        return Err(Fault::Lacks(Lack::Children));
    }
    Ok(Measure {
        values,
        inner: Inner::Leaf,
    })
}

// Of nulls.
fn measure_nulls(node: &Node, picks: &Picks) -> Result<Measure, Fault>
    requires { IsAsked Format.Nulls node.now picks.now }
    ensures measured { IfOk result (IsMeasured (part_of node.now) (the_picking picks.now)) }
    ensures fault { IfErr result (IsOwnFault (part_of node.now) (the_picks picks.now)) }
{
    leaf(node, 0)
}

// Of bits.
fn measure_bits(node: &Node, picks: &Picks) -> Result<Measure, Fault>
    requires { IsAsked Format.Bits node.now picks.now }
    ensures measured { IfOk result (IsMeasured (part_of node.now) (the_picking picks.now)) }
    ensures fault { IfErr result (IsOwnFault (part_of node.now) (the_picks picks.now)) }
{
    if (node.offset + node.len).div_ceil(8) > node.values.len() as u64 {
        return Err(Fault::Lacks(Lack::Values));
    }
    let values = (picks.places.len() as u64).div_ceil(8);
    leaf(node, values)
}

/// Of values of a fixed width, at so many picks.
pub(crate) fn measure_fixed(node: &Node, count: u64) -> Result<Measure, Fault>
    requires format { format_in node.now.format ≡ Some Format.Fixed }
    requires few { count < 2 ^ 60 }
    requires placed { is_placed (part_of node.now) ≡ true }
    ensures measured { IfOk result (AreMeasured (part_of node.now) count) }
    ensures fault { IfErr result (IsCountFault (part_of node.now) count) }
{
    let Some(held) = (node.offset + node.len).checked_mul(node.width) else {
        return Err(Fault::Lacks(Lack::Values));
    };
    if held > node.values.len() as u64 {
        return Err(Fault::Lacks(Lack::Values));
    }
    let Some(values) = count.checked_mul(node.width) else {
        return Err(Fault::Overflow);
    };
    if values >= 1 << 63 {
        return Err(Fault::Overflow);
    }
    leaf(node, values)
}

// Of texts.
fn measure_text(size: Offsets, node: &Node, picks: &Picks) -> Result<Measure, Fault>
    requires { IsAsked (Format.Text size) node.now picks.now }
    ensures measured { IfOk result (IsMeasured (part_of node.now) (the_picking picks.now)) }
    ensures fault { IfErr result (IsOwnFault (part_of node.now) (the_picks picks.now)) }
{
    let len = count_items(size, node, picks, node.values.len() as u64)?;
    leaf(node, len)
}

// Of lists.
fn measure_list(
    alloc: Global,
    size: Offsets,
    node: &Node,
    picks: &Picks,
    behind: &[Node],
) -> Result<Measure, Fault>
    requires { IsAsked (Format.List size) node.now picks.now }
    ensures measured { IfOk result (IsMeasured (part_of node.now) (the_picking picks.now)) }
    ensures fault { IfErr result (IsNodeFault (part_of node.now) (the_picks picks.now)
        (child_lens (part_of node.now) (parts_of behind.now))) }
{
    if node.children != 1 {
        return Err(Fault::Lacks(Lack::Children));
    }
    let count = first_len(behind);
    let items = if behind.len() > 0 && is_plain(&behind[0]) {
        list_runs(alloc, size, node, picks, count)?
    } else {
        list_places(alloc, size, node, picks, count)?
    };
    Ok(Measure {
        values: 0,
        inner: Inner::Listed(items),
    })
}

// Of lists of a fixed size.
fn measure_fixed_list(
    alloc: Global,
    node: &Node,
    picks: &Picks,
    behind: &[Node],
) -> Result<Measure, Fault>
    requires { IsAsked Format.FixedList node.now picks.now }
    ensures measured { IfOk result (IsMeasured (part_of node.now) (the_picking picks.now)) }
    ensures fault { IfErr result (IsNodeFault (part_of node.now) (the_picks picks.now)
        (child_lens (part_of node.now) (parts_of behind.now))) }
{
    if node.children != 1 {
        return Err(Fault::Lacks(Lack::Children));
    }
    let Some(end) = (node.offset + node.len).checked_mul(node.width) else {
        return Err(Fault::Lacks(Lack::Length));
    };
    if end >= 1 << 60 {
        return Err(Fault::Lacks(Lack::Length));
    }
    if end > first_len(behind) {
        return Err(Fault::Lacks(Lack::Items));
    }
    let Some(count) = (picks.places.len() as u64).checked_mul(node.width) else {
        return Err(Fault::Overflow);
    };
    if count >= 1 << 60 {
        return Err(Fault::Overflow);
    }
    let list = fixed_items(alloc, node, picks, count as usize)?;
    Ok(Measure {
        values: 0,
        inner: Inner::Listed(Items {
            list: Places::Each(list),
            end,
        }),
    })
}

// Of views of texts.
fn measure_text_view(node: &Node, picks: &Picks) -> Result<Measure, Fault>
    requires { IsAsked Format.TextView node.now picks.now }
    ensures measured { IfOk result (IsMeasured (part_of node.now) (the_picking picks.now)) }
    ensures fault { IfErr result (IsOwnFault (part_of node.now) (the_picks picks.now)) }
{
    if 16 * (node.offset + node.len) > node.values.len() as u64 {
        return Err(Fault::Lacks(Lack::Values));
    }
    let values = 16 * picks.places.len() as u64;
    if values >= 1 << 63 {
        return Err(Fault::Overflow);
    }
    Ok(Measure {
        values,
        inner: Inner::Kept,
    })
}

// Of views of lists.
fn measure_list_view(size: Offsets, node: &Node, picks: &Picks) -> Result<Measure, Fault>
    requires { IsAsked (Format.ListView size) node.now picks.now }
    ensures measured { IfOk result (IsMeasured (part_of node.now) (the_picking picks.now)) }
    ensures fault { IfErr result (IsOwnFault (part_of node.now) (the_picks picks.now)) }
{
    if node.children != 1 {
        return Err(Fault::Lacks(Lack::Children));
    }
    let end = node.offset + node.len;
    if !holds_starts(size, node.offsets, end) {
        return Err(Fault::Lacks(Lack::Offsets));
    }
    if !holds_starts(size, node.sizes, end) {
        return Err(Fault::Lacks(Lack::Sizes));
    }
    Ok(Measure {
        values: 0,
        inner: Inner::Kept,
    })
}

// Of a node of this format, before these nodes.
fn measure_format(
    alloc: Global,
    format: Format,
    node: &Node,
    picks: &Picks,
    behind: &[Node],
) -> Result<Measure, Fault>
    requires { IsAsked format node.now picks.now }
    ensures measured { IfOk result (IsMeasured (part_of node.now) (the_picking picks.now)) }
    ensures fault { IfErr result (IsNodeFault (part_of node.now) (the_picks picks.now)
        (child_lens (part_of node.now) (parts_of behind.now))) }
{
    match format {
        Format::Nulls => measure_nulls(node, picks),
        Format::Bits => measure_bits(node, picks),
        Format::Fixed => measure_fixed(node, picks.places.len() as u64),
        Format::Text(size) => measure_text(size, node, picks),
        Format::Struct => Ok(Measure {
            values: 0,
            inner: Inner::Same,
        }),
        Format::List(size) => measure_list(alloc, size, node, picks, behind),
        Format::FixedList => measure_fixed_list(alloc, node, picks, behind),
        Format::TextView => measure_text_view(node, picks),
        Format::ListView(size) => measure_list_view(size, node, picks),
        Format::Union => measure_union(node, picks),
        Format::DenseUnion => measure_dense(alloc, node, picks),
    }
}

/// Tests what the rows of a node at picks below `end` touch, before these nodes, and says what
/// they need.
pub(crate) fn measure_node(
    alloc: Global,
    node: &Node,
    picks: &Picks,
    end: u64,
    behind: &[Node],
) -> Result<Measure, Fault>
    requires { AreWithin (the_picks picks.now) end }
    ensures measured { IfOk result (IsMeasured (part_of node.now) (the_picking picks.now)) }
    ensures inside { OnOk result (AreInside (part_of node.now) (the_picks picks.now)
        (child_lens (part_of node.now) (parts_of behind.now))) }
    ensures fault { IfErr result (IsAskedFault (part_of node.now) (the_picks picks.now)
        (child_lens (part_of node.now) (parts_of behind.now)) end) }
{
    let format = tested(node, end)?;
    if picks.places.len() >= 1 << 60 {
        return Err(Fault::Overflow);
    }
    let measure = measure_format(alloc, format, node, picks, behind)?;
    test_inside(alloc, format, node, picks, behind)?;
    Ok(measure)
}
