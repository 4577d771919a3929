//! About how much the rows at picks need, before these are known.
#![tactic(auto)]

ghost use Rattle.std.specs.Prelude.{◌≡◌, length};

use std::alloc::{AllocError, Global};
use vx_arrow_image::{Format, Need, Node, Offsets, cut_at, format_of, holds_offsets};

// Rows, items or bytes that each estimate has besides, so that it serves few rows too.
const SPARE: u128 = 64;

// How many rows of a node are taken.
#[derive(Clone, Copy)]
struct Asked {
    rows: u64,
    // Of how many rows of the parent, where these are shared out among its children.
    of: Option<u64>,
    // Whether bits say which of the picks are null.
    is_nullable: bool,
    is_kept: bool,
}

// Returns about how much of `total` falls to `rows` rows of `len`: the mean, and an eighth more.
fn share(total: u64, rows: u64, len: u64) -> u64 {
    if len == 0 {
        return 0;
    }
    let mean = total as u128 * rows as u128 / len as u128;
    let share = mean.saturating_add(mean / 8).saturating_add(SPARE);
    match u64::try_from(share) {
        Ok(share) => share,
        Err(_) => u64::MAX,
    }
}

// Returns how many items, or bytes, all rows of a node have; 0 where offsets lack.
fn items_of(size: Offsets, node: &Node) -> u64 {
    let Some(end) = node.offset.checked_add(node.len) else {
        return 0;
    };
    if end >= 1 << 60 || node.len == 0 || !holds_offsets(size, node) {
        return 0;
    }
    let first = cut_at(size, node, node.offset as usize);
    let last = cut_at(size, node, (end - 1) as usize);
    last.end.saturating_sub(first.start)
}

// Returns about how many rows of a node are taken.
fn rows_of(node: &Node, asked: Asked) -> u64 {
    match asked.of {
        Some(of) => asked.rows.min(share(node.len, asked.rows, of)),
        None => asked.rows,
    }
}

// Returns about how many bytes of offsets, values and sizes so many rows have.
fn bytes_of(node: &Node, rows: u64) -> Need {
    let mut need = Need {
        len: rows,
        valid: 0,
        offsets: 0,
        values: 0,
        sizes: 0,
    };
    match format_of(node.format) {
        Some(Format::Bits) => need.values = rows.div_ceil(8),
        Some(Format::Fixed) => need.values = rows.saturating_mul(node.width),
        Some(Format::Text(size)) => {
            need.offsets = rows.saturating_add(1).saturating_mul(size.size());
            need.values = share(items_of(size, node), rows, node.len);
        }
        Some(Format::List(size)) => {
            need.offsets = rows.saturating_add(1).saturating_mul(size.size());
        }
        Some(Format::TextView) => need.values = rows.saturating_mul(16),
        Some(Format::ListView(size)) => {
            need.offsets = rows.saturating_mul(size.size());
            need.sizes = need.offsets;
        }
        Some(Format::Union) => {
            need.values = rows;
            need.sizes = node.children;
        }
        Some(Format::DenseUnion) => {
            need.offsets = rows.saturating_mul(4);
            need.values = rows;
            need.sizes = node.children;
        }
        _ => {}
    }
    need
}

// Returns about what the rows of a node need.
fn need_of(node: &Node, asked: Asked) -> Need {
    if asked.is_kept {
        return Need {
            len: node.len,
            valid: 0,
            offsets: 0,
            values: 0,
            sizes: 0,
        };
    }
    let rows = rows_of(node, asked);
    let mut need = bytes_of(node, rows);
    let has_valid = !matches!(
        format_of(node.format),
        Some(Format::Nulls | Format::Union | Format::DenseUnion)
    );
    if has_valid && (asked.is_nullable || !node.valid.is_empty()) {
        need.valid = rows.div_ceil(8);
    }
    need
}

// Returns how many rows of a node's children are taken.
fn below(node: &Node, asked: Asked) -> Asked {
    let rows = rows_of(node, asked);
    let mut below = Asked {
        rows,
        of: None,
        is_nullable: asked.is_nullable,
        is_kept: asked.is_kept,
    };
    match format_of(node.format) {
        Some(Format::List(size)) => {
            below.rows = share(items_of(size, node), rows, node.len);
            below.is_nullable = false;
        }
        Some(Format::FixedList) => below.rows = rows.saturating_mul(node.width),
        Some(Format::TextView | Format::ListView(_)) => below.is_kept = true,
        Some(Format::DenseUnion) => below.of = Some(node.len),
        _ => {}
    }
    below
}

/// Writes about how many rows and bytes `rows` picks of a column take of each node, which may be
/// nullable: what the rooms of `take` of `vx_arrow_columns` can be before its needs are known.
///
/// It is what they need for formats whose rows have all one size, and else by the mean size of the
/// rows, with an eighth more. Nothing is promised: `take` tests the rooms. Needs past the nodes,
/// and past the end of a table that lacks nodes, stay as they are. Fails only if memory runs out.
pub fn guess(
    alloc: Global,
    nodes: &[Node],
    rows: u64,
    is_nullable: bool,
    needs: &mut [Need],
) -> Result<(), AllocError>
    ensures { length needs.new ≡ length needs.old }
{
    let mut asked = Vec::new(alloc);
    asked.push(Asked {
        rows,
        of: None,
        is_nullable,
        is_kept: false,
    })?;
    for i in 0..nodes.len().min(needs.len()) {
        let Some(own) = asked.pop() else {
            return Ok(());
        };
        needs[i] = need_of(&nodes[i], own);
        let children = nodes[i].children.min(nodes.len() as u64) as usize;
        let Some(len) = asked.len().checked_add(children) else {
            return Ok(());
        };
        asked.resize(len, below(&nodes[i], own))?;
    }
    Ok(())
}
