//! Rows of a node at the picks of a step.
ghost use Rattle.std.specs.Prelude.{◌≡◌, ◌+◌, ◌*◌, ◌≤◌, length, true};
ghost use Rattle.vx_arrow.specs.Known.{IsHeld, IsSound, are_positions, numbers_at, places_of};
ghost use Rattle.vx_arrow_image.specs.Image.{part_of};
ghost use Rattle.vx_arrow_flat.specs.Flat.{HasValues, is_width};
ghost use Rattle.vx_fixed.specs.Rows.{AreWritten};

use vx_arrow::{KnownPicks, Numbers};
use vx_arrow_image::Node;
use vx_fixed::{write_at_bits, write_at_numbers, write_range};
use vx_types::PType;

// The rows at numbers of a type, whose width is known.
macro_rules! at_integers {
    ($numbers:expr, $row:ident, $rows:expr, $node:expr, $out:expr) => {
        match $numbers.ptype {
            PType::U8 => at_width!(U8, 1, $numbers, $row, $rows, $node, $out),
            PType::U16 => at_width!(U16, 2, $numbers, $row, $rows, $node, $out),
            PType::U32 => at_width!(U32, 4, $numbers, $row, $rows, $node, $out),
            PType::U64 => at_width!(U64, 8, $numbers, $row, $rows, $node, $out),
            PType::I8 => at_width!(I8, 1, $numbers, $row, $rows, $node, $out),
            PType::I16 => at_width!(I16, 2, $numbers, $row, $rows, $node, $out),
            PType::I32 => at_width!(I32, 4, $numbers, $row, $rows, $node, $out),
            PType::I64 => at_width!(I64, 8, $numbers, $row, $rows, $node, $out),
            PType::F16 | PType::F32 | PType::F64 => unreachable!(),
        }
    };
}

macro_rules! at_width {
    (
        $ptype:ident, $width:literal, $numbers:expr, $row:ident, $rows:expr, $node:expr, $out:expr
    ) => {
        write_at_numbers::<$width, $row>(
            PType::$ptype,
            $numbers.records::<$width>(),
            $rows,
            $node.values,
            $node.offset as usize,
            $out,
        )
    };
}

// Writes the rows at the numbers of a take.
fn write_at_integers<const W: usize>(node: &Node, numbers: &Numbers, out: &mut [u8])
    requires wide { W ≡ node.now.width }
    requires values { HasValues (part_of node.now) }
    requires held { IsHeld numbers.now }
    requires below { are_positions node.now.len numbers.now ≡ true }
    requires room { length (numbers_at numbers.now) * W ≤ length out.old }
    ensures { AreWritten W node.now.values.now node.now.offset (numbers_at numbers.now)
        out.old out.new }
{
    let rows = node.len as usize;
    at_integers!(numbers, W, rows, node, out)
}

// Writes the rows at picks, of a width that is known.
fn write_rows<const W: usize>(node: &Node, picks: &KnownPicks, out: &mut [u8])
    requires wide { W ≡ node.now.width }
    requires values { HasValues (part_of node.now) }
    requires sound { IsSound node.now.len picks.now }
    requires room { length (places_of picks.now) * W ≤ length out.old }
    ensures { AreWritten W node.now.values.now node.now.offset (places_of picks.now)
        out.old out.new }
{
    let from = node.offset as usize;
    match picks {
        KnownPicks::Range { start, len } => write_range(W, node.values, from, *start, *len, out),
        KnownPicks::Numbers(numbers) => write_at_integers::<W>(node, numbers, out),
        KnownPicks::Mask(bits) => write_at_bits::<W>(bits, node.values, from, out),
    }
}

/// Writes the rows of a node at picks.
pub(crate) fn write_picks(node: &Node, picks: &KnownPicks, out: &mut [u8])
    requires values { HasValues (part_of node.now) }
    requires sound { IsSound node.now.len picks.now }
    requires room { length (places_of picks.now) * node.now.width ≤ length out.old }
    ensures { AreWritten node.now.width node.now.values.now node.now.offset (places_of picks.now)
        out.old out.new }
{
    match node.width {
        1 => write_rows::<1>(node, picks, out),
        2 => write_rows::<2>(node, picks, out),
        4 => write_rows::<4>(node, picks, out),
        8 => write_rows::<8>(node, picks, out),
        16 => write_rows::<16>(node, picks, out),
        32 => write_rows::<32>(node, picks, out),
        _ => unreachable!(),
    }
}
