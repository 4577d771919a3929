//! Keys of one column of small records, by the numbers that these spell.
ghost use Rattle.std.specs.Prelude.{◌≡◌, ℕ, ◌<◌, IfOk, IfSome, OnOk, length, map, slice_index, slice_index_or};
ghost use Rattle.std.specs.Int.{from_le_bytes, w64};
ghost use Rattle.std.specs.List.{All};
ghost use Rattle.vx_types.specs.RowValue.{null};
ghost use Rattle.vx_join.specs.Keys.{same_value};
ghost use Rattle.vx_join.specs.Numbers.{IsRecord, IsSmall, number_key};
ghost use Rattle.vx_join.specs.Pairs.{lefts, pairs, rights};

use crate::matching::Found;
use crate::runs::join_sorted;
use std::alloc::Global;
use vx_bits::NoMemory;
use vx_column::{Array, Cell};

/// How many bytes a record of the column has, where these are at most eight.
pub(crate) fn small_width(column: &Array) -> Option<usize>
    ensures { IfSome result (IsSmall column.now.dtype) }
{
    match column.dtype().width() {
        Some(width) if width <= 8 => Some(width),
        _ => None,
    }
}

// Byte `i`, or 0 past the end.
#[inline(always)]
fn byte_at(bytes: &[u8], i: usize) -> u8
    ensures { result ≡ slice_index bytes.now i }
{
    bytes.get(i).copied().unwrap_or(0)
}

/// The number that the first eight bytes spell, lowest byte first, with zeros past the end.
#[inline(always)]
pub(crate) fn spelt(bytes: &[u8]) -> u64
    ensures value { result ≡ from_le_bytes w64 bytes.now }
    ensures small { (i : ℕ) → slice_index bytes.now i < 256 }
{
    if let Some(record) = bytes.first_chunk::<8>() {
        return u64::from_le_bytes(*record);
    }
    u64::from_le_bytes([
        byte_at(bytes, 0),
        byte_at(bytes, 1),
        byte_at(bytes, 2),
        byte_at(bytes, 3),
        byte_at(bytes, 4),
        byte_at(bytes, 5),
        byte_at(bytes, 6),
        byte_at(bytes, 7),
    ])
}

// The key in row `i`, and none at a null.
fn key_at(column: &Array, i: usize, width: usize) -> Option<u64>
    requires within { i < length column.now.rows }
    requires small { IsSmall column.now.dtype width }
    ensures value { result ≡ number_key (slice_index_or column.now.rows i null) }
    ensures record_of { IsRecord width (slice_index_or column.now.rows i null) }
{
    match column.cell_at(i) {
        Cell::Null => None,
        Cell::Bit(_) | Cell::List(_) | Cell::Fields(_) | Cell::Tagged(_) => unreachable!(),
        Cell::Bytes(bytes) => Some(spelt(bytes)),
    }
}

// The keys, row by row.
fn keys_of(alloc: Global, column: &Array, width: usize) -> Result<Vec<Option<u64>>, NoMemory>
    requires { IsSmall column.now.dtype width }
    ensures keys { IfOk result (λ keys. keys.items ≡ map number_key column.now.rows) }
    ensures records { OnOk result (All (IsRecord width) column.now.rows) }
{
    let mut keys = Vec::with_capacity(alloc, column.len())?;
    for i in 0..column.len() {
        keys.push(key_at(column, i, width))?;
    }
    Ok(keys)
}

/// The pairs of rows that are equal and not null, by the left and then by the right row, of two
/// columns whose records have so many bytes, at most eight.
pub(crate) fn join_numbers(
    alloc: Global,
    left: &Array,
    right: &Array,
    width: usize,
) -> Result<Found, NoMemory>
    requires left { IsSmall left.now.dtype width }
    requires right { IsSmall right.now.dtype width }
    ensures left { IfOk result
        (λ found. found.left.items ≡ lefts (pairs same_value left.now.rows right.now.rows)) }
    ensures right { IfOk result
        (λ found. found.right.items ≡ rights (pairs same_value left.now.rows right.now.rows)) }
{
    let left_keys = keys_of(alloc, left, width)?;
    let right_keys = keys_of(alloc, right, width)?;
    join_sorted(alloc, &left_keys, &right_keys)
}
