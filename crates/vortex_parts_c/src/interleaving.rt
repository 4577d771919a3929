//! Items of several lists, in any order.
ghost use Rattle.std.specs.Prelude.{false};
ghost use Rattle.vx_cuts.specs.Bits.{AreBitsInterleaved};
ghost use Rattle.vx_cuts.specs.Interleaving.{AreInterleaved, lists_in};

use vx_cuts::{Answer, BitRows, interleave_bits, interleave_records};
use vx_words::{Record16, Record32};

/// Writes for each place that record of 1 byte of that list to `dst`, and zeros at each null. Place
/// k is row `rows[k]` of list `parts[k]`, or a null's where that is all ones.
///
/// 1: `rows` and `dst` are not as long as `parts`. 4: a place is no row of the lists, and the
/// number is the first one's.
#[unsafe(no_mangle)]
pub extern "C" fn vortex_interleave_1(
    lists: &[&[u8]],
    parts: &[u64],
    rows: &[u64],
    dst: &mut [u8],
) -> Answer
    ensures { AreInterleaved 0 (lists_in lists.now) parts.now rows.now dst.old dst.new
        result.status result.value }
{
    interleave_records(lists, parts, rows, 0, dst)
}

/// Writes for each place that record of 2 bytes of that list to `dst`, and zeros at each null.
/// Place k is row `rows[k]` of list `parts[k]`, or a null's where that is all ones.
///
/// 1: `rows` and `dst` are not as long as `parts`. 4: a place is no row of the lists, and the
/// number is the first one's.
#[unsafe(no_mangle)]
pub extern "C" fn vortex_interleave_2(
    lists: &[&[u16]],
    parts: &[u64],
    rows: &[u64],
    dst: &mut [u16],
) -> Answer
    ensures { AreInterleaved 0 (lists_in lists.now) parts.now rows.now dst.old dst.new
        result.status result.value }
{
    interleave_records(lists, parts, rows, 0, dst)
}

/// Writes for each place that record of 4 bytes of that list to `dst`, and zeros at each null.
/// Place k is row `rows[k]` of list `parts[k]`, or a null's where that is all ones.
///
/// 1: `rows` and `dst` are not as long as `parts`. 4: a place is no row of the lists, and the
/// number is the first one's.
#[unsafe(no_mangle)]
pub extern "C" fn vortex_interleave_4(
    lists: &[&[u32]],
    parts: &[u64],
    rows: &[u64],
    dst: &mut [u32],
) -> Answer
    ensures { AreInterleaved 0 (lists_in lists.now) parts.now rows.now dst.old dst.new
        result.status result.value }
{
    interleave_records(lists, parts, rows, 0, dst)
}

/// Writes for each place that record of 8 bytes of that list to `dst`, and zeros at each null.
/// Place k is row `rows[k]` of list `parts[k]`, or a null's where that is all ones.
///
/// 1: `rows` and `dst` are not as long as `parts`. 4: a place is no row of the lists, and the
/// number is the first one's.
#[unsafe(no_mangle)]
pub extern "C" fn vortex_interleave_8(
    lists: &[&[u64]],
    parts: &[u64],
    rows: &[u64],
    dst: &mut [u64],
) -> Answer
    ensures { AreInterleaved 0 (lists_in lists.now) parts.now rows.now dst.old dst.new
        result.status result.value }
{
    interleave_records(lists, parts, rows, 0, dst)
}

/// Writes for each place that record of 16 bytes of that list to `dst`, and zeros at each null.
/// Place k is row `rows[k]` of list `parts[k]`, or a null's where that is all ones.
///
/// 1: `rows` and `dst` are not as long as `parts`. 4: a place is no row of the lists, and the
/// number is the first one's.
#[unsafe(no_mangle)]
pub extern "C" fn vortex_interleave_16(
    lists: &[&[Record16]],
    parts: &[u64],
    rows: &[u64],
    dst: &mut [Record16],
) -> Answer
    ensures { AreInterleaved Record16.ZERO (lists_in lists.now) parts.now rows.now dst.old dst.new
        result.status result.value }
{
    interleave_records(lists, parts, rows, Record16::ZERO, dst)
}

/// Writes for each place that record of 32 bytes of that list to `dst`, and zeros at each null.
/// Place k is row `rows[k]` of list `parts[k]`, or a null's where that is all ones.
///
/// 1: `rows` and `dst` are not as long as `parts`. 4: a place is no row of the lists, and the
/// number is the first one's.
#[unsafe(no_mangle)]
pub extern "C" fn vortex_interleave_32(
    lists: &[&[Record32]],
    parts: &[u64],
    rows: &[u64],
    dst: &mut [Record32],
) -> Answer
    ensures { AreInterleaved Record32.ZERO (lists_in lists.now) parts.now rows.now dst.old dst.new
        result.status result.value }
{
    interleave_records(lists, parts, rows, Record32::ZERO, dst)
}

/// Writes for each place that bit of that list to `dst`, a clear one at each null, and clear bits
/// to the end of the last word. Place k is row `rows[k]` of list `parts[k]`, or a null's where that
/// is all ones.
///
/// 1: `rows` is not as long as `parts`, `dst` is not of as many words as hold a bit for each, or
/// the words of a list do not hold its bits. 4: a place is no row of the lists, and the number is
/// the first one's.
#[unsafe(no_mangle)]
pub extern "C" fn vortex_interleave_bits(
    lists: &[BitRows],
    parts: &[u64],
    rows: &[u64],
    dst: &mut [u64],
) -> Answer
    ensures { AreBitsInterleaved lists.now parts.now rows.now dst.old dst.new result.status
        result.value }
{
    interleave_bits(lists, parts, rows, dst)
}
