//! What stands between two texts of a list.
ghost use Rattle.std.specs.Prelude.{◌≡◌, ◌+◌, ◌≤◌, ◌++◌, drop, IsOk};
ghost use Rattle.vx_print.specs.Text.{gap};

use crate::row::{ROOM, put_word};
use vx_bits::NoMemory;
use vx_quote::has_room;

/// Appends what stands in front of a text: nothing in front of the first one.
#[inline(always)]
pub(crate) fn push_gap(text: &mut Vec<u8>, is_first: bool) -> Result<(), NoMemory>
    ensures { IsOk result → text.new.items ≡ text.old.items ++ gap is_first }
{
    if !is_first {
        text.push(b',')?;
        text.push(b' ')?;
    }
    Ok(())
}

/// Appends what stands in front of a row: nothing in front of the first one. A row is begun only
/// where the text that is there is within its bound.
#[inline(always)]
pub(crate) fn push_next(text: &mut Vec<u8>, is_first: bool) -> Result<(), NoMemory>
    ensures { IsOk result → text.new.items ≡ text.old.items ++ gap is_first }
{
    if !has_room(text.len(), 0) {
        return Err(NoMemory);
    }
    push_gap(text, is_first)
}

/// Writes what stands behind a text so that it ends at `end`, and answers where it begins: nothing
/// behind the last one.
#[inline(always)]
pub(crate) fn put_gap(is_last: bool, dst: &mut [u8; ROOM], end: usize) -> usize
    requires room { 2 ≤ end }
    requires within { end ≤ ROOM }
    ensures room { end ≤ result + 2 }
    ensures within { result ≤ end }
    ensures put { drop result dst.new ≡ gap is_last ++ drop end dst.old }
{
    if is_last {
        end
    } else {
        put_word(b", ", dst, end)
    }
}
