//! Lines of bits of which none is null, written by blocks: each block from its last row back to
//! its first.
ghost use Rattle.std.specs.Prelude.{◌≡◌, ◌+◌, ◌≤◌, ◌++◌, drop, IsOk};
ghost use Rattle.vx_bits.specs.Words.{word_bits};
ghost use Rattle.vx_print.specs.Text.{bit_text, line, lines};

use crate::records::is_there;
use crate::row::{BLOCK, ROOM, put_word};
use vx_bits::{BitBuffer, NoMemory};

// How many bytes the line of a bit takes at most.
const LINE: usize = 6;

// Writes the line of a bit so that it ends at `end`, and answers where it begins.
#[inline(always)]
fn put_line(bit: bool, dst: &mut [u8; ROOM], end: usize) -> usize
    requires room { LINE ≤ end }
    requires within { end ≤ ROOM }
    ensures room { end ≤ result + LINE }
    ensures within { result ≤ end }
    ensures put { drop result dst.new ≡ line (bit_text bit) ++ drop end dst.old }
{
    if bit {
        put_word(b"true\n", dst, end)
    } else {
        put_word(b"false\n", dst, end)
    }
}

// Writes the lines of the first `len` bits of a word so that they end where `dst` does, and answers
// where they begin.
#[inline(always)]
fn put_lines(word: u64, len: usize, dst: &mut [u8; ROOM]) -> usize
    requires { len ≤ BLOCK }
    ensures within { result ≤ ROOM }
    ensures put { drop result dst.new ≡ lines bit_text (word_bits word len) }
{
    let mut at = ROOM;
    for k in 0..len {
        at = put_line(is_there(word, len - 1 - k), dst, at);
    }
    at
}

/// Appends a line for each bit. Fails only with `NoMemory`.
pub(crate) fn push_bits(text: &mut Vec<u8>, bits: &BitBuffer) -> Result<(), NoMemory>
    ensures { IsOk result → text.new.items ≡ text.old.items ++ lines bit_text bits.now.bits }
{
    let mut dst = [0; ROOM];
    let len = bits.len();
    for k in 0..len.div_ceil(BLOCK) {
        let rows = (len - BLOCK * k).min(BLOCK);
        let at = put_lines(bits.word(k), rows, &mut dst);
        text.extend_from_slice(&dst[at..])?;
    }
    Ok(())
}
