//! Indices of four bytes, as those of eight.
ghost use Rattle.std.specs.Prelude.{◌≡◌, ◌≤◌, ◌++◌, length, drop};
ghost use Rattle.vx_words.specs.Widened.{IsWidened};

use crate::answer::{Answer, DONE, ROOM};

// Writes the numbers to the front, one after another.
fn widen(src: &[u32], dst: &mut [u64])
    requires { length src.now ≤ length dst.old }
    ensures { dst.new ≡ src.now ++ drop (length src.now) dst.old }
{
    for k in 0..src.len() {
        dst[k] = u64::from(src[k]);
    }
}

/// Writes the numbers of 4 bytes to the front of `dst` as such of 8, in order: a take of indices of
/// 4 bytes goes block by block, each widened before it. The answer is how many they are.
///
/// 3: `dst` is too small, and the number is how many there are.
pub fn widen_numbers(src: &[u32], dst: &mut [u64]) -> Answer
    ensures { IsWidened src.now dst.old dst.new result.status result.value }
{
    let value = src.len() as u64;
    if src.len() > dst.len() {
        return Answer {
            status: ROOM,
            value,
        };
    }
    widen(src, dst);
    Answer {
        status: DONE,
        value,
    }
}
