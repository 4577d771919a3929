//! Indices of four bytes, as those of eight.
ghost use Rattle.vx_words.specs.Widened.{IsWidened};

use vx_words::{Answer, widen_numbers};

/// Writes the numbers of 4 bytes to the front of `dst` as such of 8, in order: a take of indices of
/// 4 bytes goes block by block, each widened before it. The answer is how many they are.
///
/// 3: `dst` is too small, and the number is how many there are.
#[unsafe(no_mangle)]
pub extern "C" fn vortex_widen_4(src: &[u32], dst: &mut [u64]) -> Answer
    ensures { IsWidened src.now dst.old dst.new result.status result.value }
{
    widen_numbers(src, dst)
}
