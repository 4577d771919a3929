//! A take of bits.
ghost use Rattle.vx_words.specs.Bits.{AreBitsTaken};

use vx_words::{Answer, take_bit_words};

/// Writes the bits of `src` at the indices to the front of `dst`, in order, a clear one at each
/// null, and clear bits to the end of their last word. The answer is how many they are. The bits of
/// `src` are the `len` ones from bit `src_at` on. Pick k is null where bit k of `valid` is clear;
/// without words none is.
///
/// 1: `src` does not hold so many bits, or `valid` has words, but not as many as hold a bit for
/// each index. 2: a bit past the indices is set. 3: `dst` is too small, and the number is how many
/// indices there are. 4: an index that is not null is out of bounds, and the number is the first
/// one's place.
#[unsafe(no_mangle)]
pub extern "C" fn vortex_take_bits(
    src: &[u64],
    src_at: usize,
    len: usize,
    indices: &[u64],
    valid: &[u64],
    dst: &mut [u64],
) -> Answer
    ensures { AreBitsTaken src.now src_at len indices.now valid.now
        dst.old dst.new result.status result.value }
{
    take_bit_words(src, src_at, len, indices, valid, dst)
}
