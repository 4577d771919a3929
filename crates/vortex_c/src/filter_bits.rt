//! A filter of bits.
ghost use Rattle.vx_words.specs.Bits.{AreBitsFiltered};

use vx_words::{Answer, filter_bit_words};

/// Writes the bits of `src` at the mask's set bits to the front of `dst`, in order, and clear bits
/// to the end of their last word. The answer is how many they are. The bits of `src` are the `rows`
/// ones from bit `src_at` on, and those of the mask as many from bit `mask_at` on.
///
/// 1: `src` or `mask` do not hold so many bits. 3: `dst` is too small, and the number is how many
/// bits are selected.
#[unsafe(no_mangle)]
pub extern "C" fn vortex_filter_bits(
    src: &[u64],
    src_at: usize,
    mask: &[u64],
    mask_at: usize,
    rows: usize,
    dst: &mut [u64],
) -> Answer
    ensures { AreBitsFiltered src.now src_at mask.now mask_at rows
        dst.old dst.new result.status result.value }
{
    filter_bit_words(src, src_at, mask, mask_at, rows, dst)
}
