//! The words of a mask that the caller hands in.
ghost use Rattle.std.specs.Prelude.{◌≡◌, ◌*◌, ◌^◌, ◌<◌, length};
ghost use Rattle.vx_words.specs.Masks.{count_of, mask_fault};

use crate::answer::{BITS_PAST, DONE, LENGTHS};

/// Why the words are no mask of so many rows, or `DONE`.
pub(crate) fn fault_of(words: &[u64], rows: usize) -> u64
    ensures { result ≡ mask_fault rows words.now }
{
    if words.len() != rows.div_ceil(64) {
        return LENGTHS;
    }
    if rows % 64 != 0 && words[rows / 64] >> (rows % 64) != 0 {
        return BITS_PAST;
    }
    DONE
}

/// How many bits of the words are set.
pub(crate) fn count_set(words: &[u64]) -> usize
    requires { count_of words.now < 2 ^ 64 }
    ensures { result ≡ count_of words.now }
{
    let mut count = 0;
    for word in words {
        count += word.count_ones() as usize;
    }
    count
}
