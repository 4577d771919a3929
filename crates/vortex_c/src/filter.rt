//! Filters of records.
ghost use Rattle.vx_words.specs.Filters.{IsFiltered};

use vx_words::{Answer, Record16, Record32, filter_records};

/// Copies the records of 1 byte at the set bits of `words` to the front of `dst`, in order. The
/// answer is how many they are. The mask's bits are as many as there are records, from bit
/// `at` on; those before and behind them play no part.
///
/// 1: `words` do not hold so many bits. 3: `dst` is too small, and the number is how many records
/// are selected.
#[unsafe(no_mangle)]
pub extern "C" fn vortex_filter_1(src: &[u8], words: &[u64], at: usize, dst: &mut [u8]) -> Answer
    ensures { IsFiltered src.now words.now at dst.old dst.new result.status result.value }
{
    filter_records(src, words, at, dst, 1)
}

/// Copies the records of 2 bytes at the set bits of `words` to the front of `dst`, in order. The
/// answer is how many they are. The mask's bits are as many as there are records, from bit
/// `at` on; those before and behind them play no part.
///
/// 1: `words` do not hold so many bits. 3: `dst` is too small, and the number is how many records
/// are selected.
#[unsafe(no_mangle)]
pub extern "C" fn vortex_filter_2(src: &[u16], words: &[u64], at: usize, dst: &mut [u16]) -> Answer
    ensures { IsFiltered src.now words.now at dst.old dst.new result.status result.value }
{
    filter_records(src, words, at, dst, 2)
}

/// Copies the records of 4 bytes at the set bits of `words` to the front of `dst`, in order. The
/// answer is how many they are. The mask's bits are as many as there are records, from bit
/// `at` on; those before and behind them play no part.
///
/// 1: `words` do not hold so many bits. 3: `dst` is too small, and the number is how many records
/// are selected.
#[unsafe(no_mangle)]
pub extern "C" fn vortex_filter_4(src: &[u32], words: &[u64], at: usize, dst: &mut [u32]) -> Answer
    ensures { IsFiltered src.now words.now at dst.old dst.new result.status result.value }
{
    filter_records(src, words, at, dst, 4)
}

/// Copies the records of 8 bytes at the set bits of `words` to the front of `dst`, in order. The
/// answer is how many they are. The mask's bits are as many as there are records, from bit
/// `at` on; those before and behind them play no part.
///
/// 1: `words` do not hold so many bits. 3: `dst` is too small, and the number is how many records
/// are selected.
#[unsafe(no_mangle)]
pub extern "C" fn vortex_filter_8(src: &[u64], words: &[u64], at: usize, dst: &mut [u64]) -> Answer
    ensures { IsFiltered src.now words.now at dst.old dst.new result.status result.value }
{
    filter_records(src, words, at, dst, 8)
}

/// Copies the records of 16 bytes at the set bits of `words` to the front of `dst`, in order. The
/// answer is how many they are. The mask's bits are as many as there are records, from bit
/// `at` on; those before and behind them play no part.
///
/// 1: `words` do not hold so many bits. 3: `dst` is too small, and the number is how many records
/// are selected.
#[unsafe(no_mangle)]
pub extern "C" fn vortex_filter_16(
    src: &[Record16],
    words: &[u64],
    at: usize,
    dst: &mut [Record16],
) -> Answer
    ensures { IsFiltered src.now words.now at dst.old dst.new result.status result.value }
{
    filter_records(src, words, at, dst, 16)
}

/// Copies the records of 32 bytes at the set bits of `words` to the front of `dst`, in order. The
/// answer is how many they are. The mask's bits are as many as there are records, from bit
/// `at` on; those before and behind them play no part.
///
/// 1: `words` do not hold so many bits. 3: `dst` is too small, and the number is how many records
/// are selected.
#[unsafe(no_mangle)]
pub extern "C" fn vortex_filter_32(
    src: &[Record32],
    words: &[u64],
    at: usize,
    dst: &mut [Record32],
) -> Answer
    ensures { IsFiltered src.now words.now at
        dst.old dst.new result.status result.value }
{
    filter_records(src, words, at, dst, 32)
}
