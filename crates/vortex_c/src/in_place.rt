//! Filters of records in place.
ghost use Rattle.vx_words.specs.Filters.{IsKept};

use vx_words::{Answer, Record16, Record32, filter_in_place};

/// Moves the records of 1 byte at the set bits of `words` to the front, in order. The answer is how
/// many they are. What stands behind them then is not said. The mask's bits are as many as there
/// are records, from bit `at` on; those before and behind them play no part.
///
/// 1: `words` do not hold so many bits.
#[unsafe(no_mangle)]
pub extern "C" fn vortex_filter_in_place_1(values: &mut [u8], words: &[u64], at: usize) -> Answer
    ensures { IsKept words.now at values.old values.new result.status result.value }
{
    filter_in_place(values, words, at)
}

/// Moves the records of 2 bytes at the set bits of `words` to the front, in order. The answer is
/// how many they are. What stands behind them then is not said. The mask's bits are as many as
/// there are records, from bit `at` on; those before and behind them play no part.
///
/// 1: `words` do not hold so many bits.
#[unsafe(no_mangle)]
pub extern "C" fn vortex_filter_in_place_2(values: &mut [u16], words: &[u64], at: usize) -> Answer
    ensures { IsKept words.now at values.old values.new result.status result.value }
{
    filter_in_place(values, words, at)
}

/// Moves the records of 4 bytes at the set bits of `words` to the front, in order. The answer is
/// how many they are. What stands behind them then is not said. The mask's bits are as many as
/// there are records, from bit `at` on; those before and behind them play no part.
///
/// 1: `words` do not hold so many bits.
#[unsafe(no_mangle)]
pub extern "C" fn vortex_filter_in_place_4(values: &mut [u32], words: &[u64], at: usize) -> Answer
    ensures { IsKept words.now at values.old values.new result.status result.value }
{
    filter_in_place(values, words, at)
}

/// Moves the records of 8 bytes at the set bits of `words` to the front, in order. The answer is
/// how many they are. What stands behind them then is not said. The mask's bits are as many as
/// there are records, from bit `at` on; those before and behind them play no part.
///
/// 1: `words` do not hold so many bits.
#[unsafe(no_mangle)]
pub extern "C" fn vortex_filter_in_place_8(values: &mut [u64], words: &[u64], at: usize) -> Answer
    ensures { IsKept words.now at values.old values.new result.status result.value }
{
    filter_in_place(values, words, at)
}

/// Moves the records of 16 bytes at the set bits of `words` to the front, in order. The answer is
/// how many they are. What stands behind them then is not said. The mask's bits are as many as
/// there are records, from bit `at` on; those before and behind them play no part.
///
/// 1: `words` do not hold so many bits.
#[unsafe(no_mangle)]
pub extern "C" fn vortex_filter_in_place_16(
    values: &mut [Record16],
    words: &[u64],
    at: usize,
) -> Answer
    ensures { IsKept words.now at values.old values.new result.status result.value }
{
    filter_in_place(values, words, at)
}

/// Moves the records of 32 bytes at the set bits of `words` to the front, in order. The answer is
/// how many they are. What stands behind them then is not said. The mask's bits are as many as
/// there are records, from bit `at` on; those before and behind them play no part.
///
/// 1: `words` do not hold so many bits.
#[unsafe(no_mangle)]
pub extern "C" fn vortex_filter_in_place_32(
    values: &mut [Record32],
    words: &[u64],
    at: usize,
) -> Answer
    ensures { IsKept words.now at values.old values.new result.status result.value }
{
    filter_in_place(values, words, at)
}
