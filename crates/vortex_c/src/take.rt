//! Takes of records.
ghost use Rattle.vx_words.specs.Takes.{IsTaken};

use vx_words::{Answer, Record16, Record32, take_records};

/// Writes the records of 1 byte at the indices to the front of `dst`, in order, and zeros at each
/// null. The answer is how many they are. Pick k is null where bit k of `valid` is clear; without
/// words none is.
///
/// 1: `valid` has words, but not as many as hold a bit for each index. 2: a bit past the indices is
/// set. 3: `dst` is too small, and the number is how many indices there are. 4: an index that is
/// not null is out of bounds, and the number is the first one's place.
#[unsafe(no_mangle)]
pub extern "C" fn vortex_take_1(src: &[u8], idx: &[u64], valid: &[u64], dst: &mut [u8]) -> Answer
    ensures { IsTaken 0 src.now idx.now valid.now dst.old dst.new result.status result.value }
{
    take_records(src, idx, valid, 0, dst)
}

/// Writes the records of 2 bytes at the indices to the front of `dst`, in order, and zeros at each
/// null. The answer is how many they are. Pick k is null where bit k of `valid` is clear; without
/// words none is.
///
/// 1: `valid` has words, but not as many as hold a bit for each index. 2: a bit past the indices is
/// set. 3: `dst` is too small, and the number is how many indices there are. 4: an index that is
/// not null is out of bounds, and the number is the first one's place.
#[unsafe(no_mangle)]
pub extern "C" fn vortex_take_2(src: &[u16], idx: &[u64], valid: &[u64], dst: &mut [u16]) -> Answer
    ensures { IsTaken 0 src.now idx.now valid.now dst.old dst.new result.status result.value }
{
    take_records(src, idx, valid, 0, dst)
}

/// Writes the records of 4 bytes at the indices to the front of `dst`, in order, and zeros at each
/// null. The answer is how many they are. Pick k is null where bit k of `valid` is clear; without
/// words none is.
///
/// 1: `valid` has words, but not as many as hold a bit for each index. 2: a bit past the indices is
/// set. 3: `dst` is too small, and the number is how many indices there are. 4: an index that is
/// not null is out of bounds, and the number is the first one's place.
#[unsafe(no_mangle)]
pub extern "C" fn vortex_take_4(src: &[u32], idx: &[u64], valid: &[u64], dst: &mut [u32]) -> Answer
    ensures { IsTaken 0 src.now idx.now valid.now dst.old dst.new result.status result.value }
{
    take_records(src, idx, valid, 0, dst)
}

/// Writes the records of 8 bytes at the indices to the front of `dst`, in order, and zeros at each
/// null. The answer is how many they are. Pick k is null where bit k of `valid` is clear; without
/// words none is.
///
/// 1: `valid` has words, but not as many as hold a bit for each index. 2: a bit past the indices is
/// set. 3: `dst` is too small, and the number is how many indices there are. 4: an index that is
/// not null is out of bounds, and the number is the first one's place.
#[unsafe(no_mangle)]
pub extern "C" fn vortex_take_8(src: &[u64], idx: &[u64], valid: &[u64], dst: &mut [u64]) -> Answer
    ensures { IsTaken 0 src.now idx.now valid.now dst.old dst.new result.status result.value }
{
    take_records(src, idx, valid, 0, dst)
}

/// Writes the records of 16 bytes at the indices to the front of `dst`, in order, and zeros at each
/// null. The answer is how many they are. Pick k is null where bit k of `valid` is clear; without
/// words none is.
///
/// 1: `valid` has words, but not as many as hold a bit for each index. 2: a bit past the indices is
/// set. 3: `dst` is too small, and the number is how many indices there are. 4: an index that is
/// not null is out of bounds, and the number is the first one's place.
#[unsafe(no_mangle)]
pub extern "C" fn vortex_take_16(
    src: &[Record16],
    idx: &[u64],
    valid: &[u64],
    dst: &mut [Record16],
) -> Answer
    ensures { IsTaken (record { low = 0; high = 0 })
        src.now idx.now valid.now dst.old dst.new result.status result.value }
{
    take_records(src, idx, valid, Record16::ZERO, dst)
}

/// Writes the records of 32 bytes at the indices to the front of `dst`, in order, and zeros at each
/// null. The answer is how many they are. Pick k is null where bit k of `valid` is clear; without
/// words none is.
///
/// 1: `valid` has words, but not as many as hold a bit for each index. 2: a bit past the indices is
/// set. 3: `dst` is too small, and the number is how many indices there are. 4: an index that is
/// not null is out of bounds, and the number is the first one's place.
#[unsafe(no_mangle)]
pub extern "C" fn vortex_take_32(
    src: &[Record32],
    idx: &[u64],
    valid: &[u64],
    dst: &mut [Record32],
) -> Answer
    ensures { IsTaken (record { a = 0; b = 0; c = 0; d = 0 })
        src.now idx.now valid.now dst.old dst.new result.status result.value }
{
    take_records(src, idx, valid, Record32::ZERO, dst)
}
