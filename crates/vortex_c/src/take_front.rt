//! Takes of records that stop at an index out of bounds.
ghost use Rattle.vx_words.specs.Takes.{IsFrontTaken};

use vx_words::{Answer, Record16, Record32, take_records_front};

/// Writes the records of 1 byte at the indices before the first that is out of bounds to the
/// front of `dst`, in order, and zeros at each null. The answer is how many they are: as many as
/// there are indices where none is out of bounds, else the place of the first one. Pick k is null
/// where bit k of `valid` is clear; without words none is.
///
/// 1: `valid` has words, but not as many as hold a bit for each index. 2: a bit past the indices is
/// set. 3: `dst` is too small for all of them, and the number is how many indices there are.
#[unsafe(no_mangle)]
pub extern "C" fn vortex_take_front_1(
    src: &[u8],
    indices: &[u64],
    valid: &[u64],
    dst: &mut [u8],
) -> Answer
    ensures { IsFrontTaken 0 src.now indices.now valid.now dst.old
        dst.new result.status result.value }
{
    take_records_front(src, indices, valid, 0, dst)
}

/// Writes the records of 2 bytes at the indices before the first that is out of bounds to the
/// front of `dst`, in order, and zeros at each null. The answer is how many they are: as many as
/// there are indices where none is out of bounds, else the place of the first one. Pick k is null
/// where bit k of `valid` is clear; without words none is.
///
/// 1: `valid` has words, but not as many as hold a bit for each index. 2: a bit past the indices is
/// set. 3: `dst` is too small for all of them, and the number is how many indices there are.
#[unsafe(no_mangle)]
pub extern "C" fn vortex_take_front_2(
    src: &[u16],
    indices: &[u64],
    valid: &[u64],
    dst: &mut [u16],
) -> Answer
    ensures { IsFrontTaken 0 src.now indices.now valid.now dst.old
        dst.new result.status result.value }
{
    take_records_front(src, indices, valid, 0, dst)
}

/// Writes the records of 4 bytes at the indices before the first that is out of bounds to the
/// front of `dst`, in order, and zeros at each null. The answer is how many they are: as many as
/// there are indices where none is out of bounds, else the place of the first one. Pick k is null
/// where bit k of `valid` is clear; without words none is.
///
/// 1: `valid` has words, but not as many as hold a bit for each index. 2: a bit past the indices is
/// set. 3: `dst` is too small for all of them, and the number is how many indices there are.
#[unsafe(no_mangle)]
pub extern "C" fn vortex_take_front_4(
    src: &[u32],
    indices: &[u64],
    valid: &[u64],
    dst: &mut [u32],
) -> Answer
    ensures { IsFrontTaken 0 src.now indices.now valid.now dst.old
        dst.new result.status result.value }
{
    take_records_front(src, indices, valid, 0, dst)
}

/// Writes the records of 8 bytes at the indices before the first that is out of bounds to the
/// front of `dst`, in order, and zeros at each null. The answer is how many they are: as many as
/// there are indices where none is out of bounds, else the place of the first one. Pick k is null
/// where bit k of `valid` is clear; without words none is.
///
/// 1: `valid` has words, but not as many as hold a bit for each index. 2: a bit past the indices is
/// set. 3: `dst` is too small for all of them, and the number is how many indices there are.
#[unsafe(no_mangle)]
pub extern "C" fn vortex_take_front_8(
    src: &[u64],
    indices: &[u64],
    valid: &[u64],
    dst: &mut [u64],
) -> Answer
    ensures { IsFrontTaken 0 src.now indices.now valid.now dst.old
        dst.new result.status result.value }
{
    take_records_front(src, indices, valid, 0, dst)
}

/// Writes the records of 16 bytes at the indices before the first that is out of bounds to the
/// front of `dst`, in order, and zeros at each null. The answer is how many they are: as many as
/// there are indices where none is out of bounds, else the place of the first one. Pick k is null
/// where bit k of `valid` is clear; without words none is.
///
/// 1: `valid` has words, but not as many as hold a bit for each index. 2: a bit past the indices is
/// set. 3: `dst` is too small for all of them, and the number is how many indices there are.
#[unsafe(no_mangle)]
pub extern "C" fn vortex_take_front_16(
    src: &[Record16],
    indices: &[u64],
    valid: &[u64],
    dst: &mut [Record16],
) -> Answer
    ensures { IsFrontTaken (record { low = 0; high = 0 }) src.now indices.now valid.now dst.old
        dst.new result.status result.value }
{
    take_records_front(src, indices, valid, Record16::ZERO, dst)
}

/// Writes the records of 32 bytes at the indices before the first that is out of bounds to the
/// front of `dst`, in order, and zeros at each null. The answer is how many they are: as many as
/// there are indices where none is out of bounds, else the place of the first one. Pick k is null
/// where bit k of `valid` is clear; without words none is.
///
/// 1: `valid` has words, but not as many as hold a bit for each index. 2: a bit past the indices is
/// set. 3: `dst` is too small for all of them, and the number is how many indices there are.
#[unsafe(no_mangle)]
pub extern "C" fn vortex_take_front_32(
    src: &[Record32],
    indices: &[u64],
    valid: &[u64],
    dst: &mut [Record32],
) -> Answer
    ensures { IsFrontTaken (record { a = 0; b = 0; c = 0; d = 0 }) src.now indices.now valid.now
        dst.old dst.new result.status result.value }
{
    take_records_front(src, indices, valid, Record32::ZERO, dst)
}
