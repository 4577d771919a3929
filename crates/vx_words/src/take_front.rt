//! Takes of records that stop at an index out of bounds.
ghost use Rattle.std.specs.Prelude.{◌≡◌};
ghost use Rattle.vx_words.specs.Takes.{IsFrontTaken};

use crate::answer::{Answer, DONE};
use crate::gather::gather;
use crate::take::fault_of_take;

/// Writes the items at the indices before the first that is out of bounds to the front of `dst`, in
/// order, and `fill` at each null. The answer is how many they are.
///
/// 1 to 3: as [`crate::take_records`] has them.
pub fn take_records_front<T: Copy>(
    src: &[T],
    indices: &[u64],
    valid: &[u64],
    fill: T,
    dst: &mut [T],
) -> Answer
    ensures { IsFrontTaken fill src.now indices.now valid.now dst.old dst.new
        result.status result.value }
{
    let fault = fault_of_take(indices.len(), valid, dst.len());
    if fault != DONE {
        return Answer::refused_for(fault, indices.len() as u64);
    }
    let count = gather(src, indices, valid, fill, dst);
    Answer {
        status: DONE,
        value: count as u64,
    }
}
