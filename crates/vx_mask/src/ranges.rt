//! The range of a mask that holds a range of its set positions, and a part of a mask.
ghost use Rattle.std.specs.Prelude.{◌≡◌, ◌≤◌, length, take, slice_range};
ghost use Rattle.vx_bits.specs.BitBuffer.{true_count_of};
ghost use Rattle.vx_mask.specs.Mask.{mask_bits};

use crate::mask::Mask;

// A position with so many set positions below it.
#[tactic(auto, using(crate::proofs::RangeCounts::counts))]
fn boundary(mask: &Mask, count: usize) -> usize
    requires { count ≤ true_count_of (mask_bits mask.now) }
    ensures count { true_count_of (take result (mask_bits mask.now)) ≡ count }
    ensures within { result ≤ length (mask_bits mask.now) }
{
    if count < mask.true_count() {
        mask.rank(count)
    } else {
        mask.len()
    }
}

/// From where up to where the set positions `start` to `end` of a mask lie.
#[tactic(auto, using(crate::proofs::RangeCounts::counts))]
pub fn mask_range(mask: &Mask, start: usize, end: usize) -> (usize, usize)
    requires ordered { start ≤ end }
    requires within { end ≤ true_count_of (mask_bits mask.now) }
    ensures start { true_count_of (take result.0 (mask_bits mask.now)) ≡ start }
    ensures end { true_count_of (take result.1 (mask_bits mask.now)) ≡ end }
    ensures ordered { result.0 ≤ result.1 }
    ensures within { result.1 ≤ length (mask_bits mask.now) }
{
    let low = boundary(mask, start);
    let high = boundary(mask, end);
    (low, if low <= high { high } else { low })
}

/// The part of a mask from `start` up to `end`.
#[tactic(auto, using(crate::proofs::RangeCounts::counts))]
pub fn slice_mask(mask: &Mask, start: usize, end: usize) -> Mask
    requires ordered { start ≤ end }
    requires within { end ≤ length (mask_bits mask.now) }
    ensures { mask_bits result ≡ slice_range (mask_bits mask.now) start end }
{
    match mask {
        Mask::AllTrue(_) => Mask::AllTrue(end - start),
        Mask::AllFalse(_) => Mask::AllFalse(end - start),
        Mask::Values(values) => Mask::from_buffer(values.bits().slice(start, end)),
    }
}
