//! Masks that several consumers use.
ghost use Rattle.std.specs.Prelude.{◌≡◌, ◌*◌, ◌≤◌, ◌^◌, ◌<◌, IfOk, length};
ghost use Rattle.vx_bits.specs.BitBuffer.{true_count_of};
ghost use Rattle.vx_mask.specs.Reuse.{is_at_most, mask_for_reuse, reuse_limit, wants_indices};

use crate::mask::Mask;
use crate::mask_values::MaskValues;
use crate::policy::{Policy, PolicyFields, Ratio};
use std::alloc::Global;
use vx_bits::NoMemory;

/// The mask, ready for so many consumers: Vortex's `prepare_mask_for_reuse`. Fails only with
/// `NoMemory`.
///
/// It gets indices exactly where it selects some rows and not all, has neither indices nor slices,
/// is no single run, has at least 2 consumers, and its density is at most the policy's limit for 2,
/// or for 3 and more, consumers. What else it keeps stays.
pub fn prepare_mask_for_reuse(
    alloc: Global,
    mask: &Mask,
    consumers: usize,
    policy: &Policy,
) -> Result<Mask, NoMemory>
    ensures { IfOk result (λ m. m ≡ mask_for_reuse mask.now consumers policy.now) }
{
    match mask {
        Mask::Values(values) if wants_indices(values, consumers, policy.fields()) => {
            Ok(Mask::Values(values.keep_indices(alloc)?))
        }
        _ => Ok(mask.share()),
    }
}

// Whether indices are of use for so many consumers.
fn wants_indices(mask: &MaskValues, consumers: usize, fields: &PolicyFields) -> bool
    ensures { result ≡ wants_indices mask.now consumers fields.now }
{
    if mask.cached_indices().is_some() {
        return false;
    }
    if mask.cached_slices().is_some() {
        return false;
    }
    if mask.contiguous().is_some() {
        return false;
    }
    if consumers < 2 {
        return false;
    }
    is_at_most(
        reuse_limit(fields, consumers),
        mask.true_count(),
        mask.len(),
    )
}

// The greatest density of a mask that gets indices.
fn reuse_limit(fields: &PolicyFields, consumers: usize) -> Ratio
    ensures { result ≡ reuse_limit fields.now consumers }
{
    if consumers == 2 {
        fields.reuse_two_max
    } else {
        fields.reuse_more_max
    }
}

// Whether the ratio of two numbers is at most this one.
fn is_at_most(limit: Ratio, true_count: usize, len: usize) -> bool
    ensures { result ≡ is_at_most limit true_count len }
{
    product(true_count as u64, limit.den) <= product(limit.num, len as u64)
}

/// The product, which a wider number holds.
#[inline(always)]
pub(crate) fn product(x: u64, y: u64) -> u128
    ensures { result ≡ x * y }
{
    u128::from(x) * u128::from(y)
}
