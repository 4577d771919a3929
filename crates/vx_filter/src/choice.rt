//! Which kernel serves a mask, by a policy.
ghost use Rattle.std.specs.Prelude.{◌≡◌, ◌*◌, ◌↔◌, is_some, IfSome, IsTrue};
ghost use Rattle.vx_filter.specs.Choice.{are_few, are_long, IsDense};
ghost use Rattle.vx_mask.specs.MaskValues.{AreSlicesOf};
ghost use Rattle.vx_mask.specs.Positions.{set_of};

use vx_mask::{MaskValues, PolicyFields, Ratio};

/// The runs that a mask keeps, where they are one, or as long on average as the policy asks.
pub fn useful_slices<'a>(
    mask: &'a MaskValues,
    fields: &PolicyFields,
) -> Option<&'a [(usize, usize)]>
    ensures runs { IfSome result (λ slices. AreSlicesOf mask.now slices.now) }
    ensures useful { is_some result ≡ are_long fields.now mask.now mask.now.slices }
{
    let slices = mask.cached_slices()?;
    let least = product(slices.len() as u64, fields.min_average_run as u64);
    if slices.len() == 1 || least <= mask.true_count() as u128 {
        Some(slices)
    } else {
        None
    }
}

/// The set positions that a mask keeps, where its density is at most what the policy says.
pub fn useful_indices<'a>(mask: &'a MaskValues, fields: &PolicyFields) -> Option<&'a [usize]>
    ensures set { IfSome result (λ indices. indices.now ≡ set_of mask.now.bits.bits) }
    ensures useful { is_some result ≡ are_few fields.now mask.now }
{
    let indices = mask.cached_indices()?;
    let most = fields.cached_indices_max;
    let set = product(mask.true_count() as u64, most.den);
    if set <= product(most.num, mask.len() as u64) {
        Some(indices)
    } else {
        None
    }
}

/// Whether the density of a mask is at least this ratio.
pub(crate) fn is_dense(mask: &MaskValues, from: Ratio) -> bool
    ensures { IsTrue result ↔ IsDense mask.now from }
{
    product(from.num, mask.len() as u64) <= product(mask.true_count() as u64, from.den)
}

/// The density from which on records of so many bytes are compressed by bytes of the mask.
pub(crate) fn dense_from(fields: &PolicyFields, width: usize) -> Ratio {
    match width {
        1 => fields.dense_w1,
        2 => fields.dense_w2,
        4 => fields.dense_w4,
        8 => fields.dense_w8,
        _ => fields.dense_other,
    }
}

// The product, which a wider number holds.
#[inline(always)]
fn product(x: u64, y: u64) -> u128
    ensures { result ≡ x * y }
{
    u128::from(x) * u128::from(y)
}
