//! Layout `Bool`: the bits, with the new validity handed in.
ghost use Rattle.std.specs.Prelude.{◌≡◌, length, IfOk};
ghost use Rattle.std.specs.List.{items_where_true};
ghost use Rattle.vx_stored.specs.Boolean.{is_below};

use crate::rows::{StepResult, StoredRows};
use std::alloc::Global;
use vx_bitfilter::{filter_bitbuffer_by_mask, filter_sparse};
use vx_bits::{BitBuffer, NoMemory};
use vx_column::{Array, BoolArray, Validity};
use vx_mask::{MaskValues, Policy, Ratio};
use vx_take::{Picks, gather_bits};

// The bits at the set positions of `mask`: position by position where these are few.
fn filter_bits(
    alloc: Global,
    bits: &BitBuffer,
    mask: &MaskValues,
    policy: &Policy,
) -> Result<BitBuffer, NoMemory>
    requires { length mask.now.bits.bits ≡ length bits.now.bits }
    ensures { IfOk result (λ b. b
        ≡ record { bits = items_where_true mask.now.bits.bits bits.now.bits; offset = 0 }) }
{
    if is_sparse(mask, policy.fields().bool_sparse_below) {
        filter_sparse(alloc, bits, mask)
    } else {
        filter_bitbuffer_by_mask(alloc, bits, mask.bits(), mask.true_count())
    }
}

// Whether the density of a mask is below this ratio.
fn is_sparse(mask: &MaskValues, below: Ratio) -> bool
    ensures { result ≡ is_below below mask.now.bits.bits }
{
    let set = mask.true_count() as u128 * u128::from(below.den);
    set < u128::from(below.num) * mask.len() as u128
}

impl StoredRows for BoolArray {
    ghost use Rattle.vx_model.specs.Bool.{stored_bits};

    ghost parts = { stored_bits };

    fn slice(&self, start: usize, end: usize, valid: Validity) -> Array {
        BoolArray::of(self.bits().slice(start, end), valid).into_array()
    }

    fn filter(
        &self,
        alloc: Global,
        mask: &MaskValues,
        policy: &Policy,
        valid: Validity,
    ) -> StepResult {
        let bits = filter_bits(alloc, self.bits(), mask, policy)?;
        Ok(BoolArray::of(bits, valid).into_array())
    }

    fn take(&self, alloc: Global, picks: &Picks, valid: Validity) -> StepResult {
        let bits = gather_bits(alloc, self.bits(), picks, false)?;
        Ok(BoolArray::of(bits, valid).into_array())
    }
}
