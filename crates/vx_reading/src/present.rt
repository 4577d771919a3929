//! Which rows are valid, as a mask.
ghost use Rattle.std.specs.Prelude.{◌≡◌, true, IfOk};
ghost use Rattle.vx_mask.specs.Mask.{mask_bits};
ghost use Rattle.vx_model.specs.Valid.{is_fitting, present_bits};
ghost use Rattle.vx_column.specs.Validity.{valid_of};

use crate::truth::mask_of;
use std::alloc::Global;
use vx_bits::NoMemory;
use vx_column::Validity;
use vx_mask::Mask;

/// Which of `len` rows are valid. Fails only with `NoMemory`.
pub fn present_mask(alloc: Global, validity: &Validity, len: usize) -> Result<Mask, NoMemory>
    requires { is_fitting (valid_of validity.now) len ≡ true }
    ensures { IfOk result (λ m. mask_bits m ≡ present_bits (valid_of validity.now) len) }
{
    match validity {
        Validity::NonNullable | Validity::AllValid => Ok(Mask::AllTrue(len)),
        Validity::AllInvalid => Ok(Mask::AllFalse(len)),
        Validity::Array(array) => mask_of(alloc, array),
    }
}
