//! Whether masks and slices fit so many rows: what a step asks of the one who calls it.
ghost use Rattle.std.specs.Prelude.{◌≡◌, ◌≤◌, length, IfOk};
ghost use Rattle.vx_mask.specs.Mask.{mask_bits};

use std::test::Fail;
use vx_mask::{Mask, MaskValues};

/// That a mask has a bit for each of so many rows.
pub fn check_mask(mask: &Mask, rows: usize) -> Result<(), Fail>
    ensures { IfOk result (λ _. length (mask_bits mask.now) ≡ rows) }
{
    if mask.len() != rows {
        return Err("not a bit for each row".into());
    }
    Ok(())
}

/// That a slice lies within so many rows.
pub fn check_slice(start: usize, end: usize, rows: usize) -> Result<(), Fail>
    ensures ordered { IfOk result (λ _. start ≤ end) }
    ensures within { IfOk result (λ _. end ≤ rows) }
{
    if start > end || end > rows {
        return Err("a slice past the rows".into());
    }
    Ok(())
}

/// The mask as one that selects some of so many rows and not all.
pub fn some_of(mask: &Mask, rows: usize) -> Result<&MaskValues, Fail>
    ensures bits { IfOk result (λ m. m.now.bits.bits ≡ mask_bits mask.now) }
    ensures len { IfOk result (λ m. length m.now.bits.bits ≡ rows) }
{
    match mask.values() {
        Some(values) if values.len() == rows => Ok(values),
        _ => Err("no mask of some of the rows".into()),
    }
}
