//! What holds of the bits that are packed of every word.
ghost use Rattle.std.specs.Prelude.{ℕ};
ghost use Rattle.vx_bitfilter.specs.Pext.{HasPackedBits, IsZeroAbove};

/// Below the number of the mask's set bits, bit k of what is packed is the source's bit at the
/// k-th set position of the mask. From that number on the bits are zero.
pub fn pext_law()
    ensures packed { (src mask : ℕ) → HasPackedBits src mask }
    ensures zero_above { (src mask : ℕ) → IsZeroAbove src mask }
{}
