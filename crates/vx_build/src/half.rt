//! Floats of 16 bits, which Rattle has no type of.
ghost use Rattle.std.specs.Prelude.{◌≡◌};
ghost use Rattle.vx_build.specs.Half.{half_bits};

use crate::native::NativePType;
use std::marker::Model;
use vx_types::PType;

/// A float of 16 bits, the `half::f16` of Rust, by the bits that IEEE 754 gives it in `binary16`.
/// A contract sees it as the number that its bits are.
#[derive(Debug, Clone, Copy)]
pub struct F16 {
    bits: u16,
}

impl Model for F16 {
    ghost use Rattle.std.specs.Prelude.{ℕ};

    ghost Value = { ℕ };

    ghost view = { λ x. x.bits };

    ghost inverse = { λ bits. record { bits = bits } };
}

impl F16 {
    /// The float of these bits. Every NaN is the quiet one whose sign is clear.
    pub fn from_bits(bits: u16) -> F16
        ensures { result ≡ half_bits bits }
    {
        if bits % 0x8000 > 0x7c00 {
            F16 { bits: 0x7e00 }
        } else {
            F16 { bits }
        }
    }

    /// Its bits.
    pub fn to_bits(self) -> u16
        ensures { result ≡ self }
    {
        self.bits
    }
}

impl NativePType<2> for F16 {
    ghost use Rattle.std.specs.Prelude.{pos};
    ghost use Rattle.std.specs.Int.{to_le_bytes, w16};
    ghost use Rattle.vx_types.specs.declared.ptype.PType.TheVariants.{F16};

    ghost ptype = { F16 };

    ghost integer = { pos };

    ghost record_of = { to_le_bytes w16 };

    fn ptype() -> PType {
        PType::F16
    }

    fn to_record(self) -> [u8; 2] {
        self.bits.to_le_bytes()
    }
}
