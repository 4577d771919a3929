//! Why positions or parts are no mask.

use std::error::Error;
use std::fmt;
use vx_bits::NoMemory;

/// Why a mask was not made.
#[derive(Debug, Clone, Copy, PartialEq, Eq)]
pub enum MaskError {
    /// The true count is not the number of set bits.
    Count,
    /// No bit is set, or all are.
    NotSelective,
    /// Indices do not strictly ascend, or one is not below the length; or, beside bits, they are
    /// not just the set positions.
    Indices,
    /// A run is empty, starts before the end of the one before, or ends past the length; or, beside
    /// bits, the runs do not cover just the set positions.
    Slices,
    /// Out of memory.
    NoMemory,
}

impl fmt::Display for MaskError {
    ghost use Rattle.std.specs.Prelude.{Some};
    ghost use Rattle.vx_mask.specs.Messages.{mask_error_text};

    ghost output = { λ e. Some (mask_error_text e) };

    fn fmt<W: fmt::Write>(&self, f: &mut fmt::Formatter<W>) -> fmt::Result {
        f.write_str(match self {
            MaskError::Count => "the true count is not the number of set bits",
            MaskError::NotSelective => "no bit is set, or all are",
            MaskError::Indices => "indices are not the positions of the set bits, ascending",
            MaskError::Slices => "runs are not the runs of set bits, ascending",
            MaskError::NoMemory => "out of memory",
        })
    }
}

impl Error for MaskError {}

impl From<NoMemory> for MaskError {
    ghost use Rattle.std.specs.Prelude.{◌≡◌};
    ghost use Rattle.vx_mask.specs.declared.error.MaskError.TheVariants.{NoMemory as OutOfMemory};

    ghost from_gives = { λ _ e. e ≡ OutOfMemory };

    fn from(_error: NoMemory) -> MaskError {
        MaskError::NoMemory
    }
}
