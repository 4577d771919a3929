//! Why bytes are no spelling of numbers.

use std::error::Error;
use std::fmt;
use vx_bits::NoMemory;

/// The first rule of a chunk's bytes that is broken, in this order.
#[derive(Debug, Clone, Copy, PartialEq, Eq)]
pub enum PackedFault {
    /// Fewer than nine bytes, or fewer than the chunk has.
    Short,
    /// More digits than a number of this width has.
    Width,
    /// More bytes than the chunk has.
    Long,
    /// No number is the base.
    Base,
    /// The greatest number needs fewer digits.
    Slack,
    /// The greatest number passes the width.
    TooBig,
}

/// Why bytes are no spelling of a list of numbers.
#[derive(Debug, Clone, Copy, PartialEq, Eq)]
pub enum PackedError {
    /// The first part of the bytes that is no chunk.
    Bad {
        /// The number of the part, from 0.
        chunk: usize,
        /// The first rule that it breaks.
        fault: PackedFault,
    },
    /// Out of memory.
    NoMemory,
}

impl fmt::Display for PackedFault {
    ghost use Rattle.std.specs.Prelude.{Some};
    ghost use Rattle.vx_packed.specs.Messages.{packed_fault_text};

    ghost output = { λ e. Some (packed_fault_text e) };

    fn fmt<W: fmt::Write>(&self, f: &mut fmt::Formatter<W>) -> fmt::Result {
        f.write_str(match self {
            PackedFault::Short => "fewer bytes than the chunk has",
            PackedFault::Width => "more digits than a number of this width has",
            PackedFault::Long => "more bytes than the chunk has",
            PackedFault::Base => "no number is the base",
            PackedFault::Slack => "the greatest number needs fewer digits",
            PackedFault::TooBig => "the greatest number passes the width",
        })
    }
}

impl Error for PackedFault {}

impl fmt::Display for PackedError {
    ghost use Rattle.std.specs.Prelude.{Some};
    ghost use Rattle.vx_packed.specs.Messages.{packed_error_text};

    ghost output = { λ e. Some (packed_error_text e) };

    fn fmt<W: fmt::Write>(&self, f: &mut fmt::Formatter<W>) -> fmt::Result {
        match self {
            PackedError::Bad { chunk, fault } => write!(f, "chunk {chunk}: {fault}"),
            PackedError::NoMemory => f.write_str("out of memory"),
        }
    }
}

impl Error for PackedError {}

impl From<NoMemory> for PackedError {
    ghost use Rattle.std.specs.Prelude.{◌≡◌};
    ghost use Rattle.vx_packed.specs.declared.fault.PackedError.TheVariants.{NoMemory as OutOfMemory};

    ghost from_gives = { λ _ e. e ≡ OutOfMemory };

    fn from(_: NoMemory) -> PackedError {
        PackedError::NoMemory
    }
}
