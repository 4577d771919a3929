//! Errors, and what each says.

use crate::bit_buffer::BitError;
use std::alloc::{AllocError, AllocFailed};
use std::error::Error;
use std::fmt;

/// Out of memory, and nothing else.
#[derive(Debug, Clone, Copy, PartialEq, Eq)]
pub struct NoMemory;

/// A source, a sink or a block reader failed.
#[derive(Debug, Clone, Copy, PartialEq, Eq)]
pub struct Failed;

impl From<AllocError> for NoMemory {
    fn from(_error: AllocError) -> NoMemory {
        NoMemory
    }
}

impl<T: Drop> From<AllocFailed<T>> for NoMemory {
    fn from(_error: AllocFailed<T>) -> NoMemory {
        NoMemory
    }
}

impl fmt::Display for BitError {
    ghost use Rattle.std.specs.Prelude.{Some};
    ghost use Rattle.vx_bits.specs.Messages.{bit_error_text};

    ghost output = { λ e. Some (bit_error_text e) };

    fn fmt<W: fmt::Write>(&self, f: &mut fmt::Formatter<W>) -> fmt::Result {
        f.write_str(match self {
            BitError::Offset => "the offset of the first bit is above 7",
            BitError::Short => "the bytes have fewer bits than were asked for",
        })
    }
}

impl Error for BitError {}

impl fmt::Display for NoMemory {
    ghost use Rattle.std.specs.Prelude.{Some, codes};

    ghost output = { λ _. Some (codes "out of memory") };

    fn fmt<W: fmt::Write>(&self, f: &mut fmt::Formatter<W>) -> fmt::Result {
        f.write_str("out of memory")
    }
}

impl Error for NoMemory {}

impl fmt::Display for Failed {
    ghost use Rattle.std.specs.Prelude.{Some, codes};

    ghost output = { λ _. Some (codes "the source, sink or block reader failed") };

    fn fmt<W: fmt::Write>(&self, f: &mut fmt::Formatter<W>) -> fmt::Result {
        f.write_str("the source, sink or block reader failed")
    }
}

impl Error for Failed {}
