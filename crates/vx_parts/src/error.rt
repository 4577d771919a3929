//! Why answers of parts can't be put together.

use std::error::Error;
use std::fmt;
use vx_bits::NoMemory;

/// Why columns can't be put together by a plan.
#[derive(Debug, Clone, Copy, PartialEq, Eq)]
pub enum PutError {
    /// There aren't as many of them as parts.
    WrongCount,
    /// One isn't of the parts' type.
    WrongType {
        /// The part whose answer it would be.
        part: usize,
    },
    /// One hasn't as many rows as its part answers.
    WrongLength {
        /// The part whose answer it would be.
        part: usize,
    },
    /// The plan's order names a row that isn't there, or a null though its steps leave none.
    WrongOrder,
    /// Out of memory, though none of these is so.
    NoMemory,
}

impl fmt::Display for PutError {
    ghost use Rattle.std.specs.Prelude.{Some};
    ghost use Rattle.vx_parts.specs.Messages.{put_error_text};

    ghost output = { λ e. Some (put_error_text e) };

    fn fmt<W: fmt::Write>(&self, f: &mut fmt::Formatter<W>) -> fmt::Result {
        match self {
            PutError::WrongCount => f.write_str("there are not as many answers as parts"),
            PutError::WrongType { part } => write!(f, "the answer of part {part} has another type"),
            PutError::WrongLength { part } => {
                write!(
                    f,
                    "the answer of part {part} has not as many rows as planned"
                )
            }
            PutError::WrongOrder => f.write_str("the order names a row that is not there"),
            PutError::NoMemory => f.write_str("out of memory"),
        }
    }
}

impl Error for PutError {}

impl From<NoMemory> for PutError {
    ghost use Rattle.std.specs.Prelude.{◌≡◌};
    ghost use Rattle.vx_parts.specs.declared.error.PutError.TheVariants.{NoMemory as OutOfMemory};

    ghost from_gives = { λ _ e. e ≡ OutOfMemory };

    fn from(_: NoMemory) -> PutError {
        PutError::NoMemory
    }
}
