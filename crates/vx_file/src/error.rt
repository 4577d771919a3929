//! Why a file or its rows can't be had.

use std::alloc::AllocError;
use std::error::Error;
use std::fmt;
use vx_bits::NoMemory;
use vx_select::{Cause, SelectError};

/// Why a file has no answer.
#[derive(Debug, Clone, Copy, PartialEq, Eq)]
pub enum FileError {
    /// A block couldn't be read.
    ReadFault,
    /// Block 0 is no header.
    BadHeader,
    /// A block that was read is no spelling of numbers of the type.
    Damaged {
        /// The block's number.
        block: usize,
    },
    /// The first step that breaks a rule, and its cause.
    Broken {
        /// The step's number, counted from 0.
        step: usize,
        /// The rule that it breaks.
        cause: Cause,
    },
    /// Out of memory, though no step breaks a rule.
    NoMemory,
}

impl fmt::Display for FileError {
    ghost use Rattle.std.specs.Prelude.{Some};
    ghost use Rattle.vx_file.specs.Messages.{file_error_text};

    ghost output = { λ e. Some (file_error_text e) };

    fn fmt<W: fmt::Write>(&self, f: &mut fmt::Formatter<W>) -> fmt::Result {
        match self {
            FileError::ReadFault => f.write_str("a block could not be read"),
            FileError::BadHeader => f.write_str("block 0 is no header"),
            FileError::Damaged { block } => write!(f, "block {block} is damaged"),
            FileError::Broken { step, cause } => write!(f, "step {step}: {cause}"),
            FileError::NoMemory => f.write_str("out of memory"),
        }
    }
}

impl Error for FileError {}

impl From<SelectError> for FileError {
    ghost use Rattle.std.specs.Prelude.{◌≡◌};
    ghost use Rattle.vx_file.specs.Errors.{of_select};

    ghost from_gives = { λ x e. e ≡ of_select x };

    fn from(error: SelectError) -> FileError {
        match error {
            SelectError::Broken { step, cause } => FileError::Broken { step, cause },
            SelectError::NoMemory => FileError::NoMemory,
        }
    }
}

impl From<NoMemory> for FileError {
    ghost use Rattle.std.specs.Prelude.{◌≡◌};
    ghost use Rattle.vx_file.specs.declared.error.FileError.TheVariants.{NoMemory as OutOfMemory};

    ghost from_gives = { λ _ e. e ≡ OutOfMemory };

    fn from(_: NoMemory) -> FileError {
        FileError::NoMemory
    }
}

impl From<AllocError> for FileError {
    ghost use Rattle.std.specs.Prelude.{◌≡◌};
    ghost use Rattle.vx_file.specs.declared.error.FileError.TheVariants.{NoMemory as OutOfMemory};

    ghost from_gives = { λ _ e. e ≡ OutOfMemory };

    fn from(_: AllocError) -> FileError {
        FileError::NoMemory
    }
}
