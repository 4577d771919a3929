//! Why a list of steps has no answer.

use std::error::Error;
use std::fmt;
use vx_bits::NoMemory;

/// Why a list of steps has no answer.
#[derive(Debug, Clone, Copy, PartialEq, Eq)]
pub enum SelectError {
    /// The first step that breaks a rule, and its cause.
    Broken {
        /// The step's number, counted from 0.
        step: usize,
        /// The rule that it breaks.
        cause: Cause,
    },
    /// Out of memory, though no step breaks a rule.
    NoMemory,
}

/// The rule that a step breaks, with what the step asked for and what was there. All counts are
/// rows.
#[derive(Debug, Clone, Copy, PartialEq, Eq)]
pub enum Cause {
    /// A slice that doesn't begin at or before its end, or ends past the rows.
    BadRange {
        /// Where the slice begins.
        start: usize,
        /// Where it ends.
        end: usize,
        /// How many rows there were.
        len: usize,
    },
    /// A mask, or a column of bools, that isn't as long as the rows.
    BadMask {
        /// How long it is.
        mask_len: usize,
        /// How many rows there were.
        len: usize,
    },
    /// A filter by a column that isn't one of bools.
    NotBool,
    /// Indices that are no integers.
    InvalidIndices,
    /// Indices that are a piecewise sequence that isn't sound.
    BadPieces,
    /// An index that is negative, or not below the rows.
    OutOfBounds {
        /// The first such index.
        index: i128,
        /// How many rows there were.
        len: usize,
    },
}

impl fmt::Display for SelectError {
    ghost use Rattle.std.specs.Prelude.{Some};
    ghost use Rattle.vx_steps.specs.Messages.{select_error_text};

    ghost output = { λ e. Some (select_error_text e) };

    fn fmt<W: fmt::Write>(&self, f: &mut fmt::Formatter<W>) -> fmt::Result {
        match self {
            SelectError::Broken { step, cause } => write!(f, "step {step}: {cause}"),
            SelectError::NoMemory => f.write_str("out of memory"),
        }
    }
}

impl Error for SelectError {}

impl fmt::Display for Cause {
    ghost use Rattle.std.specs.Prelude.{Some};
    ghost use Rattle.vx_steps.specs.Messages.{cause_text};

    ghost output = { λ e. Some (cause_text e) };

    fn fmt<W: fmt::Write>(&self, f: &mut fmt::Formatter<W>) -> fmt::Result {
        match self {
            Cause::BadRange { start, end, len } => write!(f, "BadRange {start}..{end} of {len}"),
            Cause::BadMask { mask_len, len } => write!(f, "BadMask {mask_len} of {len}"),
            Cause::NotBool => f.write_str("NotBool"),
            Cause::InvalidIndices => f.write_str("InvalidIndices"),
            Cause::BadPieces => f.write_str("BadPieces"),
            Cause::OutOfBounds { index, len } => write!(f, "OutOfBounds {index} of {len}"),
        }
    }
}

impl Error for Cause {}

impl From<NoMemory> for SelectError {
    ghost use Rattle.std.specs.Prelude.{◌≡◌};
    ghost use Rattle.vx_steps.specs.declared.cause.SelectError.TheVariants.{NoMemory as OutOfMemory};

    ghost from_gives = { λ _ e. e ≡ OutOfMemory };

    fn from(_: NoMemory) -> SelectError {
        SelectError::NoMemory
    }
}
