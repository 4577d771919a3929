//! What the calls of a piecewise sequence refuse.

use std::error::Error;
use std::fmt;
use vx_bits::NoMemory;

/// What the calls of a piecewise sequence refuse.
#[derive(Debug, Clone, Copy, PartialEq, Eq)]
pub enum PiecesError {
    /// A number or the sum of the lengths passes `usize::MAX`, or the sum isn't the declared
    /// length.
    BadPieces,
    /// The number that was asked for passes `usize::MAX`.
    Overflow,
    /// There are no more numbers than this index.
    PastEnd,
    /// Out of memory.
    NoMemory,
}

/// A piecewise sequence isn't sound, and nothing else.
#[derive(Debug, Clone, Copy, PartialEq, Eq)]
pub struct BadPieces;

impl fmt::Display for PiecesError {
    ghost use Rattle.std.specs.Prelude.{Some};
    ghost use Rattle.vx_pieces.specs.Messages.{pieces_error_text};

    ghost output = { λ e. Some (pieces_error_text e) };

    fn fmt<W: fmt::Write>(&self, f: &mut fmt::Formatter<W>) -> fmt::Result {
        f.write_str(match self {
            PiecesError::BadPieces => "the piecewise sequence is not sound",
            PiecesError::Overflow => "the number passes usize::MAX",
            PiecesError::PastEnd => "the index is past the last number",
            PiecesError::NoMemory => "out of memory",
        })
    }
}

impl Error for PiecesError {}

impl fmt::Display for BadPieces {
    ghost use Rattle.std.specs.Prelude.{Some, codes};

    ghost output = { λ _. Some (codes "the piecewise sequence is not sound") };

    fn fmt<W: fmt::Write>(&self, f: &mut fmt::Formatter<W>) -> fmt::Result {
        f.write_str("the piecewise sequence is not sound")
    }
}

impl Error for BadPieces {}

impl From<NoMemory> for PiecesError {
    ghost use Rattle.std.specs.Prelude.{◌≡◌};
    ghost use Rattle.vx_pieces.specs.declared.error.PiecesError.TheVariants.{NoMemory as OutOfMemory};

    ghost from_gives = { λ _ e. e ≡ OutOfMemory };

    fn from(_: NoMemory) -> PiecesError {
        PiecesError::NoMemory
    }
}
