//! Why a list of indices picks no rows.

use std::error::Error;
use std::fmt;

/// The rule that a list of indices breaks.
#[derive(Debug, Clone, Copy, PartialEq, Eq)]
pub enum IndexFault {
    /// A column that isn't of integer type, also where it has no rows.
    InvalidIndices,
    /// A piecewise sequence that isn't sound.
    BadPieces,
    /// The first index, of those that aren't null, that is no position.
    OutOfBounds {
        /// The index.
        index: i128,
    },
}

impl fmt::Display for IndexFault {
    ghost use Rattle.std.specs.Prelude.{Some};
    ghost use Rattle.vx_pieces.specs.Messages.{index_fault_text};

    ghost output = { λ e. Some (index_fault_text e) };

    fn fmt<W: fmt::Write>(&self, f: &mut fmt::Formatter<W>) -> fmt::Result {
        match self {
            IndexFault::InvalidIndices => f.write_str("InvalidIndices"),
            IndexFault::BadPieces => f.write_str("BadPieces"),
            IndexFault::OutOfBounds { index } => write!(f, "OutOfBounds {index}"),
        }
    }
}

impl Error for IndexFault {}
