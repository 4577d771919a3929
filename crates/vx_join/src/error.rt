//! Why there is no join.

use std::error::Error;
use std::fmt;
use vx_bits::NoMemory;

/// Why two tables can't be joined. Pairs of keys count from 0.
#[derive(Debug, Clone, Copy, PartialEq, Eq)]
pub enum JoinError {
    /// There is no pair of keys.
    NoKeys,
    /// A pair names a column that doesn't exist.
    NoKey {
        /// The first such pair.
        pair: usize,
    },
    /// The types of a pair's columns aren't flat, or differ in more than nullability.
    KeyTypes {
        /// The first such pair.
        pair: usize,
    },
    /// Out of memory, though none of these is so.
    NoMemory,
}

impl fmt::Display for JoinError {
    ghost use Rattle.std.specs.Prelude.{Some};
    ghost use Rattle.vx_join.specs.Messages.{join_error_text};

    ghost output = { λ e. Some (join_error_text e) };

    fn fmt<W: fmt::Write>(&self, f: &mut fmt::Formatter<W>) -> fmt::Result {
        match self {
            JoinError::NoKeys => f.write_str("there is no pair of keys"),
            JoinError::NoKey { pair } => write!(f, "pair {pair} names no column"),
            JoinError::KeyTypes { pair } => write!(f, "pair {pair} has no common flat type"),
            JoinError::NoMemory => f.write_str("out of memory"),
        }
    }
}

impl Error for JoinError {}

impl From<NoMemory> for JoinError {
    ghost use Rattle.std.specs.Prelude.{◌≡◌};
    ghost use Rattle.vx_join.specs.declared.error.JoinError.TheVariants.{NoMemory as OutOfMemory};

    ghost from_gives = { λ _ e. e ≡ OutOfMemory };

    fn from(_: NoMemory) -> JoinError {
        JoinError::NoMemory
    }
}
