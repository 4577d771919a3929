//! Why a column or a step isn't built.

use vortex_select::{ColumnError, NoMemory};

/// Why a column or a step isn't built.
#[derive(Debug, Clone, Copy, PartialEq, Eq)]
pub(crate) enum BuildError {
    /// A constructor refuses its parts.
    Refused(ColumnError),
    /// Out of memory.
    NoMemory,
}

impl From<ColumnError> for BuildError {
    fn from(error: ColumnError) -> BuildError {
        BuildError::Refused(error)
    }
}

impl From<NoMemory> for BuildError {
    fn from(_: NoMemory) -> BuildError {
        BuildError::NoMemory
    }
}
