//! Where a row stands among several columns.

/// Where a row stands: in which of several columns, and which of its rows.
#[derive(Debug, Clone, Copy, PartialEq, Eq)]
pub struct Place {
    /// The column.
    pub column: usize,
    /// The row.
    pub row: usize,
}
