//! Why there is no table, and why there is no page.

use std::error::Error;
use std::fmt;
use vx_bits::NoMemory;
use vx_select::{Cause, SelectError};

/// Why there is no page.
#[derive(Debug, Clone, Copy, PartialEq, Eq)]
pub enum PageError {
    /// The projection names a column that doesn't exist.
    NoColumn {
        /// The first such number in the projection.
        index: usize,
    },
    /// A page has no rows.
    EmptyPage,
    /// The first step that breaks a rule, and its cause.
    Broken {
        /// The step's number, counted from 0.
        step: usize,
        /// The rule that it breaks.
        cause: Cause,
    },
    /// Out of memory, though none of these is so.
    NoMemory,
}

/// Why names and columns are no table.
#[derive(Debug, Clone, Copy, PartialEq, Eq)]
pub enum TableError {
    /// There aren't as many names as columns.
    WrongCount,
    /// A column hasn't as many rows as the table.
    WrongLength {
        /// The first such column.
        column: usize,
    },
}

impl fmt::Display for PageError {
    ghost use Rattle.std.specs.Prelude.{Some};
    ghost use Rattle.vx_table.specs.Messages.{page_error_text};

    ghost output = { λ e. Some (page_error_text e) };

    fn fmt<W: fmt::Write>(&self, f: &mut fmt::Formatter<W>) -> fmt::Result {
        match self {
            PageError::NoColumn { index } => write!(f, "there is no column {index}"),
            PageError::EmptyPage => f.write_str("a page has no rows"),
            PageError::Broken { step, cause } => write!(f, "step {step}: {cause}"),
            PageError::NoMemory => f.write_str("out of memory"),
        }
    }
}

impl Error for PageError {}

impl fmt::Display for TableError {
    ghost use Rattle.std.specs.Prelude.{Some};
    ghost use Rattle.vx_table.specs.Messages.{table_error_text};

    ghost output = { λ e. Some (table_error_text e) };

    fn fmt<W: fmt::Write>(&self, f: &mut fmt::Formatter<W>) -> fmt::Result {
        match self {
            TableError::WrongCount => f.write_str("there are not as many names as columns"),
            TableError::WrongLength { column } => write!(f, "column {column} has another length"),
        }
    }
}

impl Error for TableError {}

impl From<NoMemory> for PageError {
    ghost use Rattle.std.specs.Prelude.{◌≡◌};
    ghost use Rattle.vx_table.specs.declared.error.PageError.TheVariants.{NoMemory as OutOfMemory};

    ghost from_gives = { λ _ e. e ≡ OutOfMemory };

    fn from(_: NoMemory) -> PageError {
        PageError::NoMemory
    }
}

impl From<SelectError> for PageError {
    ghost use Rattle.std.specs.Prelude.{◌≡◌};
    ghost use Rattle.vx_table.specs.Page.{page_error};

    ghost from_gives = { λ x e. e ≡ page_error x };

    fn from(error: SelectError) -> PageError {
        match error {
            SelectError::Broken { step, cause } => PageError::Broken { step, cause },
            SelectError::NoMemory => PageError::NoMemory,
        }
    }
}
