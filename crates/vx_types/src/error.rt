//! What constructors refuse.

use std::error::Error;
use std::fmt;
use vx_bits::NoMemory;

/// What a constructor of a type or a column refuses, in the order in which it tests.
#[derive(Debug, Clone, Copy, PartialEq, Eq)]
pub enum ColumnError {
    /// A part isn't of the type that this place wants.
    WrongType,
    /// Records aren't as wide as their type.
    WrongWidth,
    /// Parts that go together differ in their length.
    WrongLength,
    /// A validity array isn't non-nullable bool, or isn't as long as the rows.
    BadValidity,
    /// A dictionary's code names no value.
    CodeOutOfRange,
    /// Offsets fall, are negative, or pass what they point into.
    BadOffsets,
    /// A size is negative, or passes what it points into.
    BadSizes,
    /// A view names bytes outside of its buffers.
    BadViews,
    /// A type id names no variant, or names two.
    BadTypeId,
    /// A length passes `usize::MAX`.
    TooLong,
    /// Out of memory, which only a constructor that takes an allocator answers.
    NoMemory,
}

impl fmt::Display for ColumnError {
    ghost use Rattle.std.specs.Prelude.{Some};
    ghost use Rattle.vx_types.specs.Messages.{column_error_text};

    ghost output = { λ e. Some (column_error_text e) };

    fn fmt<W: fmt::Write>(&self, f: &mut fmt::Formatter<W>) -> fmt::Result {
        f.write_str(match self {
            ColumnError::WrongType => "a part is of another type than its place wants",
            ColumnError::WrongWidth => "records are not as wide as their type",
            ColumnError::WrongLength => "parts that go together differ in length",
            ColumnError::BadValidity =>
                "the validity is no non-nullable bool column as long as the rows",
            ColumnError::CodeOutOfRange => "a dictionary code names no value",
            ColumnError::BadOffsets => "offsets fall, are negative, or pass what they point into",
            ColumnError::BadSizes => "a size is negative, or passes what it points into",
            ColumnError::BadViews => "a view names bytes outside its buffers",
            ColumnError::BadTypeId => "a type id names no variant, or names two",
            ColumnError::TooLong => "a length passes usize::MAX",
            ColumnError::NoMemory => "out of memory",
        })
    }
}

impl Error for ColumnError {}

impl From<NoMemory> for ColumnError {
    ghost use Rattle.std.specs.Prelude.{◌≡◌};
    ghost use Rattle.vx_types.specs.declared.error.ColumnError.TheVariants.{NoMemory as OutOfMemory};

    ghost from_gives = { λ _ e. e ≡ OutOfMemory };

    fn from(_: NoMemory) -> ColumnError {
        ColumnError::NoMemory
    }
}
