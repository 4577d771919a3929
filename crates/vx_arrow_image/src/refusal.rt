//! Why there are no rows.

use std::error::Error;
use std::fmt;

/// What a node lacks.
#[derive(Debug, Clone, Copy, PartialEq, Eq)]
pub enum Lack {
    /// A number that names a format.
    Format,
    /// The place of a tree: nodes are left over, or too few.
    Tree,
    /// Fewer than 2^60 rows, those before its first one counted.
    Rows,
    /// A bit of validity for each row.
    Valid,
    /// As many children as its format has.
    Children,
    /// Values for all rows.
    Values,
    /// An offset for each row and one more.
    Offsets,
    /// A size for each row.
    Sizes,
    /// Items that are there: offsets that ascend, and items up to the last; of a view, bytes or
    /// items within a child.
    Items,
    /// As many rows as its parent asks for.
    Length,
    /// The id of a child in each row of a union.
    Id,
}

/// Why there is no answer.
#[derive(Debug, Clone, Copy, PartialEq, Eq)]
pub enum Refusal {
    /// A node has no meaning.
    NoMeaning {
        /// The node's number, counted from 0.
        node: usize,
        /// What it lacks.
        lack: Lack,
    },
    /// A pick that isn't null is past the rows.
    Beyond,
    /// The column is a union, whose rows are never null, and a pick is null.
    NullPick,
    /// A node's room is smaller than its need, or there are not as many rooms as nodes.
    Room {
        /// The first such node's number; how many nodes there are, where rooms are too few or many.
        node: usize,
    },
    /// A node's rows at the picks are more than its offsets, or a length, can count.
    Overflow {
        /// The node's number.
        node: usize,
    },
    /// Out of memory.
    NoMemory,
}

impl fmt::Display for Lack {
    ghost use Rattle.std.specs.Prelude.{Some};
    ghost use Rattle.vx_arrow_image.specs.Messages.{lack_text};

    ghost output = { λ e. Some (lack_text e) };

    fn fmt<W: fmt::Write>(&self, f: &mut fmt::Formatter<W>) -> fmt::Result {
        f.write_str(match self {
            Lack::Format => "a number that names a format",
            Lack::Tree => "the place of a tree",
            Lack::Rows => "fewer than 2^60 rows",
            Lack::Valid => "a bit of validity for each row",
            Lack::Children => "as many children as its format has",
            Lack::Values => "values for all rows",
            Lack::Offsets => "an offset for each row",
            Lack::Sizes => "a size for each row",
            Lack::Id => "the id of a child in each row",
            Lack::Items => "items where its offsets say",
            Lack::Length => "as many rows as its parent asks for",
        })
    }
}

impl Error for Lack {}

impl fmt::Display for Refusal {
    ghost use Rattle.std.specs.Prelude.{Some};
    ghost use Rattle.vx_arrow_image.specs.Messages.{refusal_text};

    ghost output = { λ e. Some (refusal_text e) };

    fn fmt<W: fmt::Write>(&self, f: &mut fmt::Formatter<W>) -> fmt::Result {
        match self {
            Refusal::NoMeaning { node, lack } => write!(f, "node {node} lacks {lack}"),
            Refusal::Beyond => f.write_str("a pick is past the rows"),
            Refusal::NullPick => f.write_str("a pick of a union is null"),
            Refusal::Room { node } => write!(f, "the room of node {node} is too small"),
            Refusal::Overflow { node } => write!(f, "the rows of node {node} are too many"),
            Refusal::NoMemory => f.write_str("out of memory"),
        }
    }
}

impl Error for Refusal {}
