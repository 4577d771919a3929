//! Why a call is refused.

use std::error::Error;
use std::fmt;

/// Why a call is refused. Nothing is written then.
#[derive(Debug, Clone, Copy, PartialEq, Eq)]
pub enum Fault {
    /// A row has no bytes, or more than 2^20.
    Width,
    /// Chunks have no rows.
    ChunkLen,
    /// The list of starts isn't one longer than there are chunks.
    Starts,
    /// The list of the picks' numbers isn't as long as the list of places.
    Order,
    /// There are bits of validity, and fewer than picks.
    Valid,
    /// This pick, the first such one, is past the rows.
    Place(u64),
    /// The column has no chunk of this number.
    Chunk,
    /// The chunk's bytes aren't those of its rows, nor those of a whole chunk.
    Bytes,
    /// The output has no room for a row a pick.
    Output,
    /// This entry of the range, the first such one, isn't the number of a pick in the chunk.
    Stray(u64),
}

impl fmt::Display for Fault {
    ghost use Rattle.std.specs.Prelude.{Some};
    ghost use Rattle.vx_chunk_plan.specs.Messages.{fault_text};

    ghost output = { λ fault. Some (fault_text fault) };

    fn fmt<W: fmt::Write>(&self, f: &mut fmt::Formatter<W>) -> fmt::Result {
        match self {
            Fault::Width => f.write_str("a row needs 1 to 2^20 bytes"),
            Fault::ChunkLen => f.write_str("chunks have no rows"),
            Fault::Starts => f.write_str("starts needs one number more than there are chunks"),
            Fault::Order => f.write_str("order needs one number for each place"),
            Fault::Valid => f.write_str("validity has fewer bits than there are picks"),
            Fault::Place(j) => write!(f, "pick {j} is past the rows"),
            Fault::Chunk => f.write_str("the column has no such chunk"),
            Fault::Bytes => f.write_str("the bytes are not those of the chunk's rows"),
            Fault::Output => f.write_str("the output has no room for a row a pick"),
            Fault::Stray(i) => write!(f, "entry {i} is not the number of a pick in the chunk"),
        }
    }
}

impl Error for Fault {}
