//! Lists of indices: which rows a take picks, and why it can't.
#![tactic(auto)]

mod error;
mod expanding;
mod fault;
mod indices;
mod natural;
mod piece;
mod places;
mod runs;
mod sequence;
mod slots;
mod walks;

pub use error::{BadPieces, PiecesError};
pub use fault::IndexFault;
pub use indices::{Indices, number_picks};
pub use places::{run_picks, total_len};
pub use sequence::{PiecewiseSequence, PiecewiseSequenceArray};
pub use slots::{
    PiecewiseSequenceArrayExt, PiecewiseSequenceArraySlotsExt, PiecewiseSequenceSlots,
};
