//! The columns of a piecewise sequence.
ghost use Rattle.std.specs.Prelude.{◌≡◌};
ghost use Rattle.vx_pieces.specs.Pieces.{pieces_fault, pieces_parts};

use crate::natural::is_unsigned_column;
use crate::sequence::PiecewiseSequence;
use vx_column::{ArrayRef, ColumnError};

/// The columns of a piecewise sequence, each with a row a piece.
#[derive(Drop)]
pub struct PiecewiseSequenceSlots {
    /// Where each piece starts.
    pub starts: ArrayRef,
    /// How many numbers each piece has.
    pub lengths: ArrayRef,
    /// How far apart the numbers of each piece are.
    pub multipliers: ArrayRef,
}

impl PiecewiseSequenceSlots {
    /// Why the columns make no sequence, of whichever declared length; none where they make one.
    pub(crate) fn fault(&self) -> Option<ColumnError>
        ensures { result ≡ pieces_fault
            (pieces_parts self.now.starts self.now.lengths self.now.multipliers 0) }
    {
        let is_unsigned = is_unsigned_column(&self.starts)
            && is_unsigned_column(&self.lengths)
            && is_unsigned_column(&self.multipliers);
        if !is_unsigned {
            return Some(ColumnError::WrongType);
        }
        let len = self.starts.len();
        if self.lengths.len() != len || self.multipliers.len() != len {
            return Some(ColumnError::WrongLength);
        }
        None
    }
}

/// Reads the columns of a piecewise sequence.
pub trait PiecewiseSequenceArraySlotsExt {
    ghost use Rattle.vx_model.specs.Column.{Column};

    ghost starts_of: { Self → Column };

    ghost lengths_of: { Self → Column };

    ghost multipliers_of: { Self → Column };

    /// Where each piece starts.
    fn starts(&self) -> &ArrayRef
        ensures { result.now ≡ starts_of self.now };

    /// How many numbers each piece has.
    fn lengths(&self) -> &ArrayRef
        ensures { result.now ≡ lengths_of self.now };

    /// How far apart the numbers of each piece are.
    fn multipliers(&self) -> &ArrayRef
        ensures { result.now ≡ multipliers_of self.now };
}

/// What an array of a piecewise sequence has beside its columns: nothing yet.
pub trait PiecewiseSequenceArrayExt: PiecewiseSequenceArraySlotsExt {}

impl<T: PiecewiseSequenceArraySlotsExt> PiecewiseSequenceArrayExt for T {}

impl PiecewiseSequenceArraySlotsExt for PiecewiseSequenceSlots {
    ghost starts_of = { λ s. s.starts };

    ghost lengths_of = { λ s. s.lengths };

    ghost multipliers_of = { λ s. s.multipliers };

    fn starts(&self) -> &ArrayRef {
        &self.starts
    }

    fn lengths(&self) -> &ArrayRef {
        &self.lengths
    }

    fn multipliers(&self) -> &ArrayRef {
        &self.multipliers
    }
}

impl PiecewiseSequenceArraySlotsExt for PiecewiseSequence {
    ghost starts_of = { λ p. p.starts };

    ghost lengths_of = { λ p. p.lengths };

    ghost multipliers_of = { λ p. p.multipliers };

    fn starts(&self) -> &ArrayRef {
        self.slots.starts()
    }

    fn lengths(&self) -> &ArrayRef {
        self.slots.lengths()
    }

    fn multipliers(&self) -> &ArrayRef {
        self.slots.multipliers()
    }
}
