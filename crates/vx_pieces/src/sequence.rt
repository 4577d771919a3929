//! Piecewise sequences, and the reading of one piece.
ghost use Rattle.std.specs.Prelude.{◌≡◌, ◌<◌, None, length, slice_index, slice_index_or};
ghost use Rattle.vx_bits.specs.Results.{ok_unless};
ghost use Rattle.vx_model.specs.Valid.{non_nullable};
ghost use Rattle.vx_column.specs.Validity.{valid_of};
ghost use Rattle.vx_pieces.specs.Pieces.{pieces_fault, pieces_of, pieces_parts};

use crate::natural::natural_at;
use crate::piece::Piece;
use crate::slots::PiecewiseSequenceSlots;
use std::marker::Model;
use vx_column::{ArrayRef, ColumnError, Validity};

/// The numbers `starts[i] + j * multipliers[i]` for each `j` below `lengths[i]`, one piece after
/// another: Vortex's `PiecewiseSequence`.
///
/// A contract sees the three columns and the declared length. Whether the sequence is sound is
/// tested by [`PiecewiseSequence::check`] alone.
#[derive(Drop)]
pub struct PiecewiseSequence {
    pub(crate) slots: PiecewiseSequenceSlots,
    len: usize,
}

/// Vortex's name of the same type as an array.
pub type PiecewiseSequenceArray = PiecewiseSequence;

impl Model for PiecewiseSequence {
    ghost use Rattle.vx_pieces.specs.Pieces.{PiecesParts, coded_pieces};

    ghost Value = { PiecesParts };

    ghost coded = { coded_pieces };

    ghost use Rattle.std.specs.Prelude.{◌≡◌, None};
    ghost use Rattle.vx_pieces.specs.Pieces.{pieces_fault, pieces_parts};

    ghost view = { λ s. pieces_parts s.slots.starts s.slots.lengths s.slots.multipliers s.len };

    ghost invariant = { λ s. pieces_fault
        (pieces_parts s.slots.starts s.slots.lengths s.slots.multipliers s.len) ≡ None };
}

impl PiecewiseSequence {
    /// The sequence of these columns, with this declared length. It doesn't test whether the
    /// sequence is sound.
    ///
    /// `WrongType` exactly where a column isn't of a non-nullable unsigned type.
    /// Else `WrongLength` exactly where the columns differ in their length.
    pub fn try_new(
        starts: ArrayRef,
        lengths: ArrayRef,
        multipliers: ArrayRef,
        len: usize,
    ) -> Result<PiecewiseSequence, ColumnError>
        ensures { let parts = pieces_parts starts lengths multipliers len in
            result ≡ ok_unless (pieces_fault parts) parts }
    {
        let slots = PiecewiseSequenceSlots {
            starts,
            lengths,
            multipliers,
        };
        match slots.fault() {
            Some(fault) => Err(fault),
            None => Ok(PiecewiseSequence { slots, len }),
        }
    }

    /// The sequence of columns that are known to make one, with this declared length.
    pub fn new_unchecked(
        starts: ArrayRef,
        lengths: ArrayRef,
        multipliers: ArrayRef,
        len: usize,
    ) -> PiecewiseSequence
        requires { pieces_fault (pieces_parts starts lengths multipliers len) ≡ None }
        ensures { result ≡ pieces_parts starts lengths multipliers len }
    {
        PiecewiseSequence {
            slots: PiecewiseSequenceSlots {
                starts,
                lengths,
                multipliers,
            },
            len,
        }
    }

    /// The declared length.
    pub fn len(&self) -> usize
        ensures { result ≡ self.now.len }
    {
        self.len
    }

    /// Which of its rows are valid: all of them, by the type.
    pub fn validity(&self) -> Validity
        ensures { valid_of result ≡ non_nullable }
    {
        Validity::NonNullable
    }

    /// Another handle to the same sequence.
    pub fn share(&self) -> PiecewiseSequence
        ensures { result ≡ self.now }
    {
        PiecewiseSequence {
            slots: PiecewiseSequenceSlots {
                starts: self.slots.starts.share(),
                lengths: self.slots.lengths.share(),
                multipliers: self.slots.multipliers.share(),
            },
            len: self.len,
        }
    }

    /// How many pieces there are.
    #[tactic(auto, using(crate::proofs::Naturals::naturals))]
    pub(crate) fn count(&self) -> usize
        ensures { result ≡ length (pieces_of self.now) }
    {
        self.slots.starts.len()
    }

    /// Piece `i`.
    #[tactic(auto, using(crate::proofs::Naturals::naturals))]
    pub(crate) fn piece(&self, i: usize) -> Piece
        requires { i < length (pieces_of self.now) }
        ensures { result ≡ slice_index_or (pieces_of self.now) i result }
    {
        Piece {
            start: natural_at(&self.slots.starts, i),
            length: natural_at(&self.slots.lengths, i),
            multiplier: natural_at(&self.slots.multipliers, i),
        }
    }
}
