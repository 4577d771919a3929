//! Walks over the pieces of a sequence that don't allocate.
ghost use Rattle.std.specs.Prelude.{◌≡◌, Some, is_ok, slice_get, true};
ghost use Rattle.vx_pieces.specs.Pieces.{expand, first_from, is_sound, scalar_of};

use crate::error::{BadPieces, PiecesError};
use crate::sequence::PiecewiseSequence;

impl PiecewiseSequence {
    /// Whether the sequence is sound. `BadPieces` exactly where it isn't: a number or the sum of
    /// the lengths passes `usize::MAX`, or the sum isn't the declared length. A piece of many
    /// numbers costs what a piece of one costs.
    pub fn check(&self) -> Result<(), BadPieces>
        ensures { is_ok result ≡ is_sound self.now }
    {
        let mut total: u128 = 0;
        for i in 0..self.count() {
            let piece = self.piece(i);
            if !piece.is_sound() {
                return Err(BadPieces);
            }
            total += piece.length as u128;
        }
        if total == self.len() as u128 {
            Ok(())
        } else {
            Err(BadPieces)
        }
    }

    /// Number `index` of the pieces, one piece after another, whatever the declared length.
    ///
    /// `PastEnd` exactly where there are no more numbers than that. Else `Overflow` exactly where
    /// this one number passes `usize::MAX`.
    pub fn scalar_at(&self, index: usize) -> Result<u64, PiecesError>
        ensures { result ≡ scalar_of (slice_get (expand self.now) index) }
    {
        let mut left = index;
        for i in 0..self.count() {
            let piece = self.piece(i);
            if left < piece.length {
                return fitting(piece.number(left));
            }
            left -= piece.length;
        }
        Err(PiecesError::PastEnd)
    }

    /// The first number that is at least `n`. A piece of many numbers costs what a piece of one
    /// costs.
    pub fn first_at_least(&self, n: usize) -> Option<usize>
        requires { is_sound self.now ≡ true }
        ensures { result ≡ first_from n (expand self.now) }
    {
        for i in 0..self.count() {
            let found = self.piece(i).first_at_least(n);
            if found.is_some() {
                return found;
            }
        }
        None
    }
}

// The number, where it is at most `usize::MAX`.
fn fitting(number: u128) -> Result<u64, PiecesError>
    ensures { result ≡ scalar_of (Some number) }
{
    if number <= u64::MAX as u128 {
        Ok(number as u64)
    } else {
        Err(PiecesError::Overflow)
    }
}
