//! The numbers of a sequence, one after another.
ghost use Rattle.std.specs.Prelude.{◌≡◌, ◌++◌, None, Some, IfOk, OnOk, map, true};
ghost use Rattle.std.specs.Int.{w64, to_le_bytes};
ghost use Rattle.vx_bits.specs.Results.{FailsBy};
ghost use Rattle.vx_positions.specs.Positions.{AllThere};
ghost use Rattle.vx_pieces.specs.Pieces.{expand, first_from, is_sound, is_sound_piece, numbers_column, piece_numbers, sound_fault};

use crate::error::PiecesError;
use crate::piece::Piece;
use crate::sequence::PiecewiseSequence;
use std::alloc::Global;
use vx_bits::{Buffer, NoMemory, Records};
use vx_column::{Array, PType, number_column};
use vx_take::Picks;

impl PiecewiseSequence {
    /// The column of type `u64` of its numbers.
    ///
    /// `BadPieces` exactly where the sequence isn't sound, otherwise only `NoMemory`.
    pub fn execute(&self, alloc: Global) -> Result<Array, PiecesError>
        ensures numbers { IfOk result (λ a. a ≡ numbers_column (expand self.now)) }
        ensures fault { FailsBy result (sound_fault self.now) PiecesError.NoMemory }
    {
        if self.check().is_err() {
            return Err(PiecesError::BadPieces);
        }
        Ok(self.numbers(alloc)?)
    }

    // The column of its numbers, of a sound sequence. Fails only with `NoMemory`.
    fn numbers(&self, alloc: Global) -> Result<Array, NoMemory>
        requires { is_sound self.now ≡ true }
        ensures { IfOk result (λ a. a ≡ numbers_column (expand self.now)) }
    {
        let records = self.records(alloc)?;
        let values = Records::W8(Buffer::from_vec(alloc, records)?);
        Ok(number_column(PType::U64, values).into_array())
    }

    // A record for each of its numbers, of a sound sequence. Fails only with `NoMemory`.
    fn records(&self, alloc: Global) -> Result<Vec<[u8; 8]>, NoMemory>
        requires { is_sound self.now ≡ true }
        ensures { IfOk result (λ v. v.items ≡ map (to_le_bytes w64) (expand self.now)) }
    {
        let mut records = Vec::with_capacity(alloc, self.len())?;
        for i in 0..self.count() {
            push_records(&mut records, self.piece(i))?;
        }
        Ok(records)
    }

    /// The positions that its numbers are, of a sound sequence whose numbers are all below `len`.
    /// Fails only with `NoMemory`.
    #[tactic(auto, using(crate::proofs::PieceLists::there))]
    pub(crate) fn picks(&self, alloc: Global, len: usize) -> Result<Picks, NoMemory>
        requires sound { is_sound self.now ≡ true }
        requires within { first_from len (expand self.now) ≡ None }
        ensures picks { IfOk result
            (λ p. p ≡ record { picks = map (λ x. Some x) (expand self.now); bound = len }) }
        ensures there { IfOk result (λ p. AllThere p.picks) }
    {
        let mut picks = Picks::with_capacity(alloc, len, self.len())?;
        for i in 0..self.count() {
            push_picks(&mut picks, self.piece(i))?;
        }
        Ok(picks)
    }
}

// Appends a record for each number of a piece. Fails only with `NoMemory`.
fn push_records(records: &mut Vec<[u8; 8]>, piece: Piece) -> Result<(), NoMemory>
    requires { is_sound_piece piece ≡ true }
    ensures { OnOk result
        (records.new.items ≡ records.old.items ++ map (to_le_bytes w64) (piece_numbers piece)) }
{
    for j in 0..piece.length {
        records.push((piece.index(j) as u64).to_le_bytes())?;
    }
    Ok(())
}

// Appends the numbers of a piece. Fails only with `NoMemory`.
fn push_picks(picks: &mut Picks, piece: Piece) -> Result<(), NoMemory>
    requires sound { is_sound_piece piece ≡ true }
    requires within { first_from picks.old.bound (piece_numbers piece) ≡ None }
    ensures { OnOk result (picks.new ≡ record picks.old {
      picks = picks.old.picks ++ map (λ x. Some x) (piece_numbers piece);
    }) }
{
    for j in 0..piece.length {
        picks.push(Some(piece.index(j)))?;
    }
    Ok(())
}
