//! Sequences whose pieces are runs.
ghost use Rattle.std.specs.Prelude.{◌≡◌, ℕ, ◌+◌, ◌≤◌, [], ◌∷◌, ◌++◌, All, IfOk, IfSome, None, Ok, OnOk, Some, true, false};
ghost use Rattle.vx_bits.specs.Results.{FailsBy};
ghost use Rattle.vx_take.specs.Picks.{run_places};
ghost use Rattle.vx_pieces.specs.Pieces.{expand, first_from, is_unsigned_type, pieces_of};
ghost use Rattle.vx_pieces.specs.Runs.{contiguous_runs, is_constant_one, is_one, runs_fault, runs_of};

use crate::error::PiecesError;
use crate::natural::natural;
use crate::piece::Piece;
use crate::sequence::PiecewiseSequence;
use std::alloc::Global;
use vx_bits::NoMemory;
use vx_column::{DType, Runs, Scalar, ScalarValue};
use vx_plain::ReadLayout;

impl PiecewiseSequence {
    /// Whether the multipliers are a column of layout `Constant`, of value 1.
    pub fn is_constant_one(&self) -> bool
        ensures value { result ≡ is_constant_one self.now }
        ensures ones { result ≡ true → All (λ p. p.multiplier ≡ 1) (pieces_of self.now) }
    {
        match self.slots.multipliers.as_constant() {
            Some(scalar) => is_one(scalar),
            None => false,
        }
    }

    /// The pieces that have numbers, each its start and its length, where the multipliers are a
    /// constant 1; none exactly where they aren't, which allocates nothing.
    ///
    /// `BadPieces` exactly where they are and the sequence isn't sound, otherwise only `NoMemory`.
    pub fn contiguous_runs(&self, alloc: Global) -> Result<Option<Runs>, PiecesError>
        ensures runs { IfOk result (λ runs. runs ≡ contiguous_runs self.now) }
        ensures numbers { IfOk result
            (λ runs. IfSome runs (λ runs. run_places runs ≡ expand self.now)) }
        ensures within { IfOk result (λ runs. IfSome runs (λ runs. (n : ℕ)
            → first_from n (expand self.now) ≡ None → All (λ run. run.0 + run.1 ≤ n) runs)) }
        ensures none { is_constant_one self.now ≡ false → result ≡ Ok None }
        ensures fault { FailsBy result (runs_fault self.now) PiecesError.NoMemory }
    {
        if !self.is_constant_one() {
            return Ok(None);
        }
        if self.check().is_err() {
            return Err(PiecesError::BadPieces);
        }
        Ok(Some(self.runs(alloc)?))
    }

    // The pieces that have numbers, of a sequence whose multipliers are all 1. Fails only with
    // `NoMemory`.
    fn runs(&self, alloc: Global) -> Result<Runs, NoMemory>
        requires { All (λ p. p.multiplier ≡ 1) (pieces_of self.now) }
        ensures runs { IfOk result (λ runs. runs ≡ runs_of (pieces_of self.now)) }
        ensures numbers { IfOk result (λ runs. run_places runs ≡ expand self.now) }
        ensures within { IfOk result (λ runs. (n : ℕ) → first_from n (expand self.now) ≡ None
            → All (λ run. run.0 + run.1 ≤ n) runs) }
    {
        let mut runs = Vec::new(alloc);
        for i in 0..self.count() {
            push_run(&mut runs, self.piece(i))?;
        }
        Ok(Runs::from_vec(runs))
    }
}

// Appends the run of a piece, where it has numbers. Fails only with `NoMemory`.
fn push_run(runs: &mut Vec<(usize, usize)>, piece: Piece) -> Result<(), NoMemory>
    ensures { OnOk result (runs.new.items ≡ runs.old.items ++ runs_of (piece ∷ [])) }
{
    if piece.length == 0 {
        return Ok(());
    }
    runs.push((piece.start, piece.length))?;
    Ok(())
}

// Whether a value of an unsigned type is 1.
fn is_one(scalar: &Scalar) -> bool
    requires { is_unsigned_type scalar.now.dtype ≡ true }
    ensures { result ≡ is_one scalar.now.dtype (Some scalar.now.row) }
{
    match scalar.value() {
        ScalarValue::Bytes(bytes) => match scalar.dtype() {
            DType::Primitive(ptype, _) => natural(*ptype, bytes.as_slice()) == 1,
            _ => unreachable!(),
        },
        ScalarValue::Null | ScalarValue::Bit(_) => false,
    }
}
