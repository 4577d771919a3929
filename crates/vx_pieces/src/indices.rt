//! Lists of indices.
ghost use Rattle.std.specs.Prelude.{◌≡◌, ◌+◌, ◌≤◌, ℕ, All, None, Ok, Some, length, map, true, IfOk, IfSome};
ghost use Rattle.std.specs.Option.{option_map};
ghost use Rattle.vx_types.specs.TypeTree.{is_int_type};
ghost use Rattle.vx_types.specs.declared.nullability.Nullability.TheVariants.{NonNullable};
ghost use Rattle.vx_take.specs.Picks.{run_places};
ghost use Rattle.vx_positions.specs.Positions.{AllThere, first_bad, positions_of};
ghost use Rattle.vx_model.specs.Numbers.{numbers_of};
ghost use Rattle.vx_pieces.specs.Indices.{column_fault, index_fault, index_len, index_nullability, index_picks, index_runs, index_value, sequence_fault};
ghost use Rattle.vx_pieces.specs.Pieces.{expand, first_from, is_sound};
ghost use Rattle.vx_pieces.specs.Runs.{contiguous_runs};

use crate::error::PiecesError;
use crate::fault::IndexFault;
use crate::sequence::PiecewiseSequence;
use std::alloc::Global;
use vx_bits::NoMemory;
use vx_column::{Array, Nullability, Runs};
use vx_plain::FlatRef;
use vx_take::Picks;

/// The indices of a take.
#[derive(Drop)]
pub enum Indices {
    /// The numbers of a column, null where it is null.
    Array(FlatRef),
    /// The numbers of a piecewise sequence, none of them null.
    Pieces(PiecewiseSequence),
}

impl Indices {
    /// How many indices there are, nulls too: of a sequence its declared length. Where there is no
    /// fault that is how many picks there are.
    #[tactic(auto, using(crate::proofs::IndexLists::counts))]
    pub fn len(&self) -> usize
        ensures value { result ≡ index_len (index_value self.now) }
        ensures picks { (n : ℕ) → index_fault (index_value self.now) n ≡ None
            → length (index_picks (index_value self.now)) ≡ result }
    {
        match self {
            Indices::Array(flat) => flat.array().len(),
            Indices::Pieces(pieces) => pieces.len(),
        }
    }

    /// Another handle to the same indices.
    pub fn share(&self) -> Indices
        ensures { result ≡ self.now }
    {
        match self {
            Indices::Array(flat) => Indices::Array(flat.share()),
            Indices::Pieces(pieces) => Indices::Pieces(pieces.share()),
        }
    }

    /// Whether a take by them may leave nulls: by the type, also where no index is null.
    pub fn nullability(&self) -> Nullability
        ensures { result ≡ index_nullability (index_value self.now) }
    {
        match self {
            Indices::Array(flat) => flat.array().dtype().nullability(),
            Indices::Pieces(_) => Nullability::NonNullable,
        }
    }

    /// Why a take by them from `len` rows isn't one; none where it is. A null's payload isn't
    /// looked at. A piece of many numbers costs what a piece of one costs.
    pub fn fault(&self, len: usize) -> Option<IndexFault>
        ensures { result ≡ index_fault (index_value self.now) len }
    {
        match self {
            Indices::Array(flat) => column_fault(flat.array(), len),
            Indices::Pieces(pieces) => sequence_fault(pieces, len),
        }
    }

    /// The positions that they name among `len` rows. Fails only with `NoMemory`.
    #[tactic(auto, using(crate::proofs::IndexLists::faultless))]
    pub fn picks(&self, alloc: Global, len: usize) -> Result<Picks, NoMemory>
        requires { index_fault (index_value self.now) len ≡ None }
        ensures picks { IfOk result
            (λ p. p ≡ record { picks = index_picks (index_value self.now); bound = len }) }
        ensures there { IfOk result
            (λ p. index_nullability (index_value self.now) ≡ NonNullable → AllThere p.picks) }
    {
        match self {
            Indices::Array(flat) => number_picks(alloc, flat.array(), len),
            Indices::Pieces(pieces) => pieces.picks(alloc, len),
        }
    }

    /// The runs that they name among `len` rows, each its start and its length: of a sequence whose
    /// multipliers are a constant 1. None exactly of others, which allocates nothing. Fails only
    /// with `NoMemory`.
    pub fn runs(&self, alloc: Global, len: usize) -> Result<Option<Runs>, NoMemory>
        requires { index_fault (index_value self.now) len ≡ None }
        ensures runs { IfOk result (λ runs. runs ≡ index_runs (index_value self.now)) }
        ensures picks { IfOk result (λ runs. IfSome runs
            (λ runs. map Some (run_places runs) ≡ index_picks (index_value self.now))) }
        ensures within { IfOk result
            (λ runs. IfSome runs (λ runs. All (λ run. run.0 + run.1 ≤ len) runs)) }
        ensures there { IfOk result
            (λ runs. IfSome runs (λ _. index_nullability (index_value self.now) ≡ NonNullable)) }
        ensures none { index_runs (index_value self.now) ≡ None → result ≡ Ok None }
    {
        match self {
            Indices::Array(_) => Ok(None),
            Indices::Pieces(pieces) => sequence_runs(alloc, pieces),
        }
    }
}

// The runs that the pieces of a sound sequence are; none where they aren't runs. Fails only with
// `NoMemory`.
fn sequence_runs(alloc: Global, pieces: &PiecewiseSequence) -> Result<Option<Runs>, NoMemory>
    requires { is_sound pieces.now ≡ true }
    ensures runs { IfOk result (λ runs. runs ≡ contiguous_runs pieces.now) }
    ensures numbers { IfOk result
        (λ runs. IfSome runs (λ runs. run_places runs ≡ expand pieces.now)) }
    ensures within { IfOk result (λ runs. IfSome runs (λ runs. (n : ℕ)
        → first_from n (expand pieces.now) ≡ None → All (λ run. run.0 + run.1 ≤ n) runs)) }
    ensures none { contiguous_runs pieces.now ≡ None → result ≡ Ok None }
{
    match pieces.contiguous_runs(alloc) {
        Ok(runs) => Ok(runs),
        Err(PiecesError::NoMemory) => Err(NoMemory),
        Err(_) => unreachable!(),
    }
}

/// The positions that the numbers of a column name, of which there are `len`; none at a null. Fails
/// only with `NoMemory`.
pub fn number_picks(alloc: Global, column: &Array, len: usize) -> Result<Picks, NoMemory>
    requires int { is_int_type column.now.dtype ≡ true }
    requires sound { first_bad len (numbers_of column.now) ≡ None }
    ensures picks { IfOk result
        (λ p. p ≡ record { picks = positions_of (numbers_of column.now); bound = len }) }
    ensures there { IfOk result
        (λ p. column.now.dtype.nullability ≡ NonNullable → AllThere p.picks) }
{
    match column.dtype().int_type() {
        Some(ptype) => column.positions(alloc, ptype, len),
        None => unreachable!(),
    }
}

// Why a take by the numbers of a column isn't one.
fn column_fault(array: &Array, len: usize) -> Option<IndexFault>
    ensures { result ≡ column_fault array.now len }
{
    match array.dtype().int_type() {
        Some(ptype) => out_of_bounds(array.first_bad(ptype, len)),
        None => Some(IndexFault::InvalidIndices),
    }
}

// Why a take by the numbers of a sequence isn't one.
fn sequence_fault(pieces: &PiecewiseSequence, len: usize) -> Option<IndexFault>
    ensures { result ≡ sequence_fault pieces.now len }
{
    if pieces.check().is_err() {
        return Some(IndexFault::BadPieces);
    }
    match pieces.first_at_least(len) {
        Some(index) => Some(IndexFault::OutOfBounds {
            index: index as i128,
        }),
        None => None,
    }
}

// That this number, where there is one, is out of bounds.
fn out_of_bounds(bad: Option<i128>) -> Option<IndexFault>
    ensures { result ≡ option_map IndexFault.OutOfBounds bad }
{
    match bad {
        Some(index) => Some(IndexFault::OutOfBounds { index }),
        None => None,
    }
}
