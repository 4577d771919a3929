//! Takes from a column of any layout, with the indices judged first, and the takes that a layout
//! answers itself: two traits, for two times. What they promise is the same, but that only a take
//! while columns are executed may be left to the caller.
//!
//! A layout that leaves no take to its caller is marked, and a take of it is the one over every
//! layout.
ghost use Rattle.std.specs.Prelude.{◌≡◌, ℕ, Bool, None, false, true, IfOk, IsOk};
ghost use Rattle.vx_bits.specs.Results.{FailsBy};
ghost use Rattle.vx_model.specs.Column.{Column};
ghost use Rattle.vx_model.specs.Plain.{is_null_layout};
ghost use Rattle.vx_pieces.specs.Indices.{index_len, index_value};
ghost use Rattle.vx_layouts.specs.Answers.{AnswersTake};
ghost use Rattle.vx_layouts.specs.Taking.{IsTakeBy, take_fault};

use crate::always::{TakeExecuteAlways, TakeReduceAlways};
use crate::answer::Answer;
use std::alloc::Global;
use std::error::Error;
use std::fmt;
use vx_bits::NoMemory;
use vx_column::Array;
use vx_mask::Policy;
use vx_pieces::{IndexFault, Indices};
use vx_plain::{ArrayView, VTable};

/// Why a take has no rows. All but the last come by the indices alone, before anything else.
#[derive(Debug, Clone, Copy, PartialEq, Eq)]
pub enum TakeError {
    /// A column of indices that isn't of integer type, also where it has no rows.
    InvalidIndices,
    /// A piecewise sequence that isn't sound.
    BadPieces,
    /// The first index, of those that aren't null, that is no position.
    OutOfBounds {
        /// The index.
        index: i128,
        /// How many rows there are.
        len: usize,
    },
    /// Out of memory, though the indices have no fault.
    NoMemory,
}

impl fmt::Display for TakeError {
    ghost use Rattle.std.specs.Prelude.{Some};
    ghost use Rattle.vx_layouts.specs.Messages.{take_error_text};

    ghost output = { λ e. Some (take_error_text e) };

    fn fmt<W: fmt::Write>(&self, f: &mut fmt::Formatter<W>) -> fmt::Result {
        match self {
            TakeError::InvalidIndices => f.write_str("InvalidIndices"),
            TakeError::BadPieces => f.write_str("BadPieces"),
            TakeError::OutOfBounds { index, len } => write!(f, "OutOfBounds {index} of {len}"),
            TakeError::NoMemory => f.write_str("out of memory"),
        }
    }
}

impl Error for TakeError {}

impl From<NoMemory> for TakeError {
    ghost use Rattle.std.specs.Prelude.{◌≡◌};
    ghost use Rattle.vx_layouts.specs.declared.taking.TakeError.TheVariants.{NoMemory as OutOfMemory};

    ghost from_gives = { λ _ e. e ≡ OutOfMemory };

    fn from(_: NoMemory) -> TakeError {
        TakeError::NoMemory
    }
}

/// Why a take from a column by these indices isn't one; none where it is.
pub(crate) fn take_fault(array: &Array, indices: &Indices) -> Option<TakeError>
    ensures { result ≡ take_fault array.now (index_value indices.now) }
{
    let len = array.len();
    match indices.fault(len) {
        None => None,
        Some(IndexFault::InvalidIndices) => Some(TakeError::InvalidIndices),
        Some(IndexFault::BadPieces) => Some(TakeError::BadPieces),
        Some(IndexFault::OutOfBounds { index }) => Some(TakeError::OutOfBounds { index, len }),
    }
}

/// The rows that indices name, in order, and a null for each null. The type is nullable also where
/// the indices' type is.
///
/// `InvalidIndices`, `BadPieces` and `OutOfBounds` exactly where the indices are at fault, also
/// when memory runs out. Otherwise it fails only with `NoMemory`, and never over layout `Null`.
pub fn take(
    alloc: Global,
    array: &Array,
    indices: &Indices,
    policy: &Policy,
) -> Result<Array, TakeError>
    ensures taken { IfOk result (IsTakeBy (index_value indices.now) array.now) }
    ensures fault { FailsBy result
        (take_fault array.now (index_value indices.now)) TakeError.NoMemory }
    ensures null { is_null_layout array.now.layout ≡ true
        → take_fault array.now (index_value indices.now) ≡ None → IsOk result }
{
    if let Some(error) = take_fault(array, indices) {
        return Err(error);
    }
    Ok(vx_dispatch::take(alloc, array, indices, policy)?)
}

/// A layout that answers a take while columns are put together: Vortex's `TakeReduce`.
pub trait TakeReduce: VTable {
    /// The rows that indices name, as [`crate::take`] gives them by the policy of Vortex: never
    /// `None`.
    fn take(alloc: Global, array: ArrayView<'_, Self>, indices: &Indices) -> Answer<TakeError>
        ensures { AnswersTake array.entry.array.now (index_value indices.now) false result };
}

/// A layout that answers a take while columns are executed: Vortex's `TakeExecute`.
pub trait TakeExecute: VTable {
    // whether a take of so many indices from a column is left to the caller
    ghost declines: { Column → ℕ → Bool };

    /// The rows that indices name, as [`crate::take`] gives them by the policy of Vortex; none
    /// where the take is left to the caller. The errors of the indices come before either.
    fn take(alloc: Global, array: ArrayView<'_, Self>, indices: &Indices) -> Answer<TakeError>
        ensures { AnswersTake array.entry.array.now (index_value indices.now)
            (declines array.entry.array.now (index_len (index_value indices.now))) result };
}

fn taken(alloc: Global, array: &Array, indices: &Indices) -> Answer<TakeError>
    ensures { AnswersTake array.now (index_value indices.now) false result }
{
    Ok(Some(take(alloc, array, indices, &Policy::vortex())?))
}

impl<V: TakeReduceAlways> TakeReduce for V {
    fn take(alloc: Global, array: ArrayView<'_, V>, indices: &Indices) -> Answer<TakeError>
        ensures { AnswersTake array.entry.array.now (index_value indices.now) false result }
    {
        taken(alloc, array.array(), indices)
    }
}

impl<V: TakeExecuteAlways> TakeExecute for V {
    ghost declines = { λ _ _. false };

    fn take(alloc: Global, array: ArrayView<'_, V>, indices: &Indices) -> Answer<TakeError>
        ensures { AnswersTake array.entry.array.now (index_value indices.now) false result }
    {
        taken(alloc, array.array(), indices)
    }
}
