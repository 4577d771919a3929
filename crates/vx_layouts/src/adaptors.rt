//! Takes as a dictionary asks for them: of its values, at its codes.
ghost use Rattle.std.specs.Prelude.{◌≡◌, ◌≢◌, false, true, None, Some, Ok, IfSome, option_map};
ghost use Rattle.vx_types.specs.TypeTree.{is_int_type};
ghost use Rattle.vx_model.specs.Column.{Codes};
ghost use Rattle.vx_pieces.specs.Indices.{by_column, index_value};
ghost use Rattle.vx_layouts.specs.Adaptors.{codes_of, AnswersCodes};

use crate::answer::Answer;
use crate::taking::{TakeError, TakeExecute, TakeReduce};
use std::alloc::Global;
use vx_column::{Array, ArrayRef};
use vx_pieces::Indices;
use vx_plain::vtables::Dict;
use vx_plain::{ArrayView, FlatRef, ReadLayout};

// The place of the values among a dictionary's children.
const VALUES: usize = 1;

/// A layout's take while columns are put together, as a dictionary of its columns asks for it:
/// Vortex's `TakeReduceAdaptor`.
#[derive(Debug, Default, Drop)]
pub struct TakeReduceAdaptor<V>(pub V);

/// A layout's take while columns are executed, as a dictionary of its columns asks for it: Vortex's
/// `TakeExecuteAdaptor`.
#[derive(Debug, Default, Drop)]
pub struct TakeExecuteAdaptor<V>(pub V);

// The codes of a dictionary, of integer type; some exactly where the column is one.
fn codes_of<'a>(parent: ArrayView<'a, Dict>) -> Option<&'a ArrayRef>
    ensures value { option_map (λ k. codes_of k.now) result ≡ parent.entry.array.now.codes }
    ensures integers { IfSome result (λ k. is_int_type k.now.dtype ≡ true) }
{
    match parent.array().as_dict() {
        Some(dict) => Some(dict.codes()),
        None => None,
    }
}

// A column of integers as indices.
fn indices_of(codes: &ArrayRef) -> Indices
    requires { is_int_type codes.now.dtype ≡ true }
    ensures { index_value result ≡ by_column codes.now }
{
    Indices::Array(FlatRef::of(codes.share()))
}

impl<V: TakeReduce> TakeReduceAdaptor<V> {
    /// The rows of `array`, which stands for child `child_idx` of `parent`, at the codes of
    /// `parent`: none where that child isn't 1, the values. A code below the number of the
    /// dictionary's values may be none of `array`'s rows: that is the take's `OutOfBounds`.
    pub fn reduce_parent(
        &self,
        alloc: Global,
        array: ArrayView<'_, V>,
        parent: ArrayView<'_, Dict>,
        child_idx: usize,
    ) -> Answer<TakeError>
        ensures others { child_idx ≢ 1 → result ≡ Ok None }
        ensures values { child_idx ≡ 1 → (codes : Codes)
            → parent.entry.array.now.codes ≡ Some codes
            → AnswersCodes array.entry.array.now codes (λ _ _. false) result }
    {
        if child_idx != VALUES {
            return Ok(None);
        }
        match codes_of(parent) {
            Some(codes) => V::take(alloc, array, &indices_of(codes)),
            None => Ok(None),
        }
    }
}

impl<V: TakeExecute> TakeExecuteAdaptor<V> {
    /// The rows of `array`, which stands for child `child_idx` of `parent`, at the codes of
    /// `parent`: none where that child isn't 1, the values, and where the layout leaves the take to
    /// its caller. A code below the number of the dictionary's values may be none of `array`'s
    /// rows: that is the take's `OutOfBounds`.
    pub fn execute_parent(
        &self,
        alloc: Global,
        array: ArrayView<'_, V>,
        parent: ArrayView<'_, Dict>,
        child_idx: usize,
    ) -> Answer<TakeError>
        ensures others { child_idx ≢ 1 → result ≡ Ok None }
        ensures values { child_idx ≡ 1 → (codes : Codes)
            → parent.entry.array.now.codes ≡ Some codes
            → AnswersCodes array.entry.array.now codes V.declines result }
    {
        if child_idx != VALUES {
            return Ok(None);
        }
        match codes_of(parent) {
            Some(codes) => V::take(alloc, array, &indices_of(codes)),
            None => Ok(None),
        }
    }
}
