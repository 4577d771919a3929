//! Layout `Null`: what a step leaves of rows that are all null.
ghost use Rattle.std.specs.Prelude.{◌≡◌, ◌≤◌, length};
ghost use Rattle.std.specs.List.{items_where_true};
ghost use Rattle.vx_model.specs.Null.{null_column};
ghost use Rattle.vx_model.specs.Step.{IsSlice, IsCut, IsTake};

use vx_column::{Array, NullArray, Nullability};
use vx_mask::MaskValues;
use vx_take::Picks;

/// The rows from `start` up to `end`.
#[tactic(auto, using(vx_model::proofs::Layouts::layout_rows))]
pub fn slice_nulls(array: &NullArray, start: usize, end: usize) -> Array
    requires ordered { start ≤ end }
    requires within { end ≤ length (null_column array.now).rows }
    ensures { IsSlice (null_column array.now) start end result }
{
    // Only the contract speaks of it.
    let _ = array;
    NullArray::new(end - start).into_array()
}

/// The rows at the set positions of `mask`.
pub fn filter_nulls(array: &NullArray, mask: &MaskValues) -> Array
    requires { length mask.now.bits.bits ≡ length (null_column array.now).rows }
    ensures { IsCut (null_column array.now)
        (items_where_true mask.now.bits.bits (null_column array.now).rows) result }
{
    // Only the contract speaks of it.
    let _ = array;
    NullArray::new(mask.true_count()).into_array()
}

/// A null for each of the picks.
pub fn take_nulls(array: &NullArray, picks: &Picks, nullability: Nullability) -> Array
    ensures { IsTake (null_column array.now) picks.now.picks nullability result }
{
    // Only the contract speaks of it.
    let _ = array;
    let _ = nullability;
    NullArray::new(picks.len()).into_array()
}
