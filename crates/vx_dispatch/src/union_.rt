//! Layout `Union`: a step over the rows is that step over the ids, and over each column where the
//! union is sparse or over the offsets where it is dense.
ghost use Rattle.std.specs.Prelude.{◌≡◌, ◌≤◌, length, None, Some, IfOk};
ghost use Rattle.std.specs.List.{items_where_true};
ghost use Rattle.vx_types.specs.declared.nullability.Nullability.TheVariants.{NonNullable};
ghost use Rattle.vx_positions.specs.Positions.{AllThere};
ghost use Rattle.vx_model.specs.Step.{IsCut, IsSlice, IsTake};
ghost use Rattle.vx_model.specs.Union.{IsUnionFilter, union_column};
ghost use Rattle.vx_dispatch.specs.Union.{IsUnionSlice, IsUnionTake};

use crate::columns::{execute_each, filter_each, slice_each, take_each};
use crate::executing::{ExecuteRows, execute};
use crate::filtering::filter_values;
use crate::parts::{Parts, StepResult};
use crate::slicing::slice;
use crate::taking::take_picks;
use std::alloc::Global;
use vx_bits::NoMemory;
use vx_column::{ArrayRef, Nullability, UnionArray};
use vx_filler::{fillers, firsts_for_nulls};
use vx_lists::{filter_numbers, slice_numbers, take_numbers};
use vx_mask::{Mask, MaskValues, Policy, prepare_mask_for_reuse};
use vx_take::Picks;

impl Parts for UnionArray {
    ghost column = { union_column };
}

/// The rows of a union from `start` up to `end`, in the union's form. A dense one keeps its
/// columns, and the type of its offsets. Fails only with `NoMemory`.
#[cycle(slice)]
#[tactic(auto, using(vx_model::proofs::UnionSteps::rows_of_unions))]
pub fn slice_variants(
    alloc: Global,
    array: &UnionArray,
    start: usize,
    end: usize,
) -> Result<UnionArray, NoMemory>
    requires ordered { start ≤ end }
    requires within { end ≤ length (union_column array.now).rows }
    ensures cut { IfOk result
        (λ a. IsSlice (union_column array.now) start end (union_column a)) }
    ensures parts { IfOk result (IsUnionSlice array.now start end) }
{
    let ids = slice(alloc, array.type_ids(), start, end)?.into_ref(alloc)?;
    match array.offsets() {
        Some(offsets) => {
            let places = slice_numbers(offsets, start, end);
            let columns = array.children().share();
            Ok(array.with_parts(ids, Some(places), columns))
        }
        None => {
            let columns = slice_each(alloc, array.children(), array.len(), start, end)?;
            Ok(array.with_parts(ids, None, columns))
        }
    }
}

// The rows of a sparse union at the set positions of a mask that is as long, whose ids these are:
// each column's rows there, by a mask that is made ready for as many consumers as there are
// columns.
#[cycle(filter)]
#[tactic(auto, using(vx_model::proofs::UnionSteps::rows_of_unions))]
fn filter_sparse(
    alloc: Global,
    array: &UnionArray,
    ids: ArrayRef,
    mask: &MaskValues,
    policy: &Policy,
) -> Result<UnionArray, NoMemory>
    requires sparse { array.now.offsets ≡ None }
    requires rows { length mask.now.bits.bits ≡ length array.now.ids.rows }
    requires ids { IsCut array.now.ids
        (items_where_true mask.now.bits.bits array.now.ids.rows) ids }
    ensures cut { IfOk result (λ a. IsCut (union_column array.now)
        (items_where_true mask.now.bits.bits (union_column array.now).rows) (union_column a)) }
    ensures sparse { IfOk result (λ a. a.offsets ≡ None) }
    ensures parts { IfOk result (IsUnionFilter array.now mask.now.bits.bits) }
{
    let columns = array.children();
    let shared = Mask::Values(mask.share());
    let ready = prepare_mask_for_reuse(alloc, &shared, columns.len(), policy)?;
    let cut = filter_each(alloc, columns, &ready, policy)?;
    Ok(array.with_parts(ids, None, cut))
}

/// The rows of a union at the set positions of a mask that is as long, in the union's form. A dense
/// one keeps its columns, and the type of its offsets. Fails only with `NoMemory`.
#[cycle(filter)]
#[tactic(auto, using(vx_model::proofs::UnionSteps::rows_of_unions))]
pub fn filter_variants(
    alloc: Global,
    array: &UnionArray,
    mask: &MaskValues,
    policy: &Policy,
) -> Result<UnionArray, NoMemory>
    requires { length mask.now.bits.bits ≡ length (union_column array.now).rows }
    ensures cut { IfOk result (λ a. IsCut (union_column array.now)
        (items_where_true mask.now.bits.bits (union_column array.now).rows) (union_column a)) }
    ensures form { IfOk result (λ a. (union_column a).dense ≡ (union_column array.now).dense) }
    ensures parts { IfOk result (IsUnionFilter array.now mask.now.bits.bits) }
{
    let ids = filter_values(alloc, array.type_ids(), mask, policy)?.into_ref(alloc)?;
    match array.offsets() {
        Some(offsets) => {
            let places = filter_numbers(alloc, offsets, mask, policy)?;
            let columns = array.children().share();
            Ok(array.with_parts(ids, Some(places), columns))
        }
        None => filter_sparse(alloc, array, ids, mask, policy),
    }
}

// The rows of a sparse union at the picks, whose ids these are. At a null pick the columns have row
// 0, or fillers where there is no row; the ids hide them.
#[cycle(take)]
#[tactic(auto, using(vx_model::proofs::UnionSteps::rows_of_unions))]
fn take_sparse(
    alloc: Global,
    array: &UnionArray,
    ids: ArrayRef,
    picks: &Picks,
    nullability: Nullability,
    policy: &Policy,
) -> Result<UnionArray, NoMemory>
    requires sparse { array.now.offsets ≡ None }
    requires bound { picks.now.bound ≡ length array.now.ids.rows }
    requires ids { IsTake array.now.ids picks.now.picks nullability ids }
    ensures taken { IfOk result
        (λ a. IsTake (union_column array.now) picks.now.picks nullability (union_column a)) }
    ensures parts { IfOk result (IsUnionTake array.now picks.now.picks nullability) }
{
    // the type of the ids is nullable where it is
    let _ = nullability;
    if picks.bound() == 0 {
        let types = array.variants().types();
        let columns = fillers(alloc, types, picks.len())?;
        return Ok(array.with_parts(ids, None, columns));
    }
    let firsts = firsts_for_nulls(alloc, picks)?;
    let columns = take_each(alloc, array.children(), &firsts, policy)?;
    Ok(array.with_parts(ids, None, columns))
}

/// The rows of a union at the picks, in order, and a null at each null, in the union's form. A
/// dense one keeps its columns, and the type of its offsets, of which one is 0 at a null. The type
/// is nullable also where `nullability` is, and no pick is a null where it isn't. Fails only with
/// `NoMemory`.
#[cycle(take)]
#[tactic(auto, using(vx_model::proofs::UnionSteps::rows_of_unions))]
pub fn take_variants(
    alloc: Global,
    array: &UnionArray,
    picks: &Picks,
    nullability: Nullability,
    policy: &Policy,
) -> Result<UnionArray, NoMemory>
    requires bound { picks.now.bound ≡ length (union_column array.now).rows }
    requires there { nullability ≡ NonNullable → AllThere picks.now.picks }
    ensures taken { IfOk result
        (λ a. IsTake (union_column array.now) picks.now.picks nullability (union_column a)) }
    ensures parts { IfOk result (IsUnionTake array.now picks.now.picks nullability) }
{
    let copy = picks.copied(alloc)?;
    let taken = take_picks(alloc, array.type_ids(), copy, nullability, policy)?;
    let ids = taken.into_ref(alloc)?;
    match array.offsets() {
        Some(offsets) => {
            let places = take_numbers(alloc, offsets, picks)?;
            let columns = array.children().share();
            Ok(array.with_parts(ids, Some(places), columns))
        }
        None => take_sparse(alloc, array, ids, picks, nullability, policy),
    }
}

// The union's rows, with the ids and the columns executed.
impl ExecuteRows for UnionArray {
    #[cycle(execute)]
    #[tactic(auto, using(vx_model::proofs::UnionSteps::rows_of_unions))]
    fn execute(&self, alloc: Global, policy: &Policy) -> StepResult {
        let ids = execute(alloc, self.type_ids(), policy)?.into_ref(alloc)?;
        let columns = execute_each(alloc, self.children(), policy)?;
        let offsets = self.shared_offsets();
        Ok(self.with_parts(ids, offsets, columns).into_array())
    }
}
