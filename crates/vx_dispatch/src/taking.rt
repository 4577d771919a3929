//! The rows at picks, over every layout.
ghost use Rattle.std.specs.Prelude.{◌≡◌, length, None, true, IfOk, IsOk};
ghost use Rattle.vx_positions.specs.Positions.{AllThere};
ghost use Rattle.vx_types.specs.declared.nullability.Nullability.TheVariants.{NonNullable};
ghost use Rattle.vx_pieces.specs.Indices.{index_fault, index_nullability, index_picks, index_value};
ghost use Rattle.vx_model.specs.Null.{null_column};
ghost use Rattle.vx_model.specs.Plain.{is_null_layout};
ghost use Rattle.vx_model.specs.Step.{IsTake};

use crate::executing::execute;
use crate::parts::{Parts, StepResult};
use crate::runs::take_by_runs;
use crate::union_::take_variants;
use std::alloc::Global;
use vx_bits::NoMemory;
use vx_column::{Array, Layout, NullArray, Nullability};
use vx_mask::Policy;
use vx_pieces::{Indices, number_picks};
use vx_plain::Stored;
use vx_stored::{take_constant, take_nulls};
use vx_take::Picks;

/// A layout whose rows the recursion takes.
pub(crate) trait TakeRows: Parts {
    // The rows at the picks, as `take_picks` gives them.
    fn take(&self, alloc: Global, picks: Picks, nulls: Nullability, policy: &Policy) -> StepResult
        requires bound { picks.bound ≡ length (Self.column self.now).rows }
        requires there { nulls ≡ NonNullable → AllThere picks.picks }
        ensures { IfOk result (IsTake (Self.column self.now) picks.picks nulls) };
}

/// The rows at the picks, in order, and a null at each null. The type is nullable also where
/// `nullability` is, and no pick is a null where it isn't.
#[cycle(take)]
pub(crate) fn take_picks(
    alloc: Global,
    array: &Array,
    picks: Picks,
    nullability: Nullability,
    policy: &Policy,
) -> Result<Array, NoMemory>
    requires bound { picks.bound ≡ length array.now.rows }
    requires there { nullability ≡ NonNullable → AllThere picks.picks }
    ensures { IfOk result (IsTake array.now picks.picks nullability) }
{
    match array.layout() {
        Layout::Null(a) => Ok(take_nulls(a, &picks, nullability)),
        Layout::Bool(a) => Stored::Bits(a).take(alloc, picks, nullability, policy),
        Layout::Primitive(a) => Stored::Records(a.rows()).take(alloc, picks, nullability, policy),
        Layout::Decimal(a) => Stored::Records(a.rows()).take(alloc, picks, nullability, policy),
        Layout::VarBin(a) => Stored::Texts(a).take(alloc, picks, nullability, policy),
        Layout::VarBinView(a) => { Stored::Views(a).take(alloc, picks, nullability, policy) }
        Layout::List(a) => a.take(alloc, picks, nullability, policy),
        Layout::ListView(a) => a.take(alloc, picks, nullability, policy),
        Layout::FixedSizeList(a) => { a.take(alloc, picks, nullability, policy) }
        Layout::Map(a) => a.take(alloc, picks, nullability, policy),
        Layout::Struct(a) => a.take(alloc, picks, nullability, policy),
        Layout::Union(a) => {
            Ok(take_variants(alloc, a, &picks, nullability, policy)?.into_array())
        }
        Layout::Extension(a) => a.take(alloc, picks, nullability, policy),
        Layout::Constant(a) => take_constant(alloc, a, &picks, nullability),
        Layout::Dict(a) => a.take(alloc, picks, nullability, policy),
        Layout::Filter(a) => a.take(alloc, picks, nullability, policy),
    }
}

/// The rows that indices name, in order, and a null for each null. Fails only with `NoMemory`, and
/// never over layout `Null`. The type is nullable also where the indices' type is.
///
/// A take of lists that would make more elements than twice those that there are, and more than 4
/// GiB of picks of theirs and of rows, gives `NoMemory`: a pick is 8 bytes, a row a record, or 24
/// bytes where it is none.
pub fn take(
    alloc: Global,
    array: &Array,
    indices: &Indices,
    policy: &Policy,
) -> Result<Array, NoMemory>
    requires { index_fault (index_value indices.now) (length array.now.rows) ≡ None }
    ensures taken { IfOk result (IsTake array.now (index_picks (index_value indices.now))
        (index_nullability (index_value indices.now))) }
    ensures null { is_null_layout array.now.layout ≡ true → IsOk result }
{
    match array.layout() {
        Layout::Null(a) => Ok(nulls_for(a, indices)),
        _ => match take_by_runs(alloc, array, indices)? {
            Some(taken) => Ok(taken),
            None => take_by_picks(alloc, array, indices, policy),
        },
    }
}

// A null for each of the indices, whatever they name.
fn nulls_for(array: &NullArray, indices: &Indices) -> Array
    requires { index_fault (index_value indices.now) (length (null_column array.now).rows) ≡ None }
    ensures { IsTake (null_column array.now) (index_picks (index_value indices.now))
        (index_nullability (index_value indices.now)) result }
{
    // Only the contract speaks of it.
    let _ = array;
    NullArray::new(indices.len()).into_array()
}

// The positions that the indices name. A column of them is unwrapped first, so that no row of a
// lazy one is looked up by its rank.
#[tactic(auto, using(crate::proofs::Codes::indices))]
fn picks_for(
    alloc: Global,
    indices: &Indices,
    len: usize,
    policy: &Policy,
) -> Result<Picks, NoMemory>
    requires { index_fault (index_value indices.now) len ≡ None }
    ensures picks { IfOk result
        (λ p. p ≡ record { picks = index_picks (index_value indices.now); bound = len }) }
    ensures there { IfOk result
        (λ p. index_nullability (index_value indices.now) ≡ NonNullable → AllThere p.picks) }
{
    match indices {
        Indices::Array(flat) => {
            let column = execute(alloc, flat.array(), policy)?;
            number_picks(alloc, &column, len)
        }
        Indices::Pieces(_) => indices.picks(alloc, len),
    }
}

// The rows at the indices, from one index to the next, over every layout.
fn take_by_picks(
    alloc: Global,
    array: &Array,
    indices: &Indices,
    policy: &Policy,
) -> Result<Array, NoMemory>
    requires { index_fault (index_value indices.now) (length array.now.rows) ≡ None }
    ensures { IfOk result (IsTake array.now (index_picks (index_value indices.now))
        (index_nullability (index_value indices.now))) }
{
    let picks = picks_for(alloc, indices, array.len(), policy)?;
    take_picks(alloc, array, picks, indices.nullability(), policy)
}
