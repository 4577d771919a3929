//! What a step leaves of a validity.
ghost use Rattle.std.specs.Prelude.{◌≡◌, ◌≤◌, length, map, true, false, slice_range, IfOk, IsOk};
ghost use Rattle.std.specs.List.{items_where_true};
ghost use Rattle.vx_types.specs.Nullability.{either_nullable};
ghost use Rattle.vx_types.specs.declared.nullability.Nullability.TheVariants.{NonNullable};
ghost use Rattle.vx_take.specs.Picks.{at};
ghost use Rattle.vx_positions.specs.Positions.{AllThere};
ghost use Rattle.vx_model.specs.Valid.{is_yes, is_non_null_bool, is_fitting, is_constant_form, is_flat_cover, is_bool_layout, cover_by, nullability_by, present_bits, IsLeft, IsAsPlain};
ghost use Rattle.vx_model.specs.Plain.{is_unwrapped};
ghost use Rattle.vx_column.specs.Validity.{valid_of};

use crate::executing::execute;
use crate::filtering::filter_values;
use crate::parts::Parts;
use crate::slicing::slice;
use std::alloc::Global;
use vx_bits::{BitBuffer, NoMemory};
use vx_column::{Array, Layout, Nullability, Validity};
use vx_mask::{MaskValues, Policy};
use vx_stored::constant_bits;
use vx_take::{Picks, gather_bits};

/// A layout whose bools the recursion looks up.
pub(crate) trait TakeBits: Parts {
    // The bits of the rows at the picks, as `taken_bits` gives them.
    fn bits(&self, alloc: Global, picks: &Picks, policy: &Policy) -> Result<BitBuffer, NoMemory>
        requires bools { is_non_null_bool (Self.column self.now).dtype ≡ true }
        requires bound { picks.now.bound ≡ length (Self.column self.now).rows }
        ensures { IfOk result
            (λ b. b.bits ≡ at false (map is_yes (Self.column self.now).rows) picks.now.picks) };
}

/// The validity of the rows from `start` up to `end`, of so many rows.
#[cycle(slice)]
pub(crate) fn slice_validity(
    alloc: Global,
    validity: &Validity,
    len: usize,
    start: usize,
    end: usize,
) -> Result<Validity, NoMemory>
    requires fitting { is_fitting (valid_of validity.now) len ≡ true }
    requires ordered { start ≤ end }
    requires within { end ≤ len }
    ensures left { IfOk result (λ v. IsLeft (valid_of validity.now)
        (nullability_by (valid_of validity.now))
        (slice_range (present_bits (valid_of validity.now) len) start end) (valid_of v)) }
    ensures plain { IfOk result (λ v. IsAsPlain (valid_of validity.now) (valid_of v)) }
    ensures constant { is_constant_form (cover_by (valid_of validity.now)) ≡ true → IsOk result }
{
    match validity {
        Validity::NonNullable => Ok(Validity::NonNullable),
        Validity::AllValid => Ok(Validity::AllValid),
        Validity::AllInvalid => Ok(Validity::AllInvalid),
        Validity::Array(array) => Validity::from_column(alloc, slice(alloc, array, start, end)?),
    }
}

/// The validity of the rows at the set positions of a mask that is as long. Fails only with
/// `NoMemory`.
#[cycle(filter)]
pub fn filter_validity(
    alloc: Global,
    validity: &Validity,
    mask: &MaskValues,
    policy: &Policy,
) -> Result<Validity, NoMemory>
    requires { is_fitting (valid_of validity.now) (length mask.now.bits.bits) ≡ true }
    ensures left { IfOk result (λ v. IsLeft (valid_of validity.now)
        (nullability_by (valid_of validity.now))
        (items_where_true mask.now.bits.bits
        (present_bits (valid_of validity.now) (length mask.now.bits.bits)))
        (valid_of v)) }
    ensures plain { IfOk result (λ v. IsAsPlain (valid_of validity.now) (valid_of v)) }
{
    match validity {
        Validity::NonNullable => Ok(Validity::NonNullable),
        Validity::AllValid => Ok(Validity::AllValid),
        Validity::AllInvalid => Ok(Validity::AllInvalid),
        Validity::Array(array) => {
            Validity::from_column(alloc, filter_values(alloc, array, mask, policy)?)
        }
    }
}

/// The bits of a non-nullable column of bools at the picks, and false at a null.
#[cycle(take)]
#[tactic(auto, using(vx_model::proofs::Takes::bool_bits))]
pub(crate) fn taken_bits(
    alloc: Global,
    array: &Array,
    picks: &Picks,
    policy: &Policy,
) -> Result<BitBuffer, NoMemory>
    requires bools { is_non_null_bool array.now.dtype ≡ true }
    requires bound { picks.now.bound ≡ length array.now.rows }
    ensures { IfOk result
        (λ b. b.bits ≡ at false (map is_yes array.now.rows) picks.now.picks) }
{
    match array.layout() {
        Layout::Bool(a) => gather_bits(alloc, a.bits(), picks, false),
        Layout::Constant(a) => constant_bits(alloc, a, picks),
        Layout::Dict(a) => a.bits(alloc, picks, policy),
        Layout::Filter(a) => a.bits(alloc, picks, policy),
        Layout::Null(_)
        | Layout::List(_)
        | Layout::ListView(_)
        | Layout::FixedSizeList(_)
        | Layout::Struct(_)
        | Layout::Union(_)
        | Layout::Extension(_) => unreachable!(),
        Layout::Map(a) => {
            // no map is a bool
            let _ = a.entries();
            unreachable!()
        }
        Layout::VarBin(a) => {
            // no text is a bool
            let _ = a.kind();
            unreachable!()
        }
        Layout::VarBinView(a) => {
            // no text is a bool
            let _ = a.kind();
            unreachable!()
        }
        Layout::Primitive(a) => {
            // no record is a bool
            let _ = a.rows().record_type();
            unreachable!()
        }
        Layout::Decimal(a) => {
            // no record is a bool
            let _ = a.rows().record_type();
            unreachable!()
        }
    }
}

/// The validity of the rows at the picks, where a null pick leaves a null. `nullability` says
/// whether there may be one. It is unwrapped. Fails only with `NoMemory`.
#[cycle(take)]
pub fn take_validity(
    alloc: Global,
    validity: &Validity,
    picks: &Picks,
    nullability: Nullability,
    policy: &Policy,
) -> Result<Validity, NoMemory>
    requires fitting { is_fitting (valid_of validity.now) picks.now.bound ≡ true }
    requires there { nullability ≡ NonNullable → AllThere picks.now.picks }
    ensures left { IfOk result (λ v. IsLeft (valid_of validity.now)
        (either_nullable (nullability_by (valid_of validity.now)) nullability)
        (at false (present_bits (valid_of validity.now) picks.now.bound) picks.now.picks)
        (valid_of v)) }
    ensures flat { IfOk result (λ v. is_flat_cover (cover_by (valid_of v)) ≡ true) }
{
    // each pick is below the bound
    let _ = picks.bound();
    match (validity, nullability) {
        (Validity::AllInvalid, _) => Ok(Validity::AllInvalid),
        (Validity::Array(array), _) => {
            Validity::from_bits(alloc, taken_bits(alloc, array, picks, policy)?)
        }
        (Validity::NonNullable, Nullability::NonNullable) => Ok(Validity::NonNullable),
        (Validity::AllValid, Nullability::NonNullable) => Ok(Validity::AllValid),
        (Validity::NonNullable, Nullability::Nullable) => Validity::by_picks(alloc, picks),
        (Validity::AllValid, Nullability::Nullable) => Validity::by_picks(alloc, picks),
    }
}

// An unwrapped column of bools is one of layout `Bool`. It does no work: its clause is for the
// check.
fn see_bools(array: &Array)
    requires bools { is_non_null_bool array.now.dtype ≡ true }
    requires unwrapped { is_unwrapped array.now ≡ true }
    ensures { is_bool_layout array.now.layout ≡ true }
{
    match array.layout() {
        Layout::Bool(_) => {}
        Layout::Primitive(a) => {
            // no record is a bool
            let _ = a.rows().record_type();
            unreachable!()
        }
        Layout::Decimal(a) => {
            // no record is a bool
            let _ = a.rows().record_type();
            unreachable!()
        }
        _ => unreachable!(),
    }
}

/// The validity, unwrapped: a constant form or an array of layout `Bool`.
#[cycle(execute)]
#[tactic(auto, using(vx_model::proofs::Validities::executed))]
pub(crate) fn execute_validity(
    alloc: Global,
    validity: &Validity,
    len: usize,
    policy: &Policy,
) -> Result<Validity, NoMemory>
    requires fitting { is_fitting (valid_of validity.now) len ≡ true }
    ensures left { IfOk result (λ v. IsLeft (valid_of validity.now)
        (nullability_by (valid_of validity.now)) (present_bits (valid_of validity.now) len)
        (valid_of v)) }
    ensures flat { IfOk result (λ v. is_flat_cover (cover_by (valid_of v)) ≡ true) }
    ensures kept { is_flat_cover (cover_by (valid_of validity.now)) ≡ true → IsOk result }
{
    match validity {
        Validity::Array(array) => match array.layout() {
            Layout::Bool(_) => Ok(Validity::Array(array.share())),
            _ => {
                let bools = execute(alloc, array, policy)?;
                see_bools(&bools);
                Validity::from_column(alloc, bools)
            }
        },
        constant => Ok(constant.share()),
    }
}
