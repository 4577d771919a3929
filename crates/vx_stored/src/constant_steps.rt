//! Layout `Constant`: what a step leaves of one value for every row.
ghost use Rattle.std.specs.Prelude.{◌≡◌, ◌≤◌, ℕ, length, map, replicate, true, false, IfOk, IfSome};
ghost use Rattle.std.specs.List.{items_where_true};
ghost use Rattle.vx_positions.specs.Positions.{AllThere};
ghost use Rattle.vx_types.specs.declared.nullability.Nullability.TheVariants.{NonNullable};
ghost use Rattle.vx_model.specs.Constant.{constant_column};
ghost use Rattle.vx_take.specs.Picks.{at};
ghost use Rattle.vx_model.specs.Plain.{is_lazy_layout, is_unwrapped};
ghost use Rattle.vx_model.specs.Valid.{is_yes, all_invalid, cover_by, is_fitting, is_flat_cover, nullability_by, present_bits, shown_rows};
ghost use Rattle.vx_types.specs.RowValue.{null, is_null};
ghost use Rattle.vx_types.specs.Nullability.{is_nullable};
ghost use Rattle.vx_types.specs.Scalar.{is_text_kind};
ghost use Rattle.vx_types.specs.TypeTree.{is_flat, with_nullability};
ghost use Rattle.vx_column.specs.Validity.{valid_of};
ghost use Rattle.vx_stored.specs.Scalars.{text_layout};
ghost use Rattle.vx_stored.specs.Texts.{copies_column, HasWideOffsets};
ghost use Rattle.vx_model.specs.Step.{IsSlice, IsCut, IsStep, IsTake};

use crate::constant::store_scalar;
use crate::texts::{TextCopies, store_texts};
use std::alloc::Global;
use vx_bits::{BitBuffer, BitBuilder, NoMemory};
use vx_column::{Array, ConstantArray, Nullability, Scalar, ScalarValue, Validity};
use vx_mask::MaskValues;
use vx_take::{Picks, valid_bits};

/// The rows from `start` up to `end`.
#[tactic(auto, using(vx_model::proofs::LazyRows::lazy_rows))]
pub fn slice_constant(array: &ConstantArray, start: usize, end: usize) -> Array
    requires ordered { start ≤ end }
    requires within { end ≤ length (constant_column array.now).rows }
    ensures { IsSlice (constant_column array.now) start end result }
{
    ConstantArray::new(array.scalar().share(), end - start).into_array()
}

/// The rows at the set positions of `mask`.
#[tactic(auto, using(vx_model::proofs::LazyRows::lazy_rows))]
pub fn filter_constant(array: &ConstantArray, mask: &MaskValues) -> Array
    requires { length mask.now.bits.bits ≡ length (constant_column array.now).rows }
    ensures { IsCut (constant_column array.now)
        (items_where_true mask.now.bits.bits (constant_column array.now).rows) result }
{
    ConstantArray::new(array.scalar().share(), mask.true_count()).into_array()
}

// Whether the value is a null, which is one of a nullable type.
#[tactic(auto, using(vx_model::proofs::ConstantRows::nulls))]
fn is_null(scalar: &Scalar) -> bool
    ensures value { result ≡ is_null scalar.now.row }
    ensures nullable { result ≡ true → is_nullable scalar.now.dtype.nullability ≡ true }
{
    match scalar.value() {
        ScalarValue::Null => true,
        ScalarValue::Bit(_) | ScalarValue::Bytes(_) => false,
    }
}

/// The rows at the picks: a null stays null at any of them, and a value stays itself where all are
/// there; else the value is stored for each pick, beside which of them are there. Fails only with
/// `NoMemory`.
#[tactic(auto, using(vx_model::proofs::LazyRows::lazy_rows))]
pub fn take_constant(
    alloc: Global,
    array: &ConstantArray,
    picks: &Picks,
    nullability: Nullability,
) -> Result<Array, NoMemory>
    requires bound { picks.now.bound ≡ length (constant_column array.now).rows }
    requires there { nullability ≡ NonNullable → AllThere picks.now.picks }
    ensures { IfOk result (IsTake (constant_column array.now) picks.now.picks nullability) }
{
    // each pick is below the bound
    let _ = picks.bound();
    let scalar = array.scalar();
    let len = picks.len();
    if is_null(scalar) {
        return Ok(ConstantArray::new(scalar.share(), len).into_array());
    }
    match nullability {
        Nullability::NonNullable => Ok(ConstantArray::new(scalar.share(), len).into_array()),
        Nullability::Nullable => {
            let validity = Validity::by_picks(alloc, picks)?;
            store_scalar(alloc, scalar, len, validity)
        }
    }
}

// Whether the value is a bool that is set.
fn is_set(scalar: &Scalar) -> bool
    ensures { result ≡ is_yes scalar.now.row }
{
    match scalar.value() {
        ScalarValue::Bit(bit) => *bit,
        ScalarValue::Null | ScalarValue::Bytes(_) => false,
    }
}

/// The bits of the rows at the picks, of one bool: where picks are there, or none. Fails only with
/// `NoMemory`.
#[tactic(auto, using(vx_model::proofs::LazyRows::lazy_rows))]
pub fn constant_bits(
    alloc: Global,
    array: &ConstantArray,
    picks: &Picks,
) -> Result<BitBuffer, NoMemory>
    requires { picks.now.bound ≡ length (constant_column array.now).rows }
    ensures { IfOk result
        (λ b. b.bits ≡ at false (map is_yes (constant_column array.now).rows) picks.now.picks) }
{
    // each pick is below the bound
    let _ = picks.bound();
    if is_set(array.scalar()) {
        return valid_bits(alloc, picks);
    }
    let mut clear = BitBuilder::new(alloc);
    clear.append_n(false, picks.len())?;
    clear.finish()
}

// The validity of a column that stores the value for every row.
#[tactic(auto, using(vx_model::proofs::ConstantRows::nulls))]
fn validity_for(scalar: &Scalar) -> Validity
    ensures fitting { (n : ℕ) → is_fitting (valid_of result) n ≡ true }
    ensures null { scalar.now.row ≡ null → valid_of result ≡ all_invalid }
    ensures shown { (n : ℕ) → shown_rows (present_bits (valid_of result) n)
        (replicate n scalar.now.row) ≡ replicate n scalar.now.row }
    ensures nullability { with_nullability scalar.now.dtype (nullability_by (valid_of result))
        ≡ scalar.now.dtype }
    ensures flat { is_flat_cover (cover_by (valid_of result)) ≡ true }
{
    if is_null(scalar) {
        return Validity::AllInvalid;
    }
    match scalar.dtype().nullability() {
        Nullability::NonNullable => Validity::NonNullable,
        Nullability::Nullable => Validity::AllValid,
    }
}

/// The rows of a constant text, stored one after another: views of it, where its length fits a
/// view, else texts with offsets of type `U64`. Fails only with `NoMemory`.
#[tactic(auto, using(vx_model::proofs::LazyRows::lazy_rows))]
pub fn execute_texts(alloc: Global, array: &ConstantArray) -> Result<TextCopies, NoMemory>
    requires { is_text_kind (constant_column array.now).dtype.kind ≡ true }
    ensures same { IfOk result (λ t. IsStep (constant_column array.now)
        (constant_column array.now).rows (constant_column array.now).dtype (copies_column t)) }
    ensures layout { IfOk result
        (λ t. (copies_column t).layout ≡ text_layout array.now.scalar.row) }
    ensures offsets { IfOk result HasWideOffsets }
{
    let scalar = array.scalar();
    store_texts(alloc, scalar, array.len(), validity_for(scalar))
}

/// The rows of a constant, stored one after another. Fails only with `NoMemory`.
#[tactic(auto, using(vx_model::proofs::LazyRows::lazy_rows))]
pub fn execute_constant(alloc: Global, array: &ConstantArray) -> Result<Array, NoMemory>
    ensures same { IfOk result (IsStep (constant_column array.now) (constant_column array.now).rows
        (constant_column array.now).dtype) }
    ensures unwrapped { is_flat (constant_column array.now).dtype ≡ true
        → IfOk result (λ a. is_unwrapped a ≡ true) }
    ensures direct { IfOk result (λ a. is_lazy_layout a.layout ≡ false) }
    ensures texts { IfSome (constant_column array.now).constant
        (λ x. is_text_kind (constant_column array.now).dtype.kind ≡ true
        → IfOk result (λ a. a.layout ≡ text_layout x)) }
{
    let scalar = array.scalar();
    store_scalar(alloc, scalar, array.len(), validity_for(scalar))
}
