//! Which rows of a column are valid, and which are null.
ghost use Rattle.std.specs.Prelude.{◌≡◌, ℕ, map, true, is_some, IfOk, IfSome};
ghost use Rattle.vx_types.specs.declared.nullability.Nullability.TheVariants.{Nullable};
ghost use Rattle.vx_model.specs.Bool.{bits_column};
ghost use Rattle.vx_model.specs.Valid.{by_column, is_bools, is_fitting, is_present, nullability_by, cover_by, is_constant_form, present_bits};
ghost use Rattle.vx_column.specs.Cell.{HasRow};
ghost use Rattle.vx_column.specs.Validity.{valid_of};

use crate::array::{Array, ArrayRef, Layout};
use crate::boolean::BoolArray;
use crate::cell::Cell;
use std::alloc::Global;
use vx_bits::{BitBuffer, NoMemory};
use vx_take::{Picks, valid_bits};
use vx_types::{DType, Nullability};

/// Which rows of a column are valid: Vortex's `Validity`. The first three are the constant forms.
#[cycle(array)]
#[derive(Drop)]
pub enum Validity {
    /// Every row, and the type has no null.
    NonNullable,
    /// Every row.
    AllValid,
    /// No row.
    AllInvalid,
    /// The rows at which this column of bools is set.
    Array(ArrayRef),
}

impl Validity {
    /// Another handle to the same validity.
    pub fn share(&self) -> Validity
        ensures { result ≡ self.now }
    {
        match self {
            Validity::NonNullable => Validity::NonNullable,
            Validity::AllValid => Validity::AllValid,
            Validity::AllInvalid => Validity::AllInvalid,
            Validity::Array(array) => Validity::Array(array.share()),
        }
    }

    /// The nullability of the type of a column with this validity.
    pub fn nullability(&self) -> Nullability
        ensures { result ≡ nullability_by (valid_of self.now) }
    {
        match self {
            Validity::NonNullable => Nullability::NonNullable,
            Validity::AllValid | Validity::AllInvalid | Validity::Array(_) => Nullability::Nullable,
        }
    }

    /// Whether it can be that of so many rows: of a constant form, or an array that is
    /// non-nullable bool and as long.
    pub fn is_fitting(&self, len: usize) -> bool
        ensures { result ≡ is_fitting (valid_of self.now) len }
    {
        match self {
            Validity::NonNullable | Validity::AllValid | Validity::AllInvalid => true,
            Validity::Array(array) => match array.dtype() {
                DType::Bool(Nullability::NonNullable) => array.len() == len,
                _ => false,
            },
        }
    }

    /// Whether it gives one answer for all rows.
    pub fn is_constant_form(&self) -> bool
        ensures { result ≡ is_constant_form (cover_by (valid_of self.now)) }
    {
        match self {
            Validity::NonNullable | Validity::AllValid | Validity::AllInvalid => true,
            Validity::Array(_) => false,
        }
    }

    /// Whether row `i` isn't null.
    #[cycle(cell)]
    #[tactic(auto, using(crate::proofs::BitRows::bit_rows))]
    pub fn is_valid_at(&self, i: usize) -> bool
        requires { HasRow (valid_of self.now) i }
        ensures { result ≡ is_present (valid_of self.now) i }
    {
        match self {
            Validity::NonNullable | Validity::AllValid => true,
            Validity::AllInvalid => false,
            Validity::Array(array) => match array.plain_bits() {
                Some(bits) => bits.value(i),
                None => match array.cell_at(i) {
                    Cell::Bit(bit) => bit,
                    _ => false,
                },
            },
        }
    }

    /// The bits that say which rows are valid, where it is a column of layout `Bool`.
    #[tactic(auto, using(crate::proofs::ShownBits::shown))]
    pub(crate) fn bits(&self) -> Option<&BitBuffer>
        ensures bits { IfSome result (λ b. (n : ℕ) → is_fitting (valid_of self.now) n ≡ true
            → present_bits (valid_of self.now) n ≡ b.now.bits) }
        ensures nullable { IfSome result (λ _. nullability_by (valid_of self.now) ≡ Nullable) }
        ensures exactly { is_some result ≡ is_bools (cover_by (valid_of self.now)) }
    {
        match self {
            Validity::NonNullable | Validity::AllValid | Validity::AllInvalid => None,
            Validity::Array(array) => match array.layout() {
                Layout::Bool(a) => Some(a.bits()),
                _ => None,
            },
        }
    }

    /// The validity that is this column. Fails only with `NoMemory`.
    pub fn from_column(alloc: Global, column: Array) -> Result<Validity, NoMemory>
        ensures { IfOk result (λ v. valid_of v ≡ by_column column) }
    {
        Ok(Validity::Array(column.into_ref(alloc)?))
    }

    /// The validity that is a column of these bits. Fails only with `NoMemory`.
    pub fn from_bits(alloc: Global, bits: BitBuffer) -> Result<Validity, NoMemory>
        ensures { IfOk result (λ v. valid_of v ≡ by_column (bits_column bits.bits bits.offset)) }
    {
        let column = BoolArray::of(bits, Validity::NonNullable).into_array();
        Validity::from_column(alloc, column)
    }

    /// The validity that says which picks are not null. Fails only with `NoMemory`.
    pub fn by_picks(alloc: Global, picks: &Picks) -> Result<Validity, NoMemory>
        ensures { IfOk result
            (λ v. valid_of v ≡ by_column (bits_column (map is_some picks.now.picks) 0)) }
    {
        Validity::from_bits(alloc, valid_bits(alloc, picks)?)
    }
}
