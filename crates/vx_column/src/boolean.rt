//! Layout `Bool`: a bit a row.
ghost use Rattle.std.specs.Prelude.{◌≡◌, ◌≢◌, ℕ, length, map, slice_index_or, true, IfSome, IsSome, None};
ghost use Rattle.vx_bits.specs.Results.{ok_unless};
ghost use Rattle.vx_types.specs.RowValue.{bit, null};
ghost use Rattle.vx_model.specs.Valid.{is_fitting};
ghost use Rattle.vx_model.specs.Bool.{bool_fault, bool_column, bool_with};
ghost use Rattle.vx_column.specs.Validity.{valid_of};
ghost use Rattle.vx_column.specs.Bool.{bool_parts};
ghost use Rattle.vx_column.specs.Part.{IsPart};
ghost use Rattle.vx_column.specs.Truth.{is_plain_bools, true_bits};

use crate::array::{Array, Layout};
use crate::cell::{Cell, ReadRow};
use crate::validity::Validity;
use std::marker::Model;
use vx_bits::BitBuffer;
use vx_types::{ColumnError, DType};

/// A column of bits: Vortex's `BoolArray`.
#[cycle(array)]
#[derive(Drop)]
pub struct BoolArray {
    bits: BitBuffer,
    validity: Validity,
}

impl Model for BoolArray {
    ghost use Rattle.vx_model.specs.Bool.{BoolParts, coded_bools};

    ghost Value = { BoolParts };

    ghost coded = { coded_bools };

    ghost use Rattle.std.specs.Prelude.{◌≡◌, None};
    ghost use Rattle.std.proofs.Common.{arith};
    ghost use Rattle.vx_model.specs.Valid.{valid_size};
    ghost use Rattle.vx_model.specs.Bool.{bool_fault};
    ghost use Rattle.vx_column.specs.Bool.{bool_parts};

    ghost view = { λ a. bool_parts a.bits a.validity };

    ghost invariant = { λ a. bool_fault (bool_parts a.bits a.validity) ≡ None };

    ghost size = { λ p. valid_size p.valid };

    ghost size_decreases = { λ a h. Prim.grind arith };
}

impl BoolArray {
    /// A column with one row a bit.
    ///
    /// `BadValidity` exactly where the validity can't be that of so many rows.
    pub fn try_new(bits: BitBuffer, validity: Validity) -> Result<BoolArray, ColumnError>
        ensures { result
            ≡ ok_unless (bool_fault (bool_parts bits validity)) (bool_parts bits validity) }
    {
        if !validity.is_fitting(bits.len()) {
            return Err(ColumnError::BadValidity);
        }
        Ok(BoolArray { bits, validity })
    }

    /// Its bits, one a row, null rows too.
    pub fn bits(&self) -> &BitBuffer
        ensures bits { result.now ≡ self.now.bits }
        ensures valid { bool_fault self.now ≡ None }
    {
        &self.bits
    }

    /// Which rows are valid.
    pub fn validity(&self) -> &Validity
        ensures { IsPart (bool_fault self.now) (valid_of result.now) self.now.valid }
    {
        &self.validity
    }

    /// Another handle to the same column.
    pub fn share(&self) -> BoolArray
        ensures { result ≡ self.now }
    {
        BoolArray {
            bits: self.bits.share(),
            validity: self.validity.share(),
        }
    }

    /// A column of bits with a validity that fits: what a step leaves.
    pub fn of(bits: BitBuffer, validity: Validity) -> BoolArray
        requires { is_fitting (valid_of validity) (length bits.bits) ≡ true }
        ensures { result ≡ bool_with bits.bits bits.offset (valid_of validity) }
    {
        BoolArray { bits, validity }
    }

    /// The column of this layout.
    #[tactic(auto, using(vx_model::proofs::Layouts::layout_rows))]
    pub fn into_array(self) -> Array
        ensures { result ≡ bool_column self }
    {
        let dtype = DType::Bool(self.validity.nullability());
        let len = self.bits.len();
        Array::new(dtype, len, Layout::Bool(self))
    }
}

// Row `i`.
impl ReadRow for BoolArray {
    ghost column = { bool_column };

    #[cycle(cell)]
    #[tactic(auto, using(vx_model::proofs::Layouts::layout_rows))]
    fn cell_at(&self, i: usize) -> Cell<'_> {
        if self.validity().is_valid_at(i) {
            Cell::Bit(self.bits().value(i))
        } else {
            Cell::Null
        }
    }
}

impl BoolArray {
    /// The bits of its rows, where the validity isn't an array; none where it is, and where all
    /// rows are null.
    #[tactic(auto, using(crate::proofs::TruthBits::truth, crate::proofs::TruthBits::plain))]
    pub(crate) fn plain_bits(&self) -> Option<&BitBuffer>
        ensures rows { IfSome result (λ b. (bool_column self.now).rows ≡ map bit b.now.bits) }
        ensures yes { IfSome result (λ b. b.now.bits ≡ true_bits (bool_column self.now)) }
        ensures plain { IfSome result (λ _. is_plain_bools (bool_column self.now) ≡ true) }
        ensures exactly { (i : ℕ) → is_plain_bools (bool_column self.now) ≡ true
            → slice_index_or (bool_column self.now).rows i null ≢ null → IsSome result }
    {
        let bits = self.bits();
        match self.validity() {
            Validity::NonNullable | Validity::AllValid => Some(bits),
            Validity::AllInvalid | Validity::Array(_) => None,
        }
    }
}

impl Array {
    /// The bits of its rows, one a row, where the layout is `Bool` and its validity isn't an array;
    /// none where it is, and where all rows are null. It takes no memory.
    #[tactic(auto, using(vx_model::proofs::Layouts::layout_rows))]
    pub fn plain_bits(&self) -> Option<&BitBuffer>
        ensures rows { IfSome result (λ b. self.now.rows ≡ map bit b.now.bits) }
        ensures yes { IfSome result (λ b. b.now.bits ≡ true_bits self.now) }
        ensures plain { IfSome result (λ _. is_plain_bools self.now ≡ true) }
        ensures exactly { (i : ℕ) → is_plain_bools self.now ≡ true
            → slice_index_or self.now.rows i null ≢ null → IsSome result }
    {
        match self.layout() {
            Layout::Bool(a) => a.plain_bits(),
            _ => None,
        }
    }
}
