//! Layout `VarBin`: texts that stand one after another, cut by offsets.
ghost use Rattle.std.specs.Prelude.{◌≡◌, ◌<◌, None, [], length, slice_index_or, true};
ghost use Rattle.vx_bits.specs.Results.{ok_unless};
ghost use Rattle.vx_offsets.specs.Offsets.{are_offsets, offset_positions};
ghost use Rattle.vx_model.specs.Numbers.{integer_by, integers_of};
ghost use Rattle.vx_model.specs.Valid.{is_fitting};
ghost use Rattle.vx_model.specs.VarBin.{are_integers, row_count, varbin_column, varbin_fault, varbin_texts};
ghost use Rattle.vx_column.specs.Text.{varbin_parts};
ghost use Rattle.vx_column.specs.Validity.{valid_of};
ghost use Rattle.vx_column.specs.Part.{IsPart};

use crate::array::{Array, Layout};
use crate::cell::{Cell, ReadRow};
use crate::offsets::{are_integers, cuts_list, position_at, row_count};
use crate::primitive::PrimitiveArray;
use crate::validity::Validity;
use std::marker::Model;
use vx_bits::Buffer;
use vx_types::{ColumnError, TextKind};

/// A column of texts in one list of bytes, each from its offset up to the next: Vortex's
/// `VarBinArray`.
#[cycle(array)]
#[derive(Drop)]
pub struct VarBinArray {
    kind: TextKind,
    offsets: PrimitiveArray,
    bytes: Buffer<u8>,
    validity: Validity,
}

impl Model for VarBinArray {
    ghost use Rattle.vx_model.specs.VarBin.{VarBinParts, coded_varbin};

    ghost Value = { VarBinParts };

    ghost coded = { coded_varbin };

    ghost use Rattle.std.specs.Prelude.{◌≡◌, ◌+◌, None};
    ghost use Rattle.std.proofs.Common.{arith};
    ghost use Rattle.vx_model.specs.Valid.{valid_size};
    ghost use Rattle.vx_model.specs.VarBin.{varbin_fault};
    ghost use Rattle.vx_column.specs.Text.{varbin_parts};

    ghost view = { λ a. varbin_parts a.kind a.offsets a.bytes a.validity };

    ghost invariant = { λ a.
        varbin_fault (varbin_parts a.kind a.offsets a.bytes a.validity) ≡ None };

    ghost size = { λ p. valid_size p.valid + 2 };

    ghost size_decreases = { λ a h. Prim.grind arith };
}

impl VarBinArray {
    /// A column with one row fewer than offsets: the bytes from each offset up to the next.
    ///
    /// `WrongType` exactly where the offsets aren't a non-nullable column of integers. Else
    /// `BadValidity` exactly where the validity can't be that of so many rows. Else `BadOffsets`
    /// exactly where there is no offset, or one is negative, below the one before, or past the
    /// bytes.
    pub fn try_new(
        kind: TextKind,
        offsets: PrimitiveArray,
        bytes: Buffer<u8>,
        validity: Validity,
    ) -> Result<VarBinArray, ColumnError>
        ensures { result ≡ ok_unless (varbin_fault (varbin_parts kind offsets bytes validity))
            (varbin_parts kind offsets bytes validity) }
    {
        if !are_integers(&offsets) {
            return Err(ColumnError::WrongType);
        }
        if !validity.is_fitting(row_count(&offsets)) {
            return Err(ColumnError::BadValidity);
        }
        if !cuts_list(&offsets, bytes.len()) {
            return Err(ColumnError::BadOffsets);
        }
        Ok(VarBinArray::of(kind, offsets, bytes, validity))
    }

    /// A column of sound parts: what a step leaves. It doesn't test what it requires; `try_new`
    /// does.
    pub fn of(
        kind: TextKind,
        offsets: PrimitiveArray,
        bytes: Buffer<u8>,
        validity: Validity,
    ) -> VarBinArray
        requires { varbin_fault (varbin_parts kind offsets bytes validity) ≡ None }
        ensures { result ≡ varbin_parts kind offsets bytes validity }
    {
        VarBinArray {
            kind,
            offsets,
            bytes,
            validity,
        }
    }

    /// What its rows are.
    pub fn kind(&self) -> TextKind
        ensures { result ≡ self.now.kind }
    {
        self.kind
    }

    /// Where each text begins, and where the last ends.
    pub fn offsets(&self) -> &PrimitiveArray
        ensures { IsPart (varbin_fault self.now) result.now self.now.offsets }
    {
        &self.offsets
    }

    /// The bytes of all texts.
    pub fn bytes(&self) -> &Buffer<u8>
        ensures { IsPart (varbin_fault self.now) result.now self.now.bytes }
    {
        &self.bytes
    }

    /// Which rows are valid.
    pub fn validity(&self) -> &Validity
        ensures { IsPart (varbin_fault self.now) (valid_of result.now) self.now.valid }
    {
        &self.validity
    }

    /// How many rows it has.
    #[tactic(auto, using(vx_model::proofs::Texts::varbin_rows))]
    pub(crate) fn rows(&self) -> usize
        ensures { result ≡ length (varbin_texts self.now).texts }
    {
        row_count(&self.offsets)
    }

    // Where the text of row `i` begins, and the one before it ends.
    #[tactic(auto, using(vx_model::proofs::Texts::varbin_offsets))]
    fn offset_at(&self, i: usize) -> usize
        requires { i < length self.now.offsets.records }
        ensures { result ≡ slice_index_or (offset_positions (integers_of self.now.offsets)) i 0 }
    {
        position_at(&self.offsets, i, self.bytes().len())
    }

    /// Where the last text ends.
    #[tactic(auto, using(vx_model::proofs::Texts::some_offset))]
    pub fn last_offset(&self) -> usize
        ensures { result ≡ slice_index_or (offset_positions (integers_of self.now.offsets))
            (row_count self.now.offsets) 0 }
    {
        // there is an offset
        let _ = self.bytes();
        self.offset_at(row_count(&self.offsets))
    }

    /// The stored bytes of row `i`, of a null row too.
    #[tactic(auto, using(vx_model::proofs::Texts::varbin_offsets))]
    pub fn text_at(&self, i: usize) -> &[u8]
        requires { i < length (varbin_texts self.now).texts }
        ensures { result.now ≡ slice_index_or (varbin_texts self.now).texts i [] }
    {
        let bytes = self.bytes().as_slice();
        // row `i` has an offset behind it
        let _ = self.rows();
        &bytes[self.offset_at(i)..self.offset_at(i + 1)]
    }

    /// The column's texts with another validity: what a step leaves.
    #[tactic(auto, using(vx_model::proofs::Texts::other_valid))]
    pub fn with_validity(&self, validity: Validity) -> VarBinArray
        requires { is_fitting (valid_of validity) (length (varbin_texts self.now).texts) ≡ true }
        ensures { result ≡ record self.now { valid = valid_of validity } }
    {
        // its offsets are sound
        let _ = self.bytes();
        VarBinArray {
            kind: self.kind,
            offsets: self.offsets.share(),
            bytes: self.bytes.share(),
            validity,
        }
    }

    /// Another handle to the same column.
    pub fn share(&self) -> VarBinArray
        ensures { result ≡ self.now }
    {
        VarBinArray::of(
            self.kind,
            self.offsets.share(),
            self.bytes.share(),
            self.validity.share(),
        )
    }

    /// The column of this layout.
    #[tactic(auto, using(vx_model::proofs::Texts::varbin_rows))]
    pub fn into_array(self) -> Array
        ensures { result ≡ varbin_column self }
    {
        let dtype = self.kind.dtype(self.validity.nullability());
        let len = row_count(&self.offsets);
        Array::new(dtype, len, Layout::VarBin(self))
    }
}

// Row `i`.
impl ReadRow for VarBinArray {
    ghost column = { varbin_column };

    #[cycle(cell)]
    #[tactic(auto, using(vx_model::proofs::Texts::varbin_rows, vx_model::proofs::Layouts::absent_nullable, crate::proofs::Cells::there))]
    fn cell_at(&self, i: usize) -> Cell<'_> {
        // the validity fits the rows
        let _ = self.bytes();
        if self.validity().is_valid_at(i) {
            Cell::Bytes(self.text_at(i))
        } else {
            Cell::Null
        }
    }
}
