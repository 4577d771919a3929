//! Layout `Dict`: for each row a code, the number of one of the values.
ghost use Rattle.std.specs.Prelude.{◌≡◌, None};
ghost use Rattle.vx_bits.specs.Results.{ok_unless};
ghost use Rattle.vx_model.specs.Dict.{dict_column, dict_fault, dict_with};
ghost use Rattle.vx_column.specs.Part.{IsPart};

use crate::array::{Array, ArrayRef, Layout};
use crate::cell::{Cell, ReadRow};
use std::marker::Model;
use vx_positions::position;
use vx_types::ColumnError;

/// A column of values that codes name: Vortex's `DictArray`.
#[cycle(array)]
#[derive(Drop)]
pub struct DictArray {
    codes: ArrayRef,
    values: ArrayRef,
}

impl Model for DictArray {
    ghost use Rattle.vx_model.specs.Dict.{DictParts, coded_dict};

    ghost Value = { DictParts };

    ghost coded = { coded_dict };

    ghost use Rattle.std.specs.Prelude.{◌≡◌, None};
    ghost use Rattle.std.proofs.Common.{arith};
    ghost use Rattle.vx_model.specs.Dict.{dict_fault, dict_size};

    ghost view = { λ a. record { codes = a.codes; values = a.values } };

    ghost invariant = { λ a.
        dict_fault (record { codes = a.codes; values = a.values }) ≡ None };

    ghost size = { λ p. dict_size p };

    ghost size_decreases = { λ a h. Prim.grind arith };
}

impl DictArray {
    /// A column with one row a code: the value that it names, or null where the code is null. A
    /// null code's payload isn't looked at.
    ///
    /// `WrongType` exactly where the codes aren't of integer type. Else `CodeOutOfRange` exactly
    /// where a code that isn't null is negative or not below the number of values.
    pub fn try_new(codes: ArrayRef, values: ArrayRef) -> Result<DictArray, ColumnError>
        ensures { result ≡ ok_unless (dict_fault (record { codes = codes; values = values }))
            (record { codes = codes; values = values }) }
    {
        match codes.dtype().int_type() {
            Some(ptype) => if codes.first_bad(ptype, values.len()).is_some() {
                return Err(ColumnError::CodeOutOfRange);
            },
            None => return Err(ColumnError::WrongType),
        }
        Ok(DictArray { codes, values })
    }

    /// The codes, one a row.
    pub fn codes(&self) -> &ArrayRef
        ensures { IsPart (dict_fault self.now) result.now self.now.codes }
    {
        &self.codes
    }

    /// The values that the codes name.
    pub fn values(&self) -> &ArrayRef
        ensures { IsPart (dict_fault self.now) result.now self.now.values }
    {
        &self.values
    }

    /// A dictionary of these values with other codes that name them: what a step leaves. It doesn't
    /// test what it requires; `try_new` does.
    pub fn with_codes(&self, codes: ArrayRef) -> DictArray
        requires { dict_fault (dict_with self.now codes) ≡ None }
        ensures { result ≡ dict_with self.now codes }
    {
        DictArray {
            codes,
            values: self.values.share(),
        }
    }

    /// A dictionary of these codes with other values that they name: what is left where the values
    /// take another form. It doesn't test what it requires; `try_new` does.
    pub fn with_values(&self, values: ArrayRef) -> DictArray
        requires { dict_fault (record { codes = self.now.codes; values = values }) ≡ None }
        ensures { result ≡ record { codes = self.now.codes; values = values } }
    {
        DictArray {
            codes: self.codes.share(),
            values,
        }
    }

    /// Another handle to the same column.
    pub fn share(&self) -> DictArray
        ensures { result ≡ self.now }
    {
        self.with_codes(self.codes.share())
    }

    /// The column of this layout.
    #[tactic(auto, using(vx_model::proofs::LazyRows::lazy_rows))]
    pub fn into_array(self) -> Array
        ensures { result ≡ dict_column self }
    {
        let dtype = self
            .values
            .dtype()
            .also_nullable(self.codes.dtype().nullability());
        let len = self.codes.len();
        Array::new(dtype, len, Layout::Dict(self))
    }
}

// Row `i`: the value that its code names.
impl ReadRow for DictArray {
    ghost column = { dict_column };

    #[cycle(cell)]
    #[tactic(auto, using(vx_model::proofs::LazyRows::lazy_rows, crate::proofs::Cells::dict_cells))]
    fn cell_at(&self, i: usize) -> Cell<'_> {
        let codes = self.codes();
        let values = self.values();
        match codes.cell_at(i).number(codes.dtype()) {
            Some(code) => values.cell_at(position(code, values.len())),
            None => Cell::Null,
        }
    }
}
