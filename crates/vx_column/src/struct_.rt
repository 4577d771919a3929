//! Layout `Struct`: columns side by side, each a field.
ghost use Rattle.std.specs.Prelude.{◌≡◌, None, map, true};
ghost use Rattle.vx_bits.specs.Results.{ok_unless};
ghost use Rattle.vx_types.specs.DType.{type_of};
ghost use Rattle.vx_types.specs.Same.{are_same_types, is_same_type};
ghost use Rattle.vx_types.specs.TypeTree.{are_carried, is_carried, types_of};
ghost use Rattle.vx_model.specs.Columns.{are_long, types_in};
ghost use Rattle.vx_model.specs.Struct.{struct_column, struct_fault};
ghost use Rattle.vx_model.specs.Valid.{is_fitting};
ghost use Rattle.vx_column.specs.StructParts.{struct_parts};
ghost use Rattle.vx_column.specs.Validity.{valid_of};
ghost use Rattle.vx_column.specs.Part.{IsPart};

use crate::array::{Array, ArrayRef, Layout};
use crate::cell::{Cell, FieldsCell, ReadRow};
use crate::columns::Columns;
use crate::validity::Validity;
use std::marker::Model;
use vx_shared::Shared;
use vx_types::{ColumnError, DType, StructFields};

/// A column of structs, of which each field is a column: Vortex's `StructArray`.
#[cycle(array)]
#[derive(Drop)]
pub struct StructArray {
    fields: Columns,
    struct_fields: Shared<StructFields>,
    len: usize,
    validity: Validity,
}

impl Model for StructArray {
    ghost use Rattle.vx_model.specs.Struct.{StructParts, coded_struct};

    ghost Value = { StructParts };

    ghost coded = { coded_struct };

    ghost use Rattle.std.specs.Prelude.{◌+◌, max};
    ghost use Rattle.std.proofs.Common.{arith};
    ghost use Rattle.vx_model.specs.Columns.{columns_depth};
    ghost use Rattle.vx_model.specs.Valid.{valid_size};
    ghost use Rattle.vx_column.specs.StructParts.{struct_parts, IsStruct};

    ghost view = { λ a. struct_parts a.fields a.struct_fields a.len a.validity };

    ghost invariant = { λ a.
        IsStruct (struct_parts a.fields a.struct_fields a.len a.validity) };

    ghost size = { λ p. max (columns_depth p.columns) (valid_size p.valid) + 2 };

    ghost size_decreases = { λ a h. Prim.grind arith };
}

// Whether the column is of this type; its own is one that a column may have.
fn is_of_type(column: &Array, dtype: &DType) -> bool
    ensures same { result ≡ is_same_type column.now.dtype (type_of dtype.now) }
    ensures carried { is_carried column.now.dtype ≡ true }
{
    *column.dtype() == *dtype
}

/// Whether the columns are of these types, one by one, which then are types that columns may have.
#[tactic(auto, using(crate::proofs::Fields::alike))]
pub(crate) fn are_of_types(columns: &[ArrayRef], types: &[DType]) -> bool
    ensures same { result ≡ are_same_types (types_in columns.now) (map type_of types.now) }
    ensures carried { result ≡ true → are_carried (types_of (types_in columns.now)) ≡ true }
{
    if columns.len() != types.len() {
        return false;
    }
    for i in 0..columns.len() {
        if !is_of_type(&columns[i], &types[i]) {
            return false;
        }
    }
    true
}

/// Whether each column has so many rows.
#[tactic(auto, using(crate::proofs::Fields::alike))]
pub(crate) fn are_long(columns: &[ArrayRef], len: usize) -> bool
    ensures { result ≡ are_long len columns.now }
{
    for column in columns {
        if column.len() != len {
            return false;
        }
    }
    true
}

impl StructArray {
    /// A column of `len` rows, each that row of every field. Vortex's `try_new_with_dtype`.
    ///
    /// `WrongType` exactly where the fields aren't of these types, one by one. Else `WrongLength`
    /// exactly where a field hasn't `len` rows. Else `BadValidity` exactly where the validity
    /// can't be that of so many rows.
    #[tactic(auto, using(crate::proofs::Fields::made))]
    pub fn try_new_with_dtype(
        fields: Columns,
        struct_fields: Shared<StructFields>,
        len: usize,
        validity: Validity,
    ) -> Result<StructArray, ColumnError>
        ensures { result ≡ ok_unless (struct_fault (struct_parts fields struct_fields len validity))
            (struct_parts fields struct_fields len validity) }
    {
        if !are_of_types(fields.as_slice(), struct_fields.types()) {
            return Err(ColumnError::WrongType);
        }
        if !are_long(fields.as_slice(), len) {
            return Err(ColumnError::WrongLength);
        }
        if !validity.is_fitting(len) {
            return Err(ColumnError::BadValidity);
        }
        Ok(StructArray {
            fields,
            struct_fields,
            len,
            validity,
        })
    }

    /// Other sound parts of the same type: what a step leaves. It doesn't test what it requires;
    /// `try_new_with_dtype` does.
    pub fn with_parts(&self, fields: Columns, len: usize, validity: Validity) -> StructArray
        requires { struct_fault (record self.now {
          columns = fields;
          len = len;
          valid = valid_of validity;
        }) ≡ None }
        ensures { result
            ≡ record self.now { columns = fields; len = len; valid = valid_of validity } }
    {
        StructArray {
            fields,
            struct_fields: self.struct_fields.share(),
            len,
            validity,
        }
    }

    /// The columns, one a field.
    pub fn fields(&self) -> &Columns
        ensures { IsPart (struct_fault self.now) result.now self.now.columns }
    {
        &self.fields
    }

    /// The names and types of the fields.
    pub fn struct_fields(&self) -> &Shared<StructFields>
        ensures value { result.now ≡ self.now.types }
        ensures valid { struct_fault self.now ≡ None }
        ensures carried { are_carried (types_of self.now.types.types) ≡ true }
    {
        &self.struct_fields
    }

    /// How many rows it has.
    pub fn len(&self) -> usize
        ensures { result ≡ self.now.len }
    {
        self.len
    }

    /// Which rows are valid.
    #[tactic(auto, using(vx_model::proofs::StructSteps::struct_rows))]
    pub fn validity(&self) -> &Validity
        ensures value { valid_of result.now ≡ self.now.valid }
        ensures fitting { is_fitting self.now.valid self.now.len ≡ true }
        ensures valid { struct_fault self.now ≡ None }
    {
        &self.validity
    }

    /// Another handle to the same column.
    pub fn share(&self) -> StructArray
        ensures { result ≡ self.now }
    {
        self.with_parts(self.fields.share(), self.len, self.validity.share())
    }

    /// The column of this layout.
    #[tactic(auto, using(vx_model::proofs::StructSteps::struct_rows))]
    pub fn into_array(self) -> Array
        ensures { result ≡ struct_column self }
    {
        let dtype = DType::Struct(self.struct_fields.share(), self.validity.nullability());
        let len = self.len;
        Array::new(dtype, len, Layout::Struct(self))
    }
}

// Row `i`: that row of each field.
impl ReadRow for StructArray {
    ghost column = { struct_column };

    #[cycle(cell)]
    #[tactic(auto, using(vx_model::proofs::StructSteps::struct_rows, vx_model::proofs::Layouts::absent_nullable, crate::proofs::Cells::there, crate::proofs::Fields::past))]
    fn cell_at(&self, i: usize) -> Cell<'_> {
        let validity = self.validity();
        if validity.is_valid_at(i) {
            let columns = self.fields();
            Cell::Fields(FieldsCell { columns, row: i })
        } else {
            Cell::Null
        }
    }
}
