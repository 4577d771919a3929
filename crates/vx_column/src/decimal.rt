//! Layout `Decimal`: a record of a decimal number a row.
ghost use Rattle.std.specs.Prelude.{◌≡◌, true, None};
ghost use Rattle.vx_bits.specs.Results.{ok_unless};
ghost use Rattle.vx_bits.specs.Records.{records_of, width_of};
ghost use Rattle.vx_types.specs.TypeTree.{decimal_kind, is_decimal_kind};
ghost use Rattle.vx_model.specs.Records.{records_fault, records_column};
ghost use Rattle.vx_column.specs.Records.{record_parts};
ghost use Rattle.vx_column.specs.Validity.{valid_of};
ghost use Rattle.vx_column.specs.Part.{IsPart};
ghost use Rattle.vx_types.specs.declared.record_type.RecordType.TheVariants.{Decimal};

use crate::array::Array;
use crate::records::RecordArray;
use crate::validity::Validity;
use std::marker::Model;
use vx_bits::Records;
use vx_types::{ColumnError, DecimalDType, RecordType};

/// A column of records of a decimal type: Vortex's `DecimalArray`.
#[cycle(array)]
#[derive(Drop)]
pub struct DecimalArray {
    rows: RecordArray,
}

impl Model for DecimalArray {
    ghost use Rattle.vx_model.specs.Records.{RecordParts, coded_records};

    ghost Value = { RecordParts };

    ghost coded = { coded_records };

    ghost use Rattle.std.specs.Prelude.{◌≡◌, ◌+◌, true};
    ghost use Rattle.std.proofs.Common.{arith};
    ghost use Rattle.vx_types.specs.TypeTree.{is_decimal_kind};
    ghost use Rattle.vx_model.specs.Valid.{valid_size};

    ghost view = { λ a. a.rows };

    ghost invariant = { λ a. is_decimal_kind a.rows.kind ≡ true };

    ghost size = { λ p. valid_size p.valid + 1 };

    ghost size_decreases = { λ a h. Prim.grind arith };
}

impl DecimalArray {
    /// A column with one row a record.
    ///
    /// `WrongWidth` exactly where the records aren't as wide as the type. Else `BadValidity`
    /// exactly where the validity can't be that of so many rows.
    pub fn try_new(
        decimal: DecimalDType,
        values: Records,
        validity: Validity,
    ) -> Result<DecimalArray, ColumnError>
        ensures { result
            ≡ ok_unless (records_fault (record_parts (RecordType.Decimal decimal) values validity))
            (record_parts (RecordType.Decimal decimal) values validity) }
    {
        let rows = RecordArray::try_new(RecordType::Decimal(decimal), values, validity)?;
        Ok(DecimalArray { rows })
    }

    /// The column of these rows.
    pub(crate) fn of(rows: RecordArray) -> DecimalArray
        requires { is_decimal_kind rows.kind ≡ true }
        ensures { result ≡ rows }
    {
        DecimalArray { rows }
    }

    /// The type of its records.
    pub fn decimal(&self) -> DecimalDType
        ensures { decimal_kind result.precision result.scale result.width ≡ self.now.kind }
    {
        match self.rows.record_type() {
            RecordType::Decimal(decimal) => decimal,
            RecordType::Primitive(_) => unreachable!(),
        }
    }

    /// Its rows, as those of either layout of records.
    pub fn rows(&self) -> &RecordArray
        ensures value { result.now ≡ self.now }
        ensures kind { is_decimal_kind self.now.kind ≡ true }
    {
        &self.rows
    }

    /// Its records, one a row, null rows too.
    pub fn values(&self) -> &Records
        ensures records { records_of result.now ≡ self.now.records }
        ensures width { width_of result.now ≡ self.now.width }
        ensures valid { records_fault self.now ≡ None }
    {
        self.rows.values()
    }

    /// Which rows are valid.
    pub fn validity(&self) -> &Validity
        ensures { IsPart (records_fault self.now) (valid_of result.now) self.now.valid }
    {
        self.rows.validity()
    }

    /// Another handle to the same column.
    pub fn share(&self) -> DecimalArray
        ensures { result ≡ self.now }
    {
        DecimalArray {
            rows: self.rows.share(),
        }
    }

    /// The column of this layout.
    pub fn into_array(self) -> Array
        ensures { result ≡ records_column self }
    {
        let DecimalArray { rows } = self;
        rows.into_array()
    }
}
