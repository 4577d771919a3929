//! Layouts `Primitive` and `Decimal`, which store a record a row: Vortex's `FixedWidthArray`.
ghost use Rattle.std.specs.Prelude.{◌≡◌, length, true, false, None, Some, is_some, option_map, IfSome};
ghost use Rattle.vx_bits.specs.Results.{ok_unless};
ghost use Rattle.vx_bits.specs.Records.{records_of, width_of};
ghost use Rattle.vx_types.specs.DType.{type_of};
ghost use Rattle.vx_types.specs.Decimal.{is_width};
ghost use Rattle.vx_types.specs.TypeTree.{is_bool_kind, kind_width, type_width};
ghost use Rattle.vx_model.specs.Valid.{is_bools, is_fitting};
ghost use Rattle.vx_model.specs.Records.{records_fault, records_column, records_with};
ghost use Rattle.vx_column.specs.Plain.{HasRecords};
ghost use Rattle.vx_column.specs.Records.{record_parts};
ghost use Rattle.vx_types.specs.RecordType.{kind_of};
ghost use Rattle.vx_column.specs.Shown.{AreShownRowsOf};
ghost use Rattle.vx_column.specs.Validity.{valid_of};
ghost use Rattle.vx_column.specs.Part.{IsPart};

use crate::array::{Array, Layout};
use crate::cell::{Cell, ReadRow};
use crate::decimal::DecimalArray;
use crate::primitive::PrimitiveArray;
use crate::validity::Validity;
use std::marker::Model;
use vx_bits::{BitBuffer, Records};
use vx_types::{ColumnError, RecordType};

/// The column of these records, as nullable as the validity.
pub fn record_column(record_type: RecordType, values: Records, validity: Validity) -> Array
    requires width { kind_width (kind_of record_type) ≡ Some (width_of values) }
    requires fitting { is_fitting (valid_of validity) (length (records_of values)) ≡ true }
    ensures { result ≡ records_column (record_parts record_type values validity) }
{
    RecordArray::of(record_type, values, validity).into_array()
}

/// A column of records of a number: what a [`PrimitiveArray`] and a [`DecimalArray`] have in
/// common.
#[cycle(array)]
#[derive(Drop)]
pub struct RecordArray {
    record_type: RecordType,
    values: Records,
    validity: Validity,
}

impl Model for RecordArray {
    ghost use Rattle.vx_model.specs.Records.{RecordParts, coded_records};

    ghost Value = { RecordParts };

    ghost coded = { coded_records };

    ghost use Rattle.std.specs.Prelude.{◌≡◌, None};
    ghost use Rattle.std.proofs.Common.{arith};
    ghost use Rattle.vx_model.specs.Valid.{valid_size};
    ghost use Rattle.vx_model.specs.Records.{records_fault};
    ghost use Rattle.vx_column.specs.Records.{record_parts};

    ghost view = { λ a. record_parts a.record_type a.values a.validity };

    ghost invariant = { λ a.
        records_fault (record_parts a.record_type a.values a.validity) ≡ None };

    ghost size = { λ p. valid_size p.valid };

    ghost size_decreases = { λ a h. Prim.grind arith };
}

impl RecordArray {
    /// A column with one row a record.
    ///
    /// `WrongWidth` exactly where the records aren't as wide as the type. Else `BadValidity`
    /// exactly where the validity can't be that of so many rows.
    pub fn try_new(
        record_type: RecordType,
        values: Records,
        validity: Validity,
    ) -> Result<RecordArray, ColumnError>
        ensures { result ≡ ok_unless (records_fault (record_parts record_type values validity))
            (record_parts record_type values validity) }
    {
        if record_type.width() != values.width() {
            return Err(ColumnError::WrongWidth);
        }
        if !validity.is_fitting(values.len()) {
            return Err(ColumnError::BadValidity);
        }
        Ok(RecordArray {
            record_type,
            values,
            validity,
        })
    }

    /// A column of records as wide as their type, with a validity that fits: what a step leaves.
    pub fn of(record_type: RecordType, values: Records, validity: Validity) -> RecordArray
        requires width { kind_width (kind_of record_type) ≡ Some (width_of values) }
        requires fitting { is_fitting (valid_of validity) (length (records_of values)) ≡ true }
        ensures { result ≡ record_parts record_type values validity }
    {
        RecordArray {
            record_type,
            values,
            validity,
        }
    }

    /// The type of its records.
    pub fn record_type(&self) -> RecordType
        ensures kind { kind_of result ≡ self.now.kind }
        ensures number { is_bool_kind self.now.kind ≡ false }
    {
        // a record is of a primitive or a decimal type
        let _ = self.record_type.width();
        self.record_type
    }

    /// Its records, one a row, null rows too.
    pub fn values(&self) -> &Records
        ensures records { records_of result.now ≡ self.now.records }
        ensures width { width_of result.now ≡ self.now.width }
        ensures valid { records_fault self.now ≡ None }
    {
        &self.values
    }

    /// Which rows are valid.
    pub fn validity(&self) -> &Validity
        ensures { IsPart (records_fault self.now) (valid_of result.now) self.now.valid }
    {
        &self.validity
    }

    /// A column of this type with other records and another validity: what a step leaves.
    pub fn with_rows(&self, values: Records, validity: Validity) -> RecordArray
        requires width { width_of values ≡ self.now.width }
        requires fitting { is_fitting (valid_of validity) (length (records_of values)) ≡ true }
        ensures { result ≡ records_with self.now (records_of values) (valid_of validity) }
    {
        RecordArray::of(self.record_type, values, validity)
    }

    /// Another handle to the same column.
    pub fn share(&self) -> RecordArray
        ensures { result ≡ self.now }
    {
        RecordArray {
            record_type: self.record_type,
            values: self.values.share(),
            validity: self.validity.share(),
        }
    }

    /// The column of the layout of its type.
    #[tactic(auto, using(vx_model::proofs::Layouts::layout_rows))]
    pub fn into_array(self) -> Array
        ensures { result ≡ records_column self }
    {
        let dtype = self.record_type.dtype(self.validity.nullability());
        let len = self.values.len();
        match self.record_type {
            RecordType::Primitive(_) => {
                Array::new(dtype, len, Layout::Primitive(PrimitiveArray::of(self)))
            }
            RecordType::Decimal(_) => {
                Array::new(dtype, len, Layout::Decimal(DecimalArray::of(self)))
            }
        }
    }

    /// The records of its rows, where no row is null by a constant form.
    #[tactic(auto, using(vx_model::proofs::Layouts::present_rows))]
    pub(crate) fn plain_records(&self) -> Option<&Records>
        ensures { HasRecords (records_column self.now) (option_map (λ r. r.now) result) }
    {
        match self.validity() {
            Validity::NonNullable | Validity::AllValid => Some(self.values()),
            Validity::AllInvalid | Validity::Array(_) => None,
        }
    }

    /// The records of its rows, and the bits that say which are there, where the validity is a
    /// column of layout `Bool`.
    #[tactic(auto, using(crate::proofs::ShownBits::shown))]
    pub(crate) fn shown_records(&self) -> Option<(&Records, &BitBuffer)>
        ensures rows { IfSome result
            (λ p. AreShownRowsOf (records_column self.now) p.0.now p.1.now) }
        ensures exactly { is_some result ≡ is_bools (records_column self.now).cover }
    {
        match self.validity().bits() {
            Some(bits) => Some((self.values(), bits)),
            None => None,
        }
    }
}

// Row `i`.
impl ReadRow for RecordArray {
    ghost column = { records_column };

    #[cycle(cell)]
    #[tactic(auto, using(vx_model::proofs::Layouts::layout_rows))]
    fn cell_at(&self, i: usize) -> Cell<'_> {
        if self.validity().is_valid_at(i) {
            Cell::Bytes(self.values().record_bytes(i))
        } else {
            Cell::Null
        }
    }
}
