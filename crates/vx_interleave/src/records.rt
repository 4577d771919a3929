//! Rows of records, gathered.
ghost use Rattle.std.specs.Prelude.{◌≡◌, IfOk, Some, map, true, false};
ghost use Rattle.vx_bits.specs.Records.{records_of, width_of};
ghost use Rattle.vx_types.specs.Decimal.{is_width};
ghost use Rattle.vx_types.specs.RowValue.{bytes};
ghost use Rattle.vx_types.specs.TypeTree.{kind_width};
ghost use Rattle.vx_column.specs.Cell.{row_of};
ghost use Rattle.vx_types.specs.RecordType.{kind_of};
ghost use Rattle.vx_interleave.specs.Rows.{AreCellsOf, IsCellOf, rows_in, shown_as, stored_as};
ghost use Rattle.vx_model.specs.Plain.{is_lazy_layout, is_unwrapped};

use crate::validity::validity_of;
use std::alloc::Global;
use vx_bits::{Buffer, NoMemory, Records};
use vx_column::{Array, Cell, Nullability, RecordType, record_column};

// The bytes of a row, of which there are W, and zeros in place of a null.
#[inline(always)]
fn record_at<const W: usize>(record_type: &RecordType, cell: Cell<'_>) -> [u8; W]
    requires of_kind { IsCellOf (kind_of record_type.now) cell }
    requires width { kind_width (kind_of record_type.now) ≡ Some W }
    ensures { bytes result ≡ stored_as (kind_of record_type.now) (row_of cell.entry) }
{
    // only the contract speaks of it
    let _ = record_type;
    let mut record = [0; W];
    match cell {
        Cell::Null => {}
        Cell::Bytes(bytes) => record.copy_from_slice(bytes),
        _ => unreachable!(),
    }
    record
}

// The bytes of the rows.
fn record_list<const W: usize>(
    alloc: Global,
    record_type: &RecordType,
    cells: &[Cell<'_>],
) -> Result<Buffer<[u8; W]>, NoMemory>
    requires of_kind { AreCellsOf (kind_of record_type.now) cells.now }
    requires width { kind_width (kind_of record_type.now) ≡ Some W }
    ensures { IfOk result
        (λ b. map bytes b ≡ map (stored_as (kind_of record_type.now)) (rows_in cells.now)) }
{
    let mut records = Vec::with_capacity(alloc, cells.len())?;
    for cell in cells {
        records.push_reserved(record_at::<W>(record_type, *cell));
    }
    Buffer::from_vec(alloc, records)
}

// The bytes of the rows, as records of a width that is one of six.
fn gather_bytes(
    alloc: Global,
    record_type: &RecordType,
    width: usize,
    cells: &[Cell<'_>],
) -> Result<Records, NoMemory>
    requires of_kind { AreCellsOf (kind_of record_type.now) cells.now }
    requires width { kind_width (kind_of record_type.now) ≡ Some width }
    requires known { is_width width ≡ true }
    ensures records { IfOk result (λ r. map bytes (records_of r)
        ≡ map (stored_as (kind_of record_type.now)) (rows_in cells.now)) }
    ensures width { IfOk result (λ r. width_of r ≡ width) }
{
    match width {
        1 => Ok(Records::W1(record_list(alloc, record_type, cells)?)),
        2 => Ok(Records::W2(record_list(alloc, record_type, cells)?)),
        4 => Ok(Records::W4(record_list(alloc, record_type, cells)?)),
        8 => Ok(Records::W8(record_list(alloc, record_type, cells)?)),
        16 => Ok(Records::W16(record_list(alloc, record_type, cells)?)),
        32 => Ok(Records::W32(record_list(alloc, record_type, cells)?)),
        _ => unreachable!(),
    }
}

/// The rows as a column of records.
pub(crate) fn gather_records(
    alloc: Global,
    record_type: RecordType,
    nullability: Nullability,
    cells: &[Cell<'_>],
) -> Result<Array, NoMemory>
    requires { AreCellsOf (kind_of record_type) cells.now }
    ensures dtype { IfOk result (λ a. a.dtype
        ≡ record { kind = kind_of record_type; nullability = nullability }) }
    ensures rows { IfOk result (λ a. a.rows ≡ map
        (shown_as (record { kind = kind_of record_type; nullability = nullability }))
        (rows_in cells.now)) }
    ensures direct { IfOk result (λ a. is_lazy_layout a.layout ≡ false) }
    ensures unwrapped { IfOk result (λ a. is_unwrapped a ≡ true) }
{
    let validity = validity_of(alloc, nullability, cells)?;
    let records = gather_bytes(alloc, &record_type, record_type.width(), cells)?;
    Ok(record_column(record_type, records, validity))
}
