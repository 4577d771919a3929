//! Picks as a column of indices.
ghost use Rattle.std.specs.Prelude.{◌≡◌, IfOk, None, is_some, length, map, true};
ghost use Rattle.vx_types.specs.declared.nullability.Nullability.TheVariants.{NonNullable, Nullable};
ghost use Rattle.vx_types.specs.declared.ptype.PType.TheVariants.{U64};
ghost use Rattle.vx_types.specs.TypeTree.{is_flat, primitive_type};
ghost use Rattle.vx_types.specs.RowValue.{bytes};
ghost use Rattle.vx_column.specs.Validity.{valid_of};
ghost use Rattle.vx_model.specs.Valid.{is_fitting, nullability_by, present_bits, stored_rows};
ghost use Rattle.vx_positions.specs.Positions.{AllThere};
ghost use Rattle.vx_pieces.specs.Indices.{by_column, index_fault, index_nullability, index_picks, index_value};
ghost use Rattle.vx_select.specs.IndexRecords.{index_record};

use std::alloc::Global;
use vx_bits::{BitBuffer, Buffer, NoMemory, Records};
use vx_column::{Array, Nullability, PType, RecordType, Validity, record_column};
use vx_pieces::Indices;
use vx_plain::FlatRef;
use vx_take::{Picks, valid_bits};

// The record of a position, and zeros at a null.
#[inline(always)]
fn index_record(pick: Option<usize>) -> [u8; 8]
    ensures { result ≡ index_record pick }
{
    match pick {
        Some(p) => (p as u64).to_le_bytes(),
        None => [0; 8],
    }
}

// The records of the picks.
fn index_records(alloc: Global, picks: &Picks) -> Result<Buffer<[u8; 8]>, NoMemory>
    ensures { IfOk result (λ b. b ≡ map index_record picks.now.picks) }
{
    let mut records = Vec::with_capacity(alloc, picks.len())?;
    for i in 0..picks.len() {
        records.push_reserved(index_record(picks.get(i)));
    }
    Buffer::from_vec(alloc, records)
}

// The validity of rows that are valid where a bit is set, of a type that has nulls.
fn shown_by(alloc: Global, bits: BitBuffer) -> Result<Validity, NoMemory>
    ensures present { IfOk result
        (λ v. present_bits (valid_of v) (length bits.bits) ≡ bits.bits) }
    ensures fitting { IfOk result (λ v. is_fitting (valid_of v) (length bits.bits) ≡ true) }
    ensures nullability { IfOk result (λ v. nullability_by (valid_of v) ≡ Nullable) }
{
    if bits.true_count() == bits.len() {
        return Ok(Validity::AllValid);
    }
    Validity::from_bits(alloc, bits)
}

// Which picks are not null: a constant form where each is.
fn index_validity(
    alloc: Global,
    picks: &Picks,
    nullability: Nullability,
) -> Result<Validity, NoMemory>
    requires { nullability ≡ NonNullable → AllThere picks.now.picks }
    ensures present { IfOk result (λ v. present_bits (valid_of v) (length picks.now.picks)
        ≡ map is_some picks.now.picks) }
    ensures fitting { IfOk result
        (λ v. is_fitting (valid_of v) (length picks.now.picks) ≡ true) }
    ensures nullability { IfOk result (λ v. nullability_by (valid_of v) ≡ nullability) }
{
    match nullability {
        Nullability::NonNullable => Ok(Validity::NonNullable),
        Nullability::Nullable => shown_by(alloc, valid_bits(alloc, picks)?),
    }
}

// The column of the numbers that the records spell.
fn index_column(records: Buffer<[u8; 8]>, validity: Validity) -> Array
    requires { is_fitting (valid_of validity) (length records) ≡ true }
    ensures rows { result.rows ≡ stored_rows (valid_of validity) (map bytes records) }
    ensures dtype { result.dtype ≡ primitive_type U64 (nullability_by (valid_of validity)) }
{
    record_column(
        RecordType::Primitive(PType::U64),
        Records::W8(records),
        validity,
    )
}

// The column as indices.
fn indices_of(alloc: Global, column: Array) -> Result<Indices, NoMemory>
    requires { is_flat column.dtype ≡ true }
    ensures { IfOk result (λ i. index_value i ≡ by_column column) }
{
    Ok(Indices::Array(FlatRef::of(column.into_ref(alloc)?)))
}

/// The indices that name these picks: a column of numbers, of a type that has nulls where
/// `nullability` says so, also where no pick is one. Fails only with `NoMemory`.
pub fn pick_indices(
    alloc: Global,
    picks: &Picks,
    nullability: Nullability,
) -> Result<Indices, NoMemory>
    requires { nullability ≡ NonNullable → AllThere picks.now.picks }
    ensures picks { IfOk result (λ i. index_picks (index_value i) ≡ picks.now.picks) }
    ensures fault { IfOk result (λ i. index_fault (index_value i) picks.now.bound ≡ None) }
    ensures nullability { IfOk result (λ i. index_nullability (index_value i) ≡ nullability) }
{
    let validity = index_validity(alloc, picks, nullability)?;
    // each is below the bound
    let _ = picks.bound();
    let records = index_records(alloc, picks)?;
    indices_of(alloc, index_column(records, validity))
}
