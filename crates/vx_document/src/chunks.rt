//! Columns behind a decoder.
ghost use Rattle.std.specs.Prelude.{◌≡◌, IfOk, Some, true};
ghost use Rattle.serde_json.specs.View.{view};
ghost use Rattle.vx_bits.specs.Records.{records_of, width_of};
ghost use Rattle.vx_types.specs.DType.{type_of};
ghost use Rattle.vx_types.specs.PType.{width};
ghost use Rattle.vx_types.specs.TypeTree.{type_width};
ghost use Rattle.vx_types.specs.Decimal.{is_width};
ghost use Rattle.vx_column.specs.Validity.{valid_of};
ghost use Rattle.vx_json.specs.Meaning.{Gives};
ghost use Rattle.vx_document.specs.Documents.{IsWhole, source_value};
ghost use Rattle.vx_document.specs.Chunks.{values_by, decimals_listed, decimals_by, with_fill, filled_from, fill_len, shape_made, shape_by, chunks_made, record_width, records_by, chunks_by, chunks_named, chunks_of};

use crate::columns::validity_stated;
use crate::documents::DocumentSource;
use serde_json::Value;
use std::alloc::Global;
use vx_bits::{Buffer, NoMemory, Records, map_each_record_width};
use vx_column::{DType, PType, RecordType, Validity};
use vx_column_json::{ramp_listed, validity_alone, values_there};
use vx_json::{
    DocError, GREATEST_LEN, decimal_of, has_null, hex_values_of, is_closed, list_member,
    number_member, ptype_named, text_member,
};
use vx_steps::ChunkShape;

/// How many values a chunk has.
const CHUNK_LEN: usize = 1024;

#[tactic(auto, unfolding(crate::specs::Chunks::values_by))]
fn values_by(alloc: Global, ptype: PType, value: &Value) -> Result<Records, DocError>
    ensures value { Gives records_of result (values_by ptype (view value.now)) }
    ensures width { IfOk result (λ r. width_of r ≡ width ptype) }
{
    if is_closed(value, &["type", "offset", "len", "values", "validity"]) {
        values_there(alloc, ptype, value, "values")
    } else if is_closed(value, &["type", "offset", "len", "ramp", "validity"]) {
        ramp_listed(alloc, ptype, value)
    } else {
        Err(DocError::Malformed)
    }
}

/// The records, of that many bytes each, that the object lists. `Malformed` where one is null or
/// no such record.
#[tactic(auto, unfolding(crate::specs::Chunks::decimals_listed))]
fn decimals_listed(alloc: Global, width: usize, value: &Value) -> Result<Records, DocError>
    requires { is_width width ≡ true }
    ensures value { Gives records_of result (decimals_listed width (view value.now)) }
    ensures width { IfOk result (λ r. width_of r ≡ width) }
{
    let items = list_member(value, "values")?;
    if has_null(items) {
        return Err(DocError::Malformed);
    }
    hex_values_of(alloc, width, items)
}

#[tactic(auto, unfolding(crate::specs::Chunks::decimals_by))]
fn decimals_by(alloc: Global, width: usize, value: &Value) -> Result<Records, DocError>
    requires { is_width width ≡ true }
    ensures value { Gives records_of result (decimals_by width (view value.now)) }
    ensures width { IfOk result (λ r. width_of r ≡ width) }
{
    if is_closed(
        value,
        &[
            "type",
            "precision",
            "scale",
            "width",
            "offset",
            "len",
            "values",
            "validity",
        ],
    ) {
        decimals_listed(alloc, width, value)
    } else {
        Err(DocError::Malformed)
    }
}

/// How many values the last of the chunks of `len` values lacks.
fn fill_len(len: usize) -> usize
    ensures { result ≡ fill_len len }
{
    (CHUNK_LEN - len % CHUNK_LEN) % CHUNK_LEN
}

/// The records, and zeros behind them up to whole chunks.
fn with_fill<const W: usize>(
    alloc: Global,
    records: &Buffer<[u8; W]>,
) -> Result<Buffer<[u8; W]>, NoMemory>
    ensures { IfOk result (λ b. b ≡ with_fill W records.now) }
{
    let missing = fill_len(records.len());
    if missing == 0 {
        return Ok(records.share());
    }
    // no memory holds more records than are counted
    let Some(len) = records.len().checked_add(missing) else {
        return Err(NoMemory);
    };
    let mut all = Vec::with_capacity(alloc, len)?;
    all.extend_from_slice(records.as_slice())?;
    all.resize(len, [0; W])?;
    Buffer::from_vec(alloc, all)
}

fn records_with_fill(alloc: Global, records: &Records) -> Result<Records, NoMemory>
    ensures records { IfOk result
        (λ r. records_of r ≡ with_fill (width_of records.now) (records_of records.now)) }
    ensures width { IfOk result (λ r. width_of r ≡ width_of records.now) }
{
    Ok(map_each_record_width!(records, buffer => with_fill(alloc, buffer)?))
}

/// The shape of these parts. `Malformed` where they can make none.
fn shape_made(
    dtype: DType,
    offset: usize,
    len: usize,
    validity: Validity,
) -> Result<ChunkShape, DocError>
    ensures shape { Gives (λ s. s) result
        (shape_made (type_of dtype) offset len (valid_of validity)) }
    ensures dtype { IfOk result (λ s. s.dtype ≡ type_of dtype) }
{
    match ChunkShape::try_new(dtype, offset, len, validity) {
        Ok(shape) => Ok(shape),
        Err(_) => Err(DocError::Malformed),
    }
}

#[tactic(auto, unfolding(crate::specs::Chunks::shape_by))]
fn shape_by(dtype: DType, validity: Validity, value: &Value) -> Result<ChunkShape, DocError>
    ensures shape { Gives (λ s. s) result
        (shape_by (type_of dtype) (valid_of validity) (view value.now)) }
    ensures dtype { IfOk result (λ s. s.dtype ≡ type_of dtype) }
{
    let offset = number_member(1023, value, "offset")?;
    let len = number_member(GREATEST_LEN, value, "len")?;
    shape_made(dtype, offset, len, validity)
}

/// These records, and zeros behind them up to whole chunks. `Malformed` where they are fewer than
/// `least`.
fn filled_from(alloc: Global, least: usize, records: &Records) -> Result<Records, DocError>
    ensures records { Gives records_of result
        (filled_from least (width_of records.now) (records_of records.now)) }
    ensures width { IfOk result (λ r. width_of r ≡ width_of records.now) }
{
    if least <= records.len() {
        Ok(records_with_fill(alloc, records)?)
    } else {
        Err(DocError::Malformed)
    }
}

/// The shape over whole chunks of these records. `Malformed` where it has more values than they
/// are.
#[tactic(auto, unfolding(crate::specs::Chunks::chunks_made))]
fn chunks_made(
    alloc: Global,
    shape: ChunkShape,
    records: Records,
) -> Result<DocumentSource, DocError>
    requires { type_width shape.dtype ≡ Some (width_of records) }
    ensures source { Gives source_value result
        (chunks_made shape (width_of records) (records_of records)) }
    ensures whole { IfOk result IsWhole }
{
    let whole = filled_from(alloc, shape.offset() + shape.len(), &records)?;
    Ok(DocumentSource::Chunks(shape, whole))
}

/// The records of this type that the object lists.
#[tactic(auto, unfolding(crate::specs::Chunks::records_by, crate::specs::Chunks::record_width))]
fn records_by(alloc: Global, record_type: RecordType, value: &Value) -> Result<Records, DocError>
    ensures value { Gives records_of result (records_by record_type (view value.now)) }
    ensures width { IfOk result (λ r. width_of r ≡ record_width record_type) }
{
    match record_type {
        RecordType::Primitive(ptype) => values_by(alloc, ptype, value),
        RecordType::Decimal(decimal) => decimals_by(alloc, decimal.width() as usize, value),
    }
}

/// The column of records of this type that the value means.
#[tactic(auto, unfolding(crate::specs::Chunks::chunks_by))]
fn chunks_by(
    alloc: Global,
    record_type: RecordType,
    validity: Validity,
    value: &Value,
) -> Result<DocumentSource, DocError>
    ensures source { Gives source_value result
        (chunks_by record_type (valid_of validity) (view value.now)) }
    ensures whole { IfOk result IsWhole }
{
    let dtype = record_type.dtype(validity.nullability());
    let shape = shape_by(dtype, validity, value)?;
    let records = records_by(alloc, record_type, value)?;
    chunks_made(alloc, shape, records)
}

/// Chunks of the type of this name. `Malformed` where there is none, or the members beside it say
/// none.
#[tactic(auto, unfolding(crate::specs::Chunks::chunks_named))]
fn chunks_named(
    alloc: Global,
    validity: Validity,
    value: &Value,
    name: &str,
) -> Result<DocumentSource, DocError>
    ensures source { Gives source_value result
        (chunks_named (valid_of validity) (view value.now) name.now) }
    ensures whole { IfOk result IsWhole }
{
    match name {
        "decimal" => chunks_by(
            alloc,
            RecordType::Decimal(decimal_of(value)?),
            validity,
            value,
        ),
        _ => chunks_by(
            alloc,
            RecordType::Primitive(ptype_named(name)?),
            validity,
            value,
        ),
    }
}

/// The column behind a decoder that the value means.
#[tactic(auto, unfolding(crate::specs::Chunks::chunks_of))]
pub(crate) fn chunks_of(alloc: Global, value: &Value) -> Result<DocumentSource, DocError>
    ensures source { Gives source_value result (chunks_of (view value.now)) }
    ensures whole { IfOk result IsWhole }
{
    let stated = validity_stated(alloc, value)?;
    let name = text_member(value, "type")?;
    chunks_named(alloc, validity_alone(stated), value, name)
}
