//! Columns of layout `VarBin`.
ghost use Rattle.std.specs.Option.{option_map};
ghost use Rattle.serde_json.specs.View.{view};
ghost use Rattle.vx_column.specs.Validity.{valid_of};
ghost use Rattle.vx_json.specs.Meaning.{Gives};
ghost use Rattle.vx_column_json.specs.VarBin.{varbin_made, varbin_by_offsets, varbin_array, varbin_by};

use crate::made::made;
use crate::offsets::{offset_type_of, offsets_column, offsets_member};
use crate::validity::{validity_alone, validity_beside};
use serde_json::Value;
use std::alloc::Global;
use vx_bits::{Buffer, Records};
use vx_column::{Array, PType, PrimitiveArray, TextKind, Validity, VarBinArray};
use vx_json::{
    DocError, bytes_of, is_closed, list_member, member, strung_texts, text_kind_named, text_member,
};

/// The members of an object that states offsets and bytes.
const OFFSETS_MEMBERS: [&str; 6] = [
    "layout",
    "type",
    "offsets",
    "offset_type",
    "bytes",
    "validity",
];

/// The texts that these offsets cut the bytes into. `Malformed` where they can't, or the validity
/// can't be its.
#[tactic(auto, unfolding(crate::specs::Made::made))]
fn varbin_made(
    kind: TextKind,
    offsets: PrimitiveArray,
    bytes: Buffer<u8>,
    validity: Validity,
) -> Result<VarBinArray, DocError>
    ensures { Gives (λ a. a) result (varbin_made kind offsets bytes (valid_of validity)) }
{
    made(VarBinArray::try_new(kind, offsets, bytes, validity))
}

#[tactic(auto, unfolding(crate::specs::VarBin::varbin_by_offsets))]
fn varbin_by_offsets(
    alloc: Global,
    kind: TextKind,
    stated: Option<Validity>,
    value: &Value,
) -> Result<VarBinArray, DocError>
    ensures { Gives (λ a. a) result
        (varbin_by_offsets kind (option_map valid_of stated) (view value.now)) }
{
    let ptype = offset_type_of(PType::I32, value)?;
    let offsets = offsets_member(alloc, ptype, value, "offsets")?;
    let bytes = bytes_of(alloc, member(value, "bytes")?)?;
    varbin_made(kind, offsets, bytes, validity_alone(stated))
}

/// What [`varbin_by`] gives, as that layout: its offsets are of the type that is stated, which is
/// `i32` where none is, and of which a column tells nothing.
#[tactic(auto, unfolding(crate::specs::VarBin::varbin_array, crate::specs::VarBin::varbin_by_items))]
pub(crate) fn varbin_array(
    alloc: Global,
    value: &Value,
    stated: Option<Validity>,
) -> Result<VarBinArray, DocError>
    ensures { Gives (λ a. a) result (varbin_array (view value.now) (option_map valid_of stated)) }
{
    let kind = text_kind_named(text_member(value, "type")?)?;
    if is_closed(value, &["layout", "type", "values", "validity"]) {
        let items = list_member(value, "values")?;
        let validity = validity_beside(alloc, stated, items)?;
        let texts = strung_texts(alloc, kind, items)?;
        let offsets = offsets_column(PType::I32, Records::W4(texts.offsets));
        varbin_made(kind, offsets, texts.bytes, validity)
    } else if is_closed(value, &OFFSETS_MEMBERS) {
        varbin_by_offsets(alloc, kind, stated, value)
    } else {
        Err(DocError::Malformed)
    }
}

/// The column of layout `VarBin` that the value means, by the validity that it states. `Malformed`
/// where there is no such kind of text, an item is none of it or null, the offsets can't cut the
/// bytes, the validity can't be the column's, or there is another member.
#[tactic(auto, unfolding(crate::specs::VarBin::varbin_by))]
pub fn varbin_by(alloc: Global, value: &Value, stated: Option<Validity>) -> Result<Array, DocError>
    ensures { Gives (λ c. c) result (varbin_by (view value.now) (option_map valid_of stated)) }
{
    Ok(varbin_array(alloc, value, stated)?.into_array())
}
