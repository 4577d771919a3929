//! Columns of any layout, and the columns in them.
ghost use Rattle.std.specs.Option.{option_map};
ghost use Rattle.serde_json.specs.View.{view, items_view};
ghost use Rattle.vx_column.specs.Validity.{valid_of};
ghost use Rattle.vx_json.specs.Meaning.{Gives};
ghost use Rattle.vx_column_json.specs.Validity.{validity_from, validity_stated};
ghost use Rattle.vx_document.specs.Columns.{by_layout, column_of, each_column, inner_of, inner_lists_of, dict_in, filter_in, map_in, struct_in, union_in, extension_in, lists_in, flat_of};

use serde_json::Value;
use std::alloc::Global;
use vx_column::{Array, ArrayRef, Validity};
use vx_column_json::{
    bool_by, constant_by, decimal_by, dict_by, extension_by, filter_by, lists_by, map_by, null_by,
    primitive_by, struct_by, union_by, validity_alone, validity_listed, validity_named, varbin_by,
    views_by,
};
use vx_json::{DocError, list_member, member, text_member};
use vx_plain::FlatRef;

/// The column that the value means, by its layout. `Malformed` exactly where it means none, but
/// that `NoMemory` may come in place of any answer.
#[cycle(columns)]
#[tactic(auto, unfolding(crate::specs::Columns::column_by))]
pub fn column_of(alloc: Global, value: &Value) -> Result<Array, DocError>
    ensures { Gives (λ c. c) result (column_of (view value.now)) }
{
    by_layout(alloc, value, text_member(value, "layout")?)
}

/// The column of the layout of this name that the value means.
#[cycle(columns)]
fn by_layout(alloc: Global, value: &Value, layout: &str) -> Result<Array, DocError>
    ensures { Gives (λ c. c) result (by_layout (view value.now) (inner_of (view value.now))
        (inner_lists_of (view value.now)) layout.now) }
{
    match layout {
        "Null" => null_by(value),
        "Bool" => bool_by(alloc, value, validity_stated(alloc, value)?),
        "Primitive" => primitive_by(alloc, value, validity_stated(alloc, value)?),
        "Decimal" => decimal_by(alloc, value, validity_stated(alloc, value)?),
        "VarBin" => varbin_by(alloc, value, validity_stated(alloc, value)?),
        "VarBinView" => views_by(alloc, value, validity_stated(alloc, value)?),
        "Constant" => constant_by(alloc, value),
        "Dict" => dict_in(alloc, value),
        "Filter" => filter_in(alloc, value),
        "Map" => map_in(alloc, value),
        "Struct" => struct_in(alloc, value),
        "Union" => union_in(alloc, value),
        "Extension" => extension_in(alloc, value),
        _ => lists_in(alloc, value, layout),
    }
}

/// The column that the member of this name means. `Malformed` where there is no such member, or it
/// means none.
#[cycle(columns)]
pub fn column_member(alloc: Global, value: &Value, name: &str) -> Result<Array, DocError>
    ensures { Gives (λ c. c) result (inner_of (view value.now) name.now) }
{
    column_of(alloc, member(value, name)?)
}

/// The columns that the items of the member of this name mean. `Malformed` where there is no such
/// list, or one means none.
#[cycle(columns)]
pub fn columns_member(alloc: Global, value: &Value, name: &str) -> Result<Vec<ArrayRef>, DocError>
    ensures { Gives (λ v. v.items) result (inner_lists_of (view value.now) name.now) }
{
    each_column(alloc, list_member(value, name)?)
}

/// The columns that the items of a list mean. `Malformed` where one means none.
#[cycle(columns)]
fn each_column(alloc: Global, items: &Vec<Value>) -> Result<Vec<ArrayRef>, DocError>
    ensures { Gives (λ v. v.items) result (each_column (items_view items.now.items)) }
{
    let mut columns = Vec::with_capacity(alloc, items.len())?;
    for item in items {
        columns.push_reserved(column_of(alloc, item)?.into_ref(alloc)?);
    }
    Ok(columns)
}

/// The column of layout `Dict` that the value means.
#[cycle(columns)]
#[tactic(auto, unfolding(crate::specs::Columns::dict_in))]
fn dict_in(alloc: Global, value: &Value) -> Result<Array, DocError>
    ensures { Gives (λ c. c) result (dict_in (view value.now) (inner_of (view value.now))) }
{
    let values = column_member(alloc, value, "values")?;
    let codes = column_member(alloc, value, "codes")?;
    dict_by(alloc, value, codes, values)
}

/// The column of layout `Filter` that the value means.
#[cycle(columns)]
#[tactic(auto, unfolding(crate::specs::Columns::filter_in))]
fn filter_in(alloc: Global, value: &Value) -> Result<Array, DocError>
    ensures { Gives (λ c. c) result (filter_in (view value.now) (inner_of (view value.now))) }
{
    let child = column_member(alloc, value, "child")?;
    filter_by(alloc, value, child)
}

/// The column of layout `Map` that the value means.
#[cycle(columns)]
#[tactic(auto, unfolding(crate::specs::Columns::map_in))]
fn map_in(alloc: Global, value: &Value) -> Result<Array, DocError>
    ensures { Gives (λ c. c) result (map_in (view value.now) (inner_of (view value.now))) }
{
    let entries = column_member(alloc, value, "entries")?;
    map_by(value, &entries)
}

/// The column of layout `Struct` that the value means.
#[cycle(columns)]
#[tactic(auto, unfolding(crate::specs::Columns::struct_in))]
fn struct_in(alloc: Global, value: &Value) -> Result<Array, DocError>
    ensures { Gives (λ c. c) result (struct_in (view value.now) (inner_of (view value.now))
        (inner_lists_of (view value.now))) }
{
    let stated = validity_stated(alloc, value)?;
    let fields = columns_member(alloc, value, "fields")?;
    struct_by(alloc, value, fields, validity_alone(stated))
}

/// The column of layout `Union` that the value means.
#[cycle(columns)]
#[tactic(auto, unfolding(crate::specs::Columns::union_in))]
fn union_in(alloc: Global, value: &Value) -> Result<Array, DocError>
    ensures { Gives (λ c. c) result (union_in (view value.now) (inner_of (view value.now))
        (inner_lists_of (view value.now))) }
{
    let type_ids = column_member(alloc, value, "type_ids")?;
    let children = columns_member(alloc, value, "children")?;
    union_by(alloc, value, type_ids, children)
}

/// The column of layout `Extension` that the value means.
#[cycle(columns)]
#[tactic(auto, unfolding(crate::specs::Columns::extension_in))]
fn extension_in(alloc: Global, value: &Value) -> Result<Array, DocError>
    ensures { Gives (λ c. c) result (extension_in (view value.now) (inner_of (view value.now))) }
{
    let storage = column_member(alloc, value, "storage")?;
    extension_by(alloc, value, storage)
}

/// The column of the layout of lists of this name that the value means. `Malformed` where there is
/// no such layout.
#[cycle(columns)]
#[tactic(auto, unfolding(crate::specs::Columns::lists_in))]
fn lists_in(alloc: Global, value: &Value, layout: &str) -> Result<Array, DocError>
    ensures { Gives (λ c. c) result
        (lists_in (view value.now) (inner_of (view value.now)) layout.now) }
{
    let stated = validity_stated(alloc, value)?;
    let elements = column_member(alloc, value, "elements")?;
    lists_by(alloc, value, elements, validity_alone(stated), layout)
}

/// The validity that the value states, if it states one. `Malformed` where what it states is none.
#[cycle(columns)]
#[tactic(auto, unfolding(vx_column_json::specs::Validity::validity_stated))]
pub fn validity_stated(alloc: Global, value: &Value) -> Result<Option<Validity>, DocError>
    ensures { Gives (λ v. option_map valid_of v) result
        (validity_stated (view value.now) (inner_of (view value.now))) }
{
    match value.get("validity") {
        Some(stated) => Ok(Some(validity_from(alloc, stated)?)),
        None => Ok(None),
    }
}

/// The validity that a member means: a text, a list of bools, or else a column.
#[cycle(columns)]
#[tactic(auto, unfolding(vx_column_json::specs::Validity::validity_from))]
fn validity_from(alloc: Global, value: &Value) -> Result<Validity, DocError>
    ensures { Gives valid_of result (validity_from (view value.now) (column_of (view value.now))) }
{
    if let Some(text) = value.as_str() {
        return validity_named(text);
    }
    match value.as_array() {
        Some(items) => validity_listed(alloc, items),
        None => Ok(Validity::Array(column_of(alloc, value)?.into_ref(alloc)?)),
    }
}

/// The column, where its type is flat. `Malformed` where it isn't.
pub(crate) fn flat_of(alloc: Global, column: Array) -> Result<FlatRef, DocError>
    ensures { Gives (λ c. c) result (flat_of column) }
{
    match FlatRef::try_new(column.into_ref(alloc)?) {
        Ok(flat) => Ok(flat),
        Err(_) => Err(DocError::Malformed),
    }
}
