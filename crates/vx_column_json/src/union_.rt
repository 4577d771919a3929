//! Columns of layout `Union`.
ghost use Rattle.std.specs.Prelude.{◌≡◌};
ghost use Rattle.serde_json.specs.View.{view, items_view};
ghost use Rattle.vx_bits.specs.Results.{ok_unless};
ghost use Rattle.vx_types.specs.Fields.{names_of};
ghost use Rattle.vx_model.specs.Union.{union_fault};
ghost use Rattle.vx_column.specs.UnionParts.{union_parts};
ghost use Rattle.vx_json.specs.Items.{each};
ghost use Rattle.vx_json.specs.Meaning.{Gives};
ghost use Rattle.vx_column_json.specs.Union.{variant_id, variant_name, variants_made, variants_in, offsets_of_rows, offsets_stated, union_made, union_array, union_by};

use crate::made::{made, refusal};
use crate::offsets::{offset_type_of, offsets_member};
use crate::struct_::types_of;
use serde_json::Value;
use std::alloc::Global;
use std::rc::RcStr;
use vx_column::{
    Array, ArrayRef, ColumnError, Columns, PType, PrimitiveArray, UnionArray, UnionVariants,
};
use vx_json::{
    DocError, ReadItem, if_closed, is_closed, list_member, number_member, read_each, text_member,
};
use vx_shared::Shared;

/// Reads a variant's id, of an object that has a name too.
#[derive(Clone, Copy)]
struct VariantIds;

impl ReadItem for VariantIds {
    ghost use Rattle.std.specs.Prelude.{ℕ};
    ghost use Rattle.vx_column_json.specs.Union.{variant_id};

    type Out = u8;

    ghost Seen = { ℕ };

    ghost seen = { λ n. n };

    ghost meaning = { λ _ d. variant_id d };

    #[tactic(auto, unfolding(crate::specs::Union::variant_id))]
    fn read(&self, _alloc: Global, value: &Value) -> Result<u8, DocError> {
        let object = if_closed(value, &["id", "name"])?;
        let id = number_member(255, object, "id")?;
        Ok(id as u8)
    }
}

/// Reads a variant's name.
#[derive(Clone, Copy)]
struct VariantNames;

impl ReadItem for VariantNames {
    ghost use Rattle.std.specs.Prelude.{ℕ, List};
    ghost use Rattle.std.specs.Rc.{rc_str_bytes};
    ghost use Rattle.vx_column_json.specs.Union.{variant_name};

    type Out = RcStr;

    ghost Seen = { List ℕ };

    ghost seen = { λ s. rc_str_bytes s };

    ghost meaning = { λ _ d. variant_name d };

    #[tactic(auto, unfolding(crate::specs::Union::variant_name))]
    fn read(&self, alloc: Global, value: &Value) -> Result<RcStr, DocError> {
        Ok(RcStr::from_str(alloc, text_member(value, "name")?)?)
    }
}

/// The variants of these ids and names, and of these columns' types. `Malformed` where there isn't
/// one of each for a column, or no column, or where an id occurs twice.
fn variants_made(
    alloc: Global,
    ids: Vec<u8>,
    names: Vec<RcStr>,
    columns: &[ArrayRef],
) -> Result<Shared<UnionVariants>, DocError>
    ensures { Gives (λ v. v) result
        (variants_made ids.items (names_of names.items) columns.now) }
{
    match UnionVariants::try_new(alloc, ids, names, types_of(alloc, columns)?) {
        Ok(variants) => Ok(variants),
        Err(fault) => Err(refusal(fault)),
    }
}

/// The variants that the value lists, of these columns' types.
#[tactic(auto, unfolding(crate::specs::Union::variants_in))]
fn variants_in(
    alloc: Global,
    value: &Value,
    columns: &[ArrayRef],
) -> Result<Shared<UnionVariants>, DocError>
    ensures { Gives (λ v. v) result (variants_in (view value.now) columns.now) }
{
    let items = list_member(value, "variants")?;
    let ids = read_each(alloc, &VariantIds, items)?;
    let names = read_each(alloc, &VariantNames, items)?;
    variants_made(alloc, ids, names, columns)
}

/// The offsets that the value lists, of the type that it states beside them.
#[tactic(auto, unfolding(crate::specs::Union::offsets_of_rows))]
fn offsets_of_rows(alloc: Global, value: &Value) -> Result<PrimitiveArray, DocError>
    ensures { Gives (λ p. p) result (offsets_of_rows (view value.now)) }
{
    let ptype = offset_type_of(PType::I32, value)?;
    offsets_member(alloc, ptype, value, "offsets")
}

/// The members of an object that states offsets.
const DENSE_MEMBERS: [&str; 6] = [
    "layout",
    "type_ids",
    "variants",
    "children",
    "offsets",
    "offset_type",
];

/// The offsets, where the value has some. `Malformed` where it has other members than those of a
/// union, or a type of offsets alone.
#[tactic(auto, unfolding(crate::specs::Union::offsets_stated))]
fn offsets_stated(alloc: Global, value: &Value) -> Result<Option<PrimitiveArray>, DocError>
    ensures { Gives (λ o. o) result (offsets_stated (view value.now)) }
{
    if is_closed(value, &["layout", "type_ids", "variants", "children"]) {
        Ok(None)
    } else if is_closed(value, &DENSE_MEMBERS) {
        Ok(Some(offsets_of_rows(alloc, value)?))
    } else {
        Err(DocError::Malformed)
    }
}

/// The union of these parts: dense where there are offsets.
fn union_with(
    type_ids: ArrayRef,
    offsets: Option<PrimitiveArray>,
    variants: Shared<UnionVariants>,
    children: Columns,
) -> Result<UnionArray, ColumnError>
    ensures { result
        ≡ ok_unless (union_fault (union_parts type_ids offsets variants children))
        (union_parts type_ids offsets variants children) }
{
    match offsets {
        Some(offsets) => UnionArray::try_new_dense(type_ids, offsets, variants, children),
        None => UnionArray::try_new(type_ids, variants, children),
    }
}

/// The union of these parts. `Malformed` where they can't make one.
#[tactic(auto, unfolding(crate::specs::Made::made))]
fn union_made(
    alloc: Global,
    type_ids: Array,
    offsets: Option<PrimitiveArray>,
    variants: Shared<UnionVariants>,
    children: Vec<ArrayRef>,
) -> Result<UnionArray, DocError>
    ensures { Gives (λ a. a) result (union_made type_ids offsets variants children.items) }
{
    let type_ids = type_ids.into_ref(alloc)?;
    let children = Columns::new(alloc, children)?;
    made(union_with(type_ids, offsets, variants, children))
}

/// What [`union_by`] gives, as that layout: it has the offsets that are stated, of which a column
/// tells the type alone.
#[tactic(auto, unfolding(crate::specs::Union::union_array))]
pub(crate) fn union_array(
    alloc: Global,
    value: &Value,
    type_ids: Array,
    children: Vec<ArrayRef>,
) -> Result<UnionArray, DocError>
    ensures { Gives (λ a. a) result (union_array (view value.now) type_ids children.items) }
{
    let offsets = offsets_stated(alloc, value)?;
    let variants = variants_in(alloc, value, &children)?;
    union_made(alloc, type_ids, offsets, variants, children)
}

/// The column of layout `Union` that the value means, by the column that its member `type_ids`
/// means and those that the items of its member `children` mean. `Malformed` where there isn't a
/// variant for each child, an id occurs twice, the ids or the offsets can't tell the rows, or there
/// is another member.
#[tactic(auto, unfolding(crate::specs::Union::union_by))]
pub fn union_by(
    alloc: Global,
    value: &Value,
    type_ids: Array,
    children: Vec<ArrayRef>,
) -> Result<Array, DocError>
    ensures { Gives (λ c. c) result (union_by (view value.now) type_ids children.items) }
{
    Ok(union_array(alloc, value, type_ids, children)?.into_array())
}
