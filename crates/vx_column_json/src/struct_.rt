//! Columns of layout `Struct`.
ghost use Rattle.std.specs.Prelude.{◌≡◌, map, IfOk};
ghost use Rattle.serde_json.specs.View.{view};
ghost use Rattle.vx_types.specs.DType.{type_of};
ghost use Rattle.vx_types.specs.Fields.{names_of};
ghost use Rattle.vx_model.specs.Columns.{types_in};
ghost use Rattle.vx_column.specs.Validity.{valid_of};
ghost use Rattle.vx_json.specs.Meaning.{Gives};
ghost use Rattle.vx_column_json.specs.Struct.{fields_made, struct_made, struct_by};

use crate::made::{made, refusal};
use serde_json::Value;
use std::alloc::Global;
use std::rc::RcStr;
use vx_bits::NoMemory;
use vx_column::{Array, ArrayRef, Columns, DType, StructArray, StructFields, Validity};
use vx_json::{DocError, GREATEST_LEN, if_closed, member, names_of, number_member};
use vx_shared::Shared;

/// The columns' types, in order.
pub(crate) fn types_of(alloc: Global, columns: &[ArrayRef]) -> Result<Vec<DType>, NoMemory>
    ensures { IfOk result (λ v. map type_of v.items ≡ types_in columns.now) }
{
    let mut types = Vec::with_capacity(alloc, columns.len())?;
    for column in columns {
        types.push_reserved(column.dtype().share());
    }
    Ok(types)
}

/// The fields of these names, and of these columns' types. `Malformed` where there isn't a name for
/// each.
fn fields_made(
    alloc: Global,
    names: Vec<RcStr>,
    columns: &[ArrayRef],
) -> Result<Shared<StructFields>, DocError>
    ensures { Gives (λ f. f) result (fields_made (names_of names.items) columns.now) }
{
    match StructFields::try_new(alloc, names, types_of(alloc, columns)?) {
        Ok(fields) => Ok(fields),
        Err(fault) => Err(refusal(fault)),
    }
}

/// The column of `len` rows of these fields. `Malformed` where a field hasn't as many, or the
/// validity can't be its.
#[tactic(auto, unfolding(crate::specs::Made::made))]
fn struct_made(
    alloc: Global,
    fields: Shared<StructFields>,
    columns: Vec<ArrayRef>,
    len: usize,
    validity: Validity,
) -> Result<Array, DocError>
    ensures { Gives (λ c. c) result (struct_made fields columns.items len (valid_of validity)) }
{
    let columns = Columns::new(alloc, columns)?;
    Ok(made(StructArray::try_new_with_dtype(columns, fields, len, validity))?.into_array())
}

/// The column of layout `Struct` that the value means, by the columns that the items of its member
/// `fields` mean and the validity that it states. `Malformed` where there isn't a name for each, a
/// field hasn't as many rows as the length, the validity can't be the column's, or there is another
/// member.
#[tactic(auto, unfolding(crate::specs::Struct::struct_by))]
pub fn struct_by(
    alloc: Global,
    value: &Value,
    columns: Vec<ArrayRef>,
    validity: Validity,
) -> Result<Array, DocError>
    ensures { Gives (λ c. c) result
        (struct_by (view value.now) columns.items (valid_of validity)) }
{
    let object = if_closed(value, &["layout", "len", "names", "fields", "validity"])?;
    let len = number_member(GREATEST_LEN, object, "len")?;
    let names = names_of(alloc, member(object, "names")?)?;
    let fields = fields_made(alloc, names, &columns)?;
    struct_made(alloc, fields, columns, len, validity)
}
