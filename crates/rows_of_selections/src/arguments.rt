//! The arguments of a call, as members of its row.
//!
//! Each stands in a function that says nothing of it, so that few facts pile up where it is used.

use serde_json::Value;
use std::alloc::Global;
use std::test::Fail;
use vx_column::{Array, ArrayRef, Validity};
use vx_column_json::validity_alone;
use vx_document::{
    StepList, column_member, columns_member, policy_found, steps_of, validity_stated,
};
use vx_json::{list_member, member, names_of, pairs_in, whole_of, wholes_in};
use vx_mask::Policy;
use vx_table::{Columns, Table, TableError};

/// The table of this name, or why its parts are none.
pub(crate) fn made_at(
    alloc: Global,
    row: &Value,
    name: &str,
) -> Result<Result<Table, TableError>, Fail> {
    let parts = member(row, name)?;
    let names = names_of(alloc, member(parts, "names")?)?;
    let columns = Columns::new(alloc, columns_member(alloc, parts, "columns")?)?;
    Ok(Table::try_new(names, columns, number_at(parts, "len")?))
}

/// The table of this name.
pub(crate) fn table_at(alloc: Global, row: &Value, name: &str) -> Result<Table, Fail> {
    Ok(made_at(alloc, row, name)??)
}

/// The column of this name.
pub(crate) fn column_at(alloc: Global, row: &Value, name: &str) -> Result<Array, Fail> {
    Ok(column_member(alloc, row, name)?)
}

/// The column of this name, as a shared one.
pub(crate) fn shared_at(alloc: Global, row: &Value, name: &str) -> Result<ArrayRef, Fail> {
    Ok(column_at(alloc, row, name)?.into_ref(alloc)?)
}

/// The validity, if there is one.
pub(crate) fn validity_at(alloc: Global, row: &Value) -> Result<Validity, Fail> {
    Ok(validity_alone(validity_stated(alloc, row)?))
}

/// The policy: that of Vortex, where none is stated.
pub(crate) fn policy_at(row: &Value) -> Result<Policy, Fail> {
    Ok(policy_found(row.get("policy"))?)
}

/// The text of this name, and nothing where there is none.
pub(crate) fn text_at<'v>(row: &'v Value, name: &str) -> &'v str {
    match row.get(name) {
        Some(value) => value.as_str().unwrap_or(""),
        None => "",
    }
}

/// The steps.
pub(crate) fn steps_at(alloc: Global, row: &Value) -> Result<StepList, Fail> {
    Ok(steps_of(alloc, member(row, "steps")?)?)
}

/// The pairs of key columns, each of the left table and of the right one.
pub(crate) fn keys_at(alloc: Global, row: &Value) -> Result<Vec<(usize, usize)>, Fail> {
    Ok(pairs_in(alloc, list_member(row, "keys")?)?)
}

/// The numbers of the columns of a page.
pub(crate) fn projection_at(alloc: Global, row: &Value) -> Result<Vec<usize>, Fail> {
    Ok(wholes_in(alloc, list_member(row, "columns")?)?)
}

/// The number of this name.
pub(crate) fn number_at(row: &Value, name: &str) -> Result<usize, Fail> {
    Ok(whole_of(member(row, name)?)?)
}
