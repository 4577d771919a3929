//! The arguments of a call, as members of its row.
//!
//! Each stands in a function that says nothing of it, so that few facts pile up where it is used.

use serde_json::Value;
use std::alloc::Global;
use std::test::Fail;
use vx_column::{Array, ArrayRef, Columns, Validity};
use vx_column_json::validity_alone;
use vx_document::{column_member, columns_member, indices_of, validity_stated};
use vx_json::{GREATEST_LEN, mask_of, member, number_member, pair_of};
use vx_mask::Mask;
use vx_pieces::Indices;
use vx_plain::{ArrayView, ReadLayout, VTable};

/// The column of this name.
pub(crate) fn column_at(alloc: Global, row: &Value, name: &str) -> Result<Array, Fail> {
    Ok(column_member(alloc, row, name)?)
}

/// The column of this name, as a shared one.
pub(crate) fn shared_at(alloc: Global, row: &Value, name: &str) -> Result<ArrayRef, Fail> {
    Ok(column_at(alloc, row, name)?.into_ref(alloc)?)
}

/// The columns of this name.
pub(crate) fn columns_at(alloc: Global, row: &Value, name: &str) -> Result<Columns, Fail> {
    Ok(Columns::new(alloc, columns_member(alloc, row, name)?)?)
}

/// The validity, if there is one.
pub(crate) fn validity_at(alloc: Global, row: &Value) -> Result<Validity, Fail> {
    Ok(validity_alone(validity_stated(alloc, row)?))
}

/// The indices of a take.
pub(crate) fn indices_at(alloc: Global, row: &Value) -> Result<Indices, Fail> {
    Ok(indices_of(alloc, member(row, "take")?)?)
}

/// The mask of a filter.
pub(crate) fn mask_at(alloc: Global, row: &Value) -> Result<Mask, Fail> {
    Ok(mask_of(alloc, member(row, "filter")?)?)
}

/// Where a slice begins and ends.
pub(crate) fn range_at(row: &Value) -> Result<(usize, usize), Fail> {
    Ok(pair_of(member(row, "slice")?)?)
}

/// The number of this name.
pub(crate) fn number_at(row: &Value, name: &str) -> Result<usize, Fail> {
    Ok(number_member(GREATEST_LEN, row, name)?)
}

/// The text of this name, and nothing where there is none.
pub(crate) fn text_at<'v>(row: &'v Value, name: &str) -> &'v str {
    match row.get(name) {
        Some(value) => value.as_str().unwrap_or(""),
        None => "",
    }
}

/// The column as one of this layout.
pub(crate) fn view_of<V: VTable>(column: &Array) -> Result<ArrayView<'_, V>, Fail> {
    match column.as_opt::<V>() {
        Some(view) => Ok(view),
        None => Err("a column of another layout".into()),
    }
}
