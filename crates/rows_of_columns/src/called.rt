//! The call that a row names.

use crate::arguments::{column_at, indices_at, mask_at, range_at, text_at};
use crate::constructors::constructor_fault;
use crate::filters::{filtered_as, filtered_by};
use crate::lines::{Taken, push_fault, push_taken};
use crate::offsets::push_offsets;
use crate::slices::{cut_union, sliced_as};
use crate::takes::{adapted, taken_as, taken_by};
use crate::texts::{push_text_view, text_step};
use crate::whole::{filler, packed, push_columns, push_view};
use rows_common::Ask;
use serde_json::Value;
use std::alloc::Global;
use std::test::Fail;
use vx_column::Array;

/// What a step through a trait of its layout gives.
fn stepped_as(
    alloc: Global,
    row: &Value,
    column: &Array,
    call: (&str, &str),
) -> Result<Taken, Fail> {
    match call.0 {
        "TakeReduce" | "TakeExecute" => taken_as(alloc, column, &indices_at(alloc, row)?, call),
        "FilterReduce" | "FilterKernel" => {
            Ok(Ok(filtered_as(alloc, column, &mask_at(alloc, row)?, call)?))
        }
        "SliceReduce" | "SliceKernel" | "VarBinSlice" => {
            Ok(Ok(sliced_as(alloc, column, range_at(row)?, call)?))
        }
        _ => adapted(alloc, row, column, call),
    }
}

/// What a call over a column gives.
fn given(alloc: Global, row: &Value, column: &Array, call: &str) -> Result<Taken, Fail> {
    if row.get("as").is_some() {
        return stepped_as(alloc, row, column, (call, text_at(row, "as")));
    }
    match call {
        "column" => Ok(Ok(Some(column.share()))),
        "filler" => Ok(Ok(Some(filler(alloc, row, column)?))),
        "pack_union" => Ok(Ok(Some(packed(alloc, row, column)?))),
        "take" | "take_varbin" | "take_list" | "take_union" => {
            taken_by(alloc, column, &indices_at(alloc, row)?, call)
        }
        "slice_union" => Ok(Ok(Some(cut_union(alloc, column, range_at(row)?)?))),
        "filter_varbinview"
        | "filter_listview"
        | "filter_fixed_size_list"
        | "filter_struct"
        | "filter_union" => {
            Ok(Ok(Some(filtered_by(alloc, column, &mask_at(alloc, row)?, call)?)))
        }
        _ => Ok(Ok(Some(text_step(alloc, row, column, call)?))),
    }
}

/// Appends the lines of a call over a column.
fn push_given(lines: &mut String, alloc: Global, row: &Value, call: &str) -> Result<(), Fail> {
    let column = column_at(alloc, row, "column")?;
    let taken = given(alloc, row, &column, call)?;
    push_taken(lines, alloc, &taken, text_at(row, "show"))
}

/// Appends the lines of a call.
fn push_call(lines: &mut String, alloc: Global, row: &Value, call: &str) -> Result<(), Fail> {
    match call {
        "try_new" => push_fault(lines, constructor_fault(alloc, row, text_at(row, "as"))?),
        "as_opt" => push_view(lines, alloc, row, text_at(row, "as")),
        "Columns" => push_columns(lines, alloc, row),
        "Offsets" => push_offsets(lines, alloc, row),
        "make_view" => push_text_view(lines, text_at(row, "text")),
        _ => push_given(lines, alloc, row, call),
    }
}

/// Rows that ask for calls.
pub(crate) struct Calls;

impl Ask for Calls {
    fn given_by(alloc: Global, line: &str) -> Result<String, Fail> {
        let row = Value::from_slice(alloc, line.as_bytes())?;
        let mut lines = String::new(alloc);
        push_call(&mut lines, alloc, &row, text_at(&row, "call"))?;
        Ok(lines)
    }
}
