//! The call that a row names.

use crate::arguments::text_at;
use crate::kept::push_kept;
use crate::lines::push_shown;
use crate::lists::push_lists;
use crate::memory::push_in_memory;
use crate::pieces::push_pieces;
use crate::plans::push_plan;
use crate::readers::push_reads;
use crate::sources::{constructor_fault, push_whole};
use crate::steps::push_steps;
use rows_common::Ask;
use serde_json::Value;
use std::alloc::Global;
use std::test::Fail;
use vx_bits::NoMemory;
use vx_steps::{SelectError, slice_of_slice};

/// Appends the lines of a call.
fn push_call(lines: &mut String, alloc: Global, row: &Value, call: &str) -> Result<(), Fail> {
    match call {
        "row_at" | "cell_at" | "record_at" | "is_valid_at" | "bit_at" => {
            push_reads(lines, alloc, row, call)
        }
        "try_new" => push_shown(lines, &constructor_fault(alloc, row, text_at(row, "as"))?),
        "is_flat" | "into_ref" | "slice_plain" | "true_rows" | "mask_of" | "decimal" => {
            push_whole(lines, alloc, row, call)
        }
        "check_steps" | "compose" | "picks" => push_steps(lines, alloc, row, call),
        "cached" => push_kept(lines, alloc, row),
        "plan_filter" | "plan_take" | "plan_slice" => push_plan(lines, alloc, row, call),
        "element_mask" | "filter_lists" | "take_lists" => {
            push_lists(lines, alloc, (call, text_at(row, "lists")))
        }
        "arrow_select" => push_in_memory(lines, alloc, row),
        "from_no_memory" => push_shown(lines, &SelectError::from(NoMemory)),
        _ => push_pieces(lines, alloc, row, call),
    }
}

/// Rows that ask for calls.
pub(crate) struct Calls;

impl Ask for Calls {
    fn given_by(alloc: Global, line: &str) -> Result<String, Fail> {
        slice_of_slice(&[1u8, 2]);
        let row = Value::from_slice(alloc, line.as_bytes())?;
        let mut lines = String::new(alloc);
        push_call(&mut lines, alloc, &row, text_at(&row, "call"))?;
        Ok(lines)
    }
}
