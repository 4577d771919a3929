//! Slices that need no memory.
ghost use Rattle.std.specs.Prelude.{◌≡◌, ◌≤◌, IfSome, length, slice_range};
ghost use Rattle.vx_model.specs.Bool.{bool_column};
ghost use Rattle.vx_model.specs.Null.{null_column};
ghost use Rattle.vx_model.specs.Records.{records_column};
ghost use Rattle.vx_model.specs.Step.{IsPlainSlice};

use vx_column::{Array, BoolArray, Layout, NullArray, RecordArray};

// The rows of layout `Null` from `start` up to `end`.
fn slice_nulls(array: &NullArray, start: usize, end: usize) -> Option<Array>
    requires ordered { start ≤ end }
    requires within { end ≤ length (null_column array.now).rows }
    ensures slice { IsPlainSlice (null_column array.now) start end result }
    ensures stored { IfSome result
        (λ a. a.stored ≡ slice_range (null_column array.now).stored start end) }
{
    Some(NullArray::new(end - start).into_array())
}

// The rows of layout `Bool` from `start` up to `end`, where the validity is a constant form.
#[tactic(auto, using(vx_model::proofs::Layouts::layout_rows))]
fn slice_bools(array: &BoolArray, start: usize, end: usize) -> Option<Array>
    requires ordered { start ≤ end }
    requires within { end ≤ length (bool_column array.now).rows }
    ensures slice { IsPlainSlice (bool_column array.now) start end result }
    ensures stored { IfSome result
        (λ a. a.stored ≡ slice_range (bool_column array.now).stored start end) }
{
    if !array.validity().is_constant_form() {
        return None;
    }
    let bits = array.bits().slice(start, end);
    Some(BoolArray::of(bits, array.validity().share()).into_array())
}

// The rows of a layout of records from `start` up to `end`, where the validity is a constant form.
#[tactic(auto, using(vx_model::proofs::Layouts::layout_rows))]
fn slice_records(array: &RecordArray, start: usize, end: usize) -> Option<Array>
    requires ordered { start ≤ end }
    requires within { end ≤ length (records_column array.now).rows }
    ensures slice { IsPlainSlice (records_column array.now) start end result }
    ensures stored { IfSome result
        (λ a. a.stored ≡ slice_range (records_column array.now).stored start end) }
{
    if !array.validity().is_constant_form() {
        return None;
    }
    let values = array.values().slice(start, end);
    Some(
        array
            .with_rows(values, array.validity().share())
            .into_array(),
    )
}

/// The rows from `start` up to `end`, where that takes no memory: of layout `Null`, or of
/// `Bool`, `Primitive` or `Decimal` with a validity of constant form. None exactly for every
/// other column.
pub fn slice_plain(column: &Array, start: usize, end: usize) -> Option<Array>
    requires ordered { start ≤ end }
    requires within { end ≤ length column.now.rows }
    ensures slice { IsPlainSlice column.now start end result }
    ensures stored { IfSome result (λ a. a.stored ≡ slice_range column.now.stored start end) }
{
    match column.layout() {
        Layout::Null(a) => slice_nulls(a, start, end),
        Layout::Bool(a) => slice_bools(a, start, end),
        Layout::Primitive(a) => slice_records(a.rows(), start, end),
        Layout::Decimal(a) => slice_records(a.rows(), start, end),
        Layout::VarBin(_)
        | Layout::VarBinView(_)
        | Layout::List(_)
        | Layout::ListView(_)
        | Layout::FixedSizeList(_)
        | Layout::Map(_)
        | Layout::Struct(_)
        | Layout::Union(_)
        | Layout::Extension(_)
        | Layout::Constant(_)
        | Layout::Dict(_)
        | Layout::Filter(_) => None,
    }
}
