//! The rows from one position up to another, over every layout.
ghost use Rattle.std.specs.Prelude.{◌≡◌, ◌≤◌, length, true, IfOk, IsOk};
ghost use Rattle.vx_model.specs.Plain.{is_plain};
ghost use Rattle.vx_model.specs.Step.{IsSlice};

use crate::parts::{Parts, StepResult};
use crate::union_::slice_variants;
use std::alloc::Global;
use vx_bits::NoMemory;
use vx_column::{Array, Layout};
use vx_plain::Stored;
use vx_stored::{slice_constant, slice_nulls};

/// A layout whose rows the recursion slices.
pub(crate) trait SliceRows: Parts {
    // The rows from `start` up to `end`, as `slice` gives them.
    fn slice(&self, alloc: Global, start: usize, end: usize) -> StepResult
        requires ordered { start ≤ end }
        requires within { end ≤ length (Self.column self.now).rows }
        ensures cut { IfOk result (IsSlice (Self.column self.now) start end) }
        ensures plain { is_plain (Self.column self.now) ≡ true → IsOk result };
}

/// The rows from `start` up to `end`. Fails only with `NoMemory`, and never over a plain column.
#[cycle(slice)]
pub fn slice(alloc: Global, array: &Array, start: usize, end: usize) -> Result<Array, NoMemory>
    requires ordered { start ≤ end }
    requires within { end ≤ length array.now.rows }
    ensures cut { IfOk result (IsSlice array.now start end) }
    ensures plain { is_plain array.now ≡ true → IsOk result }
{
    match array.layout() {
        Layout::Null(a) => Ok(slice_nulls(a, start, end)),
        Layout::Bool(a) => Stored::Bits(a).slice(alloc, start, end),
        Layout::Primitive(a) => Stored::Records(a.rows()).slice(alloc, start, end),
        Layout::Decimal(a) => Stored::Records(a.rows()).slice(alloc, start, end),
        Layout::VarBin(a) => Stored::Texts(a).slice(alloc, start, end),
        Layout::VarBinView(a) => Stored::Views(a).slice(alloc, start, end),
        Layout::List(a) => a.slice(alloc, start, end),
        Layout::ListView(a) => a.slice(alloc, start, end),
        Layout::FixedSizeList(a) => a.slice(alloc, start, end),
        Layout::Map(a) => a.slice(alloc, start, end),
        Layout::Struct(a) => a.slice(alloc, start, end),
        Layout::Union(a) => Ok(slice_variants(alloc, a, start, end)?.into_array()),
        Layout::Extension(a) => a.slice(alloc, start, end),
        Layout::Constant(a) => Ok(slice_constant(a, start, end)),
        Layout::Dict(a) => a.slice(alloc, start, end),
        Layout::Filter(a) => a.slice(alloc, start, end),
    }
}
