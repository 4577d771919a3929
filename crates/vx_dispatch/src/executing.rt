//! The unwrapped form of a column.
ghost use Rattle.std.specs.Prelude.{◌≡◌, true, false, IfOk, IfSome, IsOk};
ghost use Rattle.vx_types.specs.Scalar.{is_text_kind};
ghost use Rattle.vx_types.specs.TypeTree.{is_flat};
ghost use Rattle.vx_model.specs.Plain.{is_lazy_layout, is_unwrapped};
ghost use Rattle.vx_model.specs.Step.{IsStep};
ghost use Rattle.vx_stored.specs.Scalars.{text_layout};

use crate::parts::{Parts, StepResult};
use std::alloc::Global;
use vx_bits::NoMemory;
use vx_column::{Array, Layout, Lists};
use vx_mask::Policy;
use vx_plain::Stored;
use vx_stored::execute_constant;

/// A layout whose rows the recursion unwraps.
pub(crate) trait ExecuteRows: Parts {
    // The layout's rows, as `execute` gives them.
    fn execute(&self, alloc: Global, policy: &Policy) -> StepResult
        ensures same { IfOk result (IsStep (Self.column self.now) (Self.column self.now).rows
            (Self.column self.now).dtype) }
        ensures unwrapped { is_flat (Self.column self.now).dtype ≡ true
            → IfOk result (λ a. is_unwrapped a ≡ true) }
        ensures direct { IfOk result (λ a. is_lazy_layout a.layout ≡ false) }
        ensures kept { is_unwrapped (Self.column self.now) ≡ true → IsOk result };
}

/// The column with its rows and type, unwrapped where the type is flat, and of no lazy layout.
/// Fails only with `NoMemory`, and never where the column is unwrapped.
///
/// A `Constant` of texts becomes a `VarBinView`, or a `VarBin` where its value has 2^32 bytes or
/// more.
#[cycle(execute)]
pub fn execute(alloc: Global, array: &Array, policy: &Policy) -> Result<Array, NoMemory>
    ensures same { IfOk result (IsStep array.now array.now.rows array.now.dtype) }
    ensures unwrapped { is_flat array.now.dtype ≡ true
        → IfOk result (λ a. is_unwrapped a ≡ true) }
    ensures direct { IfOk result (λ a. is_lazy_layout a.layout ≡ false) }
    ensures kept { is_unwrapped array.now ≡ true → IsOk result }
    ensures texts { IfSome array.now.constant (λ x. is_text_kind array.now.dtype.kind ≡ true
        → IfOk result (λ a. a.layout ≡ text_layout x)) }
{
    match array.layout() {
        Layout::Null(_) => Ok(array.share()),
        Layout::Bool(a) => Stored::Bits(a).execute(alloc, policy),
        Layout::Primitive(a) => Stored::Records(a.rows()).execute(alloc, policy),
        Layout::Decimal(a) => Stored::Records(a.rows()).execute(alloc, policy),
        Layout::VarBin(a) => Stored::Texts(a).execute(alloc, policy),
        Layout::VarBinView(a) => Stored::Views(a).execute(alloc, policy),
        Layout::List(a) => Lists::List(a).execute(alloc, policy),
        Layout::ListView(a) => Lists::View(a).execute(alloc, policy),
        Layout::FixedSizeList(a) => Lists::Fixed(a).execute(alloc, policy),
        Layout::Map(a) => Lists::Map(a).execute(alloc, policy),
        Layout::Struct(a) => a.execute(alloc, policy),
        Layout::Union(a) => a.execute(alloc, policy),
        Layout::Extension(a) => a.execute(alloc, policy),
        Layout::Constant(a) => execute_constant(alloc, a),
        Layout::Dict(a) => a.execute(alloc, policy),
        Layout::Filter(a) => a.execute(alloc, policy),
    }
}
