//! Layout `VarBin`.
ghost use Rattle.std.specs.Prelude.{◌≡◌, ◌≤◌, length, IfOk};
ghost use Rattle.vx_bits.specs.Results.{FailsBy};
ghost use Rattle.vx_types.specs.TypeTree.{primitive_kind};
ghost use Rattle.vx_model.specs.Step.{IsSlice};
ghost use Rattle.vx_model.specs.VarBin.{varbin_column};
ghost use Rattle.vx_pieces.specs.Indices.{index_value};
ghost use Rattle.vx_offsets.specs.Cut.{type_of};
ghost use Rattle.vx_text.specs.Building.{type_for};
ghost use Rattle.vx_layouts.specs.Taking.{IsTakeBy, take_fault};

use crate::taking::{TakeError, take_fault};
use std::alloc::Global;
use vx_bits::NoMemory;
use vx_column::{Array, VarBinArray};
use vx_dispatch::{slice, take_validity};
use vx_mask::Policy;
use vx_pieces::Indices;
use vx_plain::vtables::VarBin;
use vx_plain::{ArrayView, VTable};
use vx_text::take_varbin_picks;

/// A slice of a column of layout `VarBin`, by the name that Vortex gives it.
pub trait VarBinSlice: VTable {
    /// The rows from `start` up to `end`. Fails only with `NoMemory`: Vortex's `VarBin::_slice`.
    fn _slice(
        alloc: Global,
        array: ArrayView<'_, Self>,
        start: usize,
        end: usize,
    ) -> Result<Array, NoMemory>
        requires ordered { start ≤ end }
        requires within { end ≤ length array.array.now.rows }
        ensures { IfOk result (IsSlice array.entry.array.now start end) };
}

impl VarBinSlice for VarBin {
    fn _slice(
        alloc: Global,
        array: ArrayView<'_, VarBin>,
        start: usize,
        end: usize,
    ) -> Result<Array, NoMemory>
        requires ordered { start ≤ end }
        requires within { end ≤ length array.array.now.rows }
        ensures { IfOk result (IsSlice array.entry.array.now start end) }
    {
        slice(alloc, array.array(), start, end)
    }
}

/// The rows that indices name, as a column of the same layout, whose offsets have at least 32 bits
/// and are signed where the source's are: Vortex's `take_varbin`.
///
/// `InvalidIndices`, `BadPieces` and `OutOfBounds` exactly where the indices are at fault, also
/// when memory runs out. Otherwise it fails only with `NoMemory`.
pub fn take_varbin(
    alloc: Global,
    array: &VarBinArray,
    indices: &Indices,
) -> Result<VarBinArray, TakeError>
    ensures taken { IfOk result (λ a. IsTakeBy (index_value indices.now)
        (varbin_column array.now) (varbin_column a)) }
    ensures offsets { IfOk result (λ a. a.offsets.kind ≡ primitive_kind
        (type_for (type_of array.now.offsets.kind) (length a.bytes))) }
    ensures fault { FailsBy result
        (take_fault (varbin_column array.now) (index_value indices.now)) TakeError.NoMemory }
{
    let column = array.share().into_array();
    if let Some(error) = take_fault(&column, indices) {
        return Err(error);
    }
    let policy = Policy::vortex();
    let picks = indices.picks(alloc, column.len())?;
    let nullability = indices.nullability();
    let validity = take_validity(alloc, array.validity(), &picks, nullability, &policy)?;
    Ok(take_varbin_picks(alloc, array, &picks, validity)?)
}
