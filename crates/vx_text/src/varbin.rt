//! Layout `VarBin`: texts that stand one after another, cut by offsets.
ghost use Rattle.std.specs.Prelude.{length};
ghost use Rattle.vx_model.specs.VarBin.{varbin_texts};
ghost use Rattle.vx_column.specs.Validity.{valid_of};
ghost use Rattle.vx_model.specs.Fits.{FitsSlice};
ghost use Rattle.vx_text.specs.Left.{LeavesSlice};

use vx_column::{Validity, VarBinArray, slice_offsets};

/// The rows from `start` up to `end`, with their validity: other offsets into the same bytes.
pub fn slice_varbin(
    array: &VarBinArray,
    start: usize,
    end: usize,
    validity: Validity,
) -> VarBinArray
    requires { FitsSlice (length (varbin_texts array.now).texts) start end (valid_of validity) }
    ensures { LeavesSlice array.now start end (valid_of validity) result }
{
    let cut = slice_offsets(array.offsets(), start, end);
    VarBinArray::of(array.kind(), cut, array.bytes().share(), validity)
}
