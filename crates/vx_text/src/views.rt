//! Layout `VarBinView`: other views of the same shared buffers.
ghost use Rattle.std.specs.Prelude.{[], length, slice_range, IfOk};
ghost use Rattle.std.specs.List.{items_where_true};
ghost use Rattle.vx_take.specs.Picks.{at};
ghost use Rattle.vx_model.specs.VarBinView.{view_texts};
ghost use Rattle.vx_column.specs.Validity.{valid_of};
ghost use Rattle.vx_model.specs.Fits.{FitsFilter, FitsSlice, FitsTake};
ghost use Rattle.vx_text.specs.Left.{LeavesViews};

use std::alloc::Global;
use vx_bits::{Buffer, NoMemory};
use vx_column::{BinaryView, Validity, VarBinViewArray};
use vx_filter::filter_slice;
use vx_mask::{MaskValues, Policy};
use vx_take::{Picks, gather};

/// The rows from `start` up to `end`, with their validity.
pub fn slice_views(
    array: &VarBinViewArray,
    start: usize,
    end: usize,
    validity: Validity,
) -> VarBinViewArray
    requires { FitsSlice (length (view_texts array.now).texts) start end (valid_of validity) }
    ensures { LeavesViews array.now.kind array.now.buffers
        (slice_range (view_texts array.now).texts start end) (valid_of validity) result }
{
    array.with_views(array.views().slice(start, end), validity)
}

/// The rows at the set positions of `mask`, in order, with their validity. Fails only with
/// `NoMemory`.
pub fn filter_views(
    alloc: Global,
    array: &VarBinViewArray,
    mask: &MaskValues,
    policy: &Policy,
    validity: Validity,
) -> Result<VarBinViewArray, NoMemory>
    requires { FitsFilter (length (view_texts array.now).texts) mask.now
        (valid_of validity) }
    ensures { IfOk result (LeavesViews array.now.kind array.now.buffers
        (items_where_true mask.now.bits.bits (view_texts array.now).texts)
        (valid_of validity)) }
{
    let kept = filter_slice(alloc, array.views().as_slice(), mask, policy)?;
    let views = Buffer::from_vec(alloc, kept)?;
    Ok(array.with_views(views, validity))
}

/// The rows at the picks, in order, an empty text at a null pick, with their validity. Fails only
/// with `NoMemory`.
pub fn gather_views(
    alloc: Global,
    array: &VarBinViewArray,
    picks: &Picks,
    validity: Validity,
) -> Result<VarBinViewArray, NoMemory>
    requires { FitsTake (length (view_texts array.now).texts) picks.now (valid_of validity) }
    ensures { IfOk result (LeavesViews array.now.kind array.now.buffers
        (at [] (view_texts array.now).texts picks.now.picks) (valid_of validity)) }
{
    let empty = BinaryView::make_view(&[], 0, 0);
    let taken = gather(alloc, array.views().as_slice(), picks, empty)?;
    let views = Buffer::from_vec(alloc, taken)?;
    Ok(array.with_views(views, validity))
}
