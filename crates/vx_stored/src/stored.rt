//! What a step leaves of a layout that stores a row's bit or bytes in its place, with the new
//! validity handed in.
ghost use Rattle.std.specs.Prelude.{◌≡◌, ◌≤◌, length, false, slice_range, IfOk};
ghost use Rattle.std.specs.List.{items_where_true};
ghost use Rattle.vx_types.specs.RowValue.{null};
ghost use Rattle.vx_take.specs.Picks.{at};
ghost use Rattle.vx_model.specs.Valid.{nullability_by, present_bits, IsAsPlain, IsLeft};
ghost use Rattle.vx_model.specs.Stored.{stored_column};
ghost use Rattle.vx_model.specs.Step.{IsCut, IsSlice, IsStep};
ghost use Rattle.vx_plain.specs.Stored.{parts_of};
ghost use Rattle.vx_column.specs.Validity.{valid_of};
ghost use Rattle.vx_stored.specs.Left.{left_type};

use crate::rows::StoredRows;
use std::alloc::Global;
use vx_bits::NoMemory;
use vx_column::{Array, BoolArray, Validity};
use vx_mask::{MaskValues, Policy};
use vx_plain::Stored;
use vx_take::Picks;

/// The rows from `start` up to `end`, with their validity.
pub fn slice_stored(stored: Stored<'_>, start: usize, end: usize, validity: Validity) -> Array
    requires ordered { start ≤ end }
    requires within { end ≤ length (parts_of stored).items }
    requires left { IsLeft (parts_of stored).valid (nullability_by (parts_of stored).valid)
        (slice_range (present_bits (parts_of stored).valid (length (parts_of stored).items))
        start end) (valid_of validity) }
    requires plain { IsAsPlain (parts_of stored).valid (valid_of validity) }
    ensures { IsSlice (stored_column (parts_of stored.entry)) start end result }
{
    match stored {
        Stored::Bits(array) => array.slice(start, end, validity),
        Stored::Records(array) => array.slice(start, end, validity),
        Stored::Texts(array) => array.slice(start, end, validity),
        Stored::Views(array) => array.slice(start, end, validity),
    }
}

/// The rows at the set positions of `mask`, in order, with their validity. Fails only with
/// `NoMemory`.
pub fn filter_stored(
    alloc: Global,
    stored: Stored<'_>,
    mask: &MaskValues,
    policy: &Policy,
    validity: Validity,
) -> Result<Array, NoMemory>
    requires long { length mask.now.bits.bits ≡ length (parts_of stored).items }
    requires left { IsLeft (parts_of stored).valid (nullability_by (parts_of stored).valid)
        (items_where_true mask.now.bits.bits
        (present_bits (parts_of stored).valid (length (parts_of stored).items)))
        (valid_of validity) }
    requires plain { IsAsPlain (parts_of stored).valid (valid_of validity) }
    ensures { IfOk result (IsCut (stored_column (parts_of stored.entry))
        (items_where_true mask.now.bits.bits (stored_column (parts_of stored.entry)).rows)) }
{
    match stored {
        Stored::Bits(array) => array.filter(alloc, mask, policy, validity),
        Stored::Records(array) => array.filter(alloc, mask, policy, validity),
        Stored::Texts(array) => array.filter(alloc, mask, policy, validity),
        Stored::Views(array) => array.filter(alloc, mask, policy, validity),
    }
}

/// The rows at the picks, in order, and null at a null pick, with their validity. Fails only with
/// `NoMemory`.
pub fn take_stored(
    alloc: Global,
    stored: Stored<'_>,
    picks: &Picks,
    validity: Validity,
) -> Result<Array, NoMemory>
    requires bound { picks.now.bound ≡ length (parts_of stored).items }
    requires left { IsLeft (parts_of stored).valid (nullability_by (valid_of validity))
        (at false (present_bits (parts_of stored).valid (length (parts_of stored).items))
        picks.now.picks) (valid_of validity) }
    ensures { IfOk result (IsStep (stored_column (parts_of stored.entry))
        (at null (stored_column (parts_of stored.entry)).rows picks.now.picks)
        (left_type (stored_column (parts_of stored.entry)).dtype (valid_of validity))) }
{
    match stored {
        Stored::Bits(array) => array.take(alloc, picks, validity),
        Stored::Records(array) => array.take(alloc, picks, validity),
        Stored::Texts(array) => array.take(alloc, picks, validity),
        Stored::Views(array) => array.take(alloc, picks, validity),
    }
}

/// The stored rows, with a validity in place of theirs that says as much of each row.
pub fn with_validity(stored: Stored<'_>, validity: Validity) -> Array
    requires { IsLeft (parts_of stored).valid (nullability_by (parts_of stored).valid)
        (present_bits (parts_of stored).valid (length (parts_of stored).items))
        (valid_of validity) }
    ensures { result
        ≡ stored_column (record (parts_of stored.entry) { valid = valid_of validity }) }
{
    match stored {
        Stored::Bits(array) => BoolArray::of(array.bits().share(), validity).into_array(),
        Stored::Records(array) => {
            array
                .with_rows(array.values().share(), validity)
                .into_array()
        }
        Stored::Texts(array) => {
            // the validity fits the rows
            let _ = array.bytes();
            array.with_validity(validity).into_array()
        }
        Stored::Views(array) => {
            array
                .with_views(array.views().share(), validity)
                .into_array()
        }
    }
}
