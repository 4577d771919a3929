//! What each layout that stores its rows in their places leaves.
ghost use Rattle.std.specs.Prelude.{◌≡◌, ◌≤◌, length, false, slice_range, IfOk};
ghost use Rattle.std.specs.List.{items_where_true};
ghost use Rattle.vx_types.specs.RowValue.{null};
ghost use Rattle.vx_take.specs.Picks.{at};
ghost use Rattle.vx_model.specs.Valid.{nullability_by, present_bits, IsAsPlain, IsLeft};
ghost use Rattle.vx_model.specs.Stored.{stored_column};
ghost use Rattle.vx_model.specs.Step.{IsCut, IsSlice, IsStep};
ghost use Rattle.vx_column.specs.Validity.{valid_of};
ghost use Rattle.vx_stored.specs.Left.{left_type};

use std::alloc::Global;
use vx_bits::NoMemory;
use vx_column::{Array, Validity};
use vx_mask::{MaskValues, Policy};
use vx_take::Picks;

/// What a filter or a take leaves.
pub(crate) type StepResult = Result<Array, NoMemory>;

/// A layout that stores its rows in their places, with the new validity handed in.
pub(crate) trait StoredRows {
    ghost use Rattle.vx_model.specs.Stored.{StoredParts};

    // what it stores
    ghost parts: { Self → StoredParts };

    // The rows from `start` up to `end`.
    fn slice(&self, start: usize, end: usize, valid: Validity) -> Array
        requires ordered { start ≤ end }
        requires within { end ≤ length (parts self.now).items }
        requires left { IsLeft (parts self.now).valid (nullability_by (parts self.now).valid)
            (slice_range (present_bits (parts self.now).valid (length (parts self.now).items))
            start end) (valid_of valid) }
        requires plain { IsAsPlain (parts self.now).valid (valid_of valid) }
        ensures { IsSlice (stored_column (parts self.now)) start end result };

    // The rows at the set positions of `mask`.
    fn filter(
        &self,
        alloc: Global,
        mask: &MaskValues,
        policy: &Policy,
        valid: Validity,
    ) -> StepResult
        requires long { length mask.now.bits.bits ≡ length (parts self.now).items }
        requires left { IsLeft (parts self.now).valid (nullability_by (parts self.now).valid)
            (items_where_true mask.now.bits.bits
            (present_bits (parts self.now).valid (length (parts self.now).items)))
            (valid_of valid) }
        requires plain { IsAsPlain (parts self.now).valid (valid_of valid) }
        ensures { IfOk result (IsCut (stored_column (parts self.now))
            (items_where_true mask.now.bits.bits (stored_column (parts self.now)).rows)) };

    // The rows at the picks, and null at a null pick.
    fn take(&self, alloc: Global, picks: &Picks, valid: Validity) -> StepResult
        requires bound { picks.now.bound ≡ length (parts self.now).items }
        requires left { IsLeft (parts self.now).valid (nullability_by (valid_of valid))
            (at false (present_bits (parts self.now).valid (length (parts self.now).items))
            picks.now.picks) (valid_of valid) }
        ensures { IfOk result (IsStep (stored_column (parts self.now))
            (at null (stored_column (parts self.now)).rows picks.now.picks)
            (left_type (stored_column (parts self.now)).dtype (valid_of valid))) };
}
