//! What filters and takes of lists leave.
use vx_column::{PrimitiveArray, Validity};
use vx_mask::Mask;
use vx_types::Runs;

/// What a filter of lists leaves: the elements of a column of these offsets are those of the range
/// that the mask selects.
#[derive(Drop)]
pub struct ListFilterPlan {
    /// The new offsets, from 0 on, of the type of the old ones.
    pub offsets: PrimitiveArray,
    /// Which rows are valid.
    pub validity: Validity,
    /// The range of old elements, from its start up to its end, which it leaves out.
    pub range: (usize, usize),
    /// Which elements of the range stay.
    pub mask: Mask,
}

/// What a take of lists leaves: the elements of a column of these offsets are those of the runs.
#[derive(Drop)]
pub struct ListTakePlan {
    /// The new offsets, from 0 on, of type `U64`.
    pub offsets: PrimitiveArray,
    /// Which rows are valid.
    pub validity: Validity,
    /// The new elements, as runs of old ones, each its start and its length.
    pub runs: Runs,
}

/// What a filter or a take of list views leaves: offsets and sizes into the same elements.
#[derive(Drop)]
pub struct ViewPlan {
    /// The new offsets, of the type of the old ones.
    pub offsets: PrimitiveArray,
    /// The new sizes, of the type of the old ones.
    pub sizes: PrimitiveArray,
    /// Which rows are valid.
    pub validity: Validity,
}

/// What a filter of lists of one size leaves: the elements that the mask selects.
#[derive(Drop)]
pub struct FixedFilterPlan {
    /// Which rows are valid.
    pub validity: Validity,
    /// Which elements stay.
    pub mask: Mask,
}

/// What a take of lists of one size leaves: the elements of the runs, or so many elements of any
/// value where there is no old list.
#[derive(Drop)]
pub struct FixedTakePlan {
    /// Which rows are valid.
    pub validity: Validity,
    /// The new elements, as runs of old ones, each its start and its length.
    pub runs: Runs,
    /// The number of elements that stand in their place.
    pub filler: usize,
}
