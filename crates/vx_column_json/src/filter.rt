//! Columns of layout `Filter`.
ghost use Rattle.std.specs.Prelude.{◌≡◌, IfOk, Some};
ghost use Rattle.std.specs.Option.{option_map};
ghost use Rattle.serde_json.specs.View.{view};
ghost use Rattle.vx_mask.specs.Mask.{mask_bits, partial_of};
ghost use Rattle.vx_model.specs.Filter.{filter_column};
ghost use Rattle.vx_json.specs.Meaning.{Gives};
ghost use Rattle.vx_column_json.specs.Filter.{filter_made, filter_by, filter_kept, with_ranks};

use crate::made::made;
use serde_json::Value;
use std::alloc::Global;
use vx_bits::NoMemory;
use vx_column::{Array, FilterArray};
use vx_json::{DocError, if_closed, mask_of, member};
use vx_mask::Mask;

/// The mask, with what finds its rows fast: their positions where it keeps at most a 64th, which
/// take no more memory than its bits, or else its block counts.
fn with_ranks(alloc: Global, mask: Mask) -> Result<Mask, NoMemory>
    ensures bits { IfOk result (λ m. mask_bits m ≡ mask_bits mask) }
    ensures kept { IfOk result (λ m. partial_of m ≡ option_map with_ranks (partial_of mask)) }
{
    if mask.true_count() <= mask.len() / 64 {
        mask.with_indices(alloc)
    } else {
        mask.with_blocks(alloc)
    }
}

/// The rows of the child that the mask keeps. `Malformed` where it isn't as long.
fn filter_made(alloc: Global, child: Array, mask: Mask) -> Result<FilterArray, DocError>
    ensures column { Gives filter_column result (filter_made child (mask_bits mask)) }
    ensures mask { IfOk result (λ a. a.mask ≡ mask) }
{
    made(FilterArray::try_new(child.into_ref(alloc)?, mask))
}

/// What [`filter_by`] gives, as that layout: its mask keeps what finds its rows fast, beside what
/// the document lists of them, of which a column tells nothing.
#[tactic(auto, unfolding(crate::specs::Filter::filter_by, crate::specs::Filter::filter_kept))]
pub(crate) fn filter_array(
    alloc: Global,
    value: &Value,
    child: Array,
) -> Result<FilterArray, DocError>
    ensures column { Gives filter_column result (filter_by (view value.now) child) }
    ensures kept { IfOk result (λ a. filter_kept (view value.now) ≡ Some (partial_of a.mask)) }
{
    let object = if_closed(value, &["layout", "child", "mask"])?;
    let mask = mask_of(alloc, member(object, "mask")?)?;
    filter_made(alloc, child, with_ranks(alloc, mask)?)
}

/// The column of layout `Filter` that the value means, by the column that its member `child` means.
/// `Malformed` where there is no mask, the mask isn't as long, or there is another member.
pub fn filter_by(alloc: Global, value: &Value, child: Array) -> Result<Array, DocError>
    ensures { Gives (λ c. c) result (filter_by (view value.now) child) }
{
    Ok(filter_array(alloc, value, child)?.into_array())
}
