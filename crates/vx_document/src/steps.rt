//! Steps.
ghost use Rattle.std.specs.Prelude.{map};
ghost use Rattle.serde_json.specs.View.{view};
ghost use Rattle.vx_steps.specs.Step.{step_value};
ghost use Rattle.vx_json.specs.Meaning.{Gives};
ghost use Rattle.vx_document.specs.Steps.{slice_of, filter_seen, filter_by_of, take_of, kept_by, kept_of_steps, seen_of, step_seen, steps_of, without_mask};

use crate::columns::{column_of, flat_of};
use crate::documents::StepList;
use crate::indices::indices_of;
use serde_json::Value;
use std::alloc::Global;
use vx_json::{DocError, ReadItem, is_closed, items_in, mask_of, member, pair_of, read_each};
use vx_steps::Step;

#[tactic(auto, unfolding(crate::specs::Steps::slice_of))]
fn slice_of(value: &Value) -> Result<Step, DocError>
    ensures { Gives step_seen result (without_mask (slice_of (view value.now))) }
{
    let (start, end) = pair_of(member(value, "slice")?)?;
    Ok(Step::Slice { start, end })
}

#[tactic(auto, unfolding(crate::specs::Steps::filter_seen))]
fn filter_of(alloc: Global, value: &Value) -> Result<Step, DocError>
    ensures { Gives step_seen result (filter_seen (view value.now)) }
{
    Ok(Step::Filter(mask_of(alloc, member(value, "filter")?)?))
}

#[tactic(auto, unfolding(crate::specs::Steps::filter_by_of))]
fn filter_by_of(alloc: Global, value: &Value) -> Result<Step, DocError>
    ensures { Gives step_seen result (without_mask (filter_by_of (view value.now))) }
{
    let column = column_of(alloc, member(value, "filter_by")?)?;
    Ok(Step::FilterBy(flat_of(alloc, column)?))
}

#[tactic(auto, unfolding(crate::specs::Steps::take_of))]
fn take_of(alloc: Global, value: &Value) -> Result<Step, DocError>
    ensures { Gives step_seen result (without_mask (take_of (view value.now))) }
{
    Ok(Step::Take(indices_of(alloc, member(value, "take")?)?))
}

/// Reads a step.
#[derive(Clone, Copy)]
struct StepItem;

impl ReadItem for StepItem {
    ghost use Rattle.vx_document.specs.Steps.{StepSeen};

    type Out = Step;

    ghost Seen = { StepSeen };

    ghost seen = { λ s. step_seen s };

    ghost meaning = { λ _ d. seen_of d };

    #[tactic(auto, unfolding(crate::specs::Steps::seen_of))]
    fn read(&self, alloc: Global, value: &Value) -> Result<Step, DocError> {
        if is_closed(value, &["slice"]) {
            slice_of(value)
        } else if is_closed(value, &["filter"]) {
            filter_of(alloc, value)
        } else if is_closed(value, &["filter_by"]) {
            filter_by_of(alloc, value)
        } else if is_closed(value, &["take"]) {
            take_of(alloc, value)
        } else {
            Err(DocError::Malformed)
        }
    }
}

/// The list of steps that the value means. `Malformed` exactly where it means none, but that
/// `NoMemory` may come in place of any answer. The mask of a filter keeps what the value lists.
#[tactic(auto, unfolding(crate::specs::Steps::steps_of, crate::specs::Steps::kept_of_steps))]
pub fn steps_of(alloc: Global, value: &Value) -> Result<StepList, DocError>
    ensures steps { Gives (map step_value) result (steps_of (view value.now)) }
    ensures kept { Gives (map kept_by) result (kept_of_steps (view value.now)) }
{
    let steps = read_each(alloc, &StepItem, items_in(value)?)?;
    Ok(StepList::from_vec(steps))
}
