//! Calls over steps.
ghost use Rattle.std.specs.Prelude.{◌≡◌, ◌≢◌, length, map};
ghost use Rattle.vortex_arrow_c.specs.Steps.{AreRefused, AreWritten};
ghost use Rattle.vx_arrow.specs.Answer.{AreMeant, HasNeed, IsRefusal, IsShort};
ghost use Rattle.vx_arrow.specs.Image.{step_parts};
ghost use Rattle.vx_arrow_columns.specs.Picks.{picking_of};
ghost use Rattle.vx_arrow_select.specs.Selected.{AreComposed};

use crate::answer::Answer;
use std::alloc::Global;
use vx_arrow::{Need, StepImage, compose, count};

/// Says how many picks the steps leave of `len` rows, and how many bytes of validity they need.
///
/// The status is 0, or that of [`vortex_arrow_compose`], but never 3.
#[unsafe(no_mangle)]
pub extern "C" fn vortex_arrow_count(
    alloc: Global,
    len: u64,
    steps: &[StepImage],
    need: &mut Need,
) -> Answer
    ensures meant { result.status ≡ 0 → AreMeant (map step_parts steps.now) }
    ensures need { result.status ≡ 0 → HasNeed len (map step_parts steps.now) need.new }
    ensures refused { result.status ≢ 0
        → AreRefused (IsRefusal len (map step_parts steps.now) (λ _. ⊥)) result }
    ensures kept { result.status ≢ 0 → need.new ≡ need.old }
{
    match count(alloc, len as usize, steps) {
        Ok(counted) => {
            *need = counted;
            Answer::done()
        }
        Err(refusal) => Answer::of_steps(refusal),
    }
}

/// Writes the picks that the steps leave of `len` rows: a place for each, 0 at a null, and a bit
/// for each, clear at a null, where a take may leave nulls.
///
/// | status | stands for |
/// |---|---|
/// | 0 | the picks are written |
/// | 3 | there is less room than `vortex_arrow_count` says |
/// | 5 | memory runs out |
/// | 6 | a step, whose number is told, breaks a rule, and `what` says which |
/// | 7 | a step's image has no meaning, and `what` is what it lacks |
///
/// The rule that a step breaks: 0 a slice's range, 1 a mask's length, 2 a filter that isn't of
/// bools, 3 indices that are no integers, 4 pieces that aren't sound, 5 an index out of bounds.
///
/// What an image lacks: 0 its kind, 1 its type, 2 a length that can be counted, 3 values,
/// 4 validity, 5 lengths, 6 multipliers.
///
/// From 3 on nothing is written.
#[unsafe(no_mangle)]
pub extern "C" fn vortex_arrow_compose(
    alloc: Global,
    len: u64,
    steps: &[StepImage],
    places: &mut [u64],
    valid: &mut [u8],
) -> Answer
    ensures meant { result.status ≡ 0 → AreMeant (map step_parts steps.now) }
    ensures written { result.status ≡ 0 → AreWritten len (map step_parts steps.now)
        places.old places.new valid.old valid.new }
    ensures composed { result.status ≡ 0 → HasNeed len (map step_parts steps.now)
        (record { places = length places.old; valid = length valid.old })
        → AreComposed len (map step_parts steps.now) (picking_of places.new valid.new 0) }
    ensures refused { result.status ≢ 0 → AreRefused (IsRefusal len (map step_parts steps.now)
        (IsShort len (map step_parts steps.now) (length places.old) (length valid.old))) result }
    ensures kept_places { result.status ≢ 0 → places.new ≡ places.old }
    ensures kept_valid { result.status ≢ 0 → valid.new ≡ valid.old }
{
    match compose(alloc, len as usize, steps, places, valid) {
        Ok(_) => Answer::done(),
        Err(refusal) => Answer::of_steps(refusal),
    }
}
