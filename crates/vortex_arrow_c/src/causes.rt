//! Why a step is invalid, in numbers.
ghost use Rattle.std.specs.Prelude.{◌≡◌, ◌≢◌, ◌+◌, ⊤, Some, if◌then◌else◌, map, nat_lt, slice_get, unsigned_abs};
ghost use Rattle.vortex_arrow_c.specs.Causes.{AreCaused, capped, cause_answer, caused, indices_of, numbers, numbers_of, range_numbers, wide_at};
ghost use Rattle.vx_arrow.specs.Answer.{AreMeant, IfPicks, walk_in};
ghost use Rattle.vx_arrow.specs.Image.{step_parts};

use crate::answer::{BROKEN, DONE, LACKING, NO_MEMORY, ROOM, cause_code_of, step_code_of};
use std::alloc::Global;
use vx_arrow::{Cause, Refusal, StepImage, count};
use vx_bits::eight_bytes;

/// The numbers of an invalid step.
#[repr(C)]
#[derive(Clone, Copy)]
pub struct Numbers {
    /// The number that is wrong, or 0. Of a negative index, its distance from 0.
    pub found: u64,
    /// The number that it should be, or should not pass, or 0.
    pub bound: u64,
    /// 1 if `found` is of a negative index, and else 0.
    pub is_negative: u64,
}

/// A status, the step that it is about, why, and the numbers.
#[repr(C)]
#[derive(Clone, Copy)]
pub struct CauseAnswer {
    pub status: u64,
    pub step: u64,
    pub what: u64,
    pub numbers: Numbers,
}

// No numbers.
const NONE: Numbers = Numbers {
    found: 0,
    bound: 0,
    is_negative: 0,
};

// Number `offset + i` of a list of 64 bits each; 0 past its end.
fn wide_at(bytes: &[u8], offset: u64, i: u64) -> u64
    ensures { result ≡ wide_at bytes.now (offset + i) }
{
    let count = (bytes.len() / 8) as u64;
    if offset >= count || i >= count - offset {
        return 0;
    }
    eight_bytes(bytes, 8 * (offset + i) as usize)
}

// How many indices the ranges of a step have together, at most 2^64 - 1.
fn indices_of(step: &StepImage) -> u64
    ensures { result ≡ capped (indices_of (step_parts step.now)) }
{
    let mut sum = 0u64;
    for i in 0..step.len {
        sum = sum.saturating_add(wide_at(step.lengths, step.offset, i));
    }
    sum
}

// The distance of an index from 0, at most 2^64 - 1.
fn distance(index: i128) -> u64
    ensures { result ≡ capped (unsigned_abs index) }
{
    match u64::try_from(index.unsigned_abs()) {
        Ok(distance) => distance,
        Err(_) => u64::MAX,
    }
}

// The numbers of ranges that aren't valid.
fn range_numbers(step: &StepImage) -> Numbers
    ensures { result ≡ range_numbers (Some (step_parts step.now)) }
{
    let found = indices_of(step);
    if found == step.declared {
        return NONE;
    }
    Numbers {
        found,
        bound: step.declared,
        is_negative: 0,
    }
}

// The numbers of ranges that aren't valid, of a step by its number.
fn range_numbers_at(steps: &[StepImage], k: usize) -> Numbers
    ensures { result ≡ range_numbers (slice_get (map step_parts steps.now) k) }
{
    if k >= steps.len() {
        return NONE;
    }
    range_numbers(&steps[k])
}

// The numbers of an invalid slice.
fn slice_numbers(start: usize, end: usize, len: usize) -> Numbers
    ensures { result ≡ if nat_lt len end then numbers end len 0 else numbers start end 0 }
{
    let is_past = len < end;
    Numbers {
        found: if is_past { end as u64 } else { start as u64 },
        bound: if is_past { len as u64 } else { end as u64 },
        is_negative: 0,
    }
}

// The numbers of a step by its number.
fn numbers_of(steps: &[StepImage], k: usize, cause: Cause) -> Numbers
    ensures { result ≡ numbers_of (slice_get (map step_parts steps.now) k) cause }
{
    match cause {
        Cause::BadRange { start, end, len } => slice_numbers(start, end, len),
        Cause::BadMask { mask_len, len } => Numbers {
            found: mask_len as u64,
            bound: len as u64,
            is_negative: 0,
        },
        Cause::NotBool => NONE,
        Cause::InvalidIndices => NONE,
        Cause::BadPieces => range_numbers_at(steps, k),
        Cause::OutOfBounds { index, len } => Numbers {
            found: distance(index),
            bound: len as u64,
            is_negative: u64::from(index < 0),
        },
    }
}

impl CauseAnswer {
    // A status alone.
    fn plain(status: u64) -> CauseAnswer
        ensures { result ≡ caused status 0 0 (numbers 0 0 0) }
    {
        CauseAnswer {
            status,
            step: 0,
            what: 0,
            numbers: NONE,
        }
    }

    // Why steps are refused.
    fn of(steps: &[StepImage], refusal: Refusal) -> CauseAnswer
        ensures { result ≡ cause_answer (map step_parts steps.now) refusal }
    {
        match refusal {
            Refusal::Lacking(lacking) => CauseAnswer {
                status: LACKING,
                step: lacking.step as u64,
                what: step_code_of(lacking.lack),
                numbers: NONE,
            },
            Refusal::Broken { step, cause } => CauseAnswer {
                status: BROKEN,
                step: step as u64,
                what: cause_code_of(cause),
                numbers: numbers_of(steps, step, cause),
            },
            Refusal::Room(_) => CauseAnswer::plain(ROOM),
            Refusal::NoMemory => CauseAnswer::plain(NO_MEMORY),
        }
    }
}

/// Returns what `vortex_arrow_count` does, with the numbers of the first invalid step:
///
/// | `what` | `found` | `bound` |
/// |---|---|---|
/// | 0 a slice's range | its end | the rows before the step, which are fewer |
/// | 0, if the end is within the rows | its start | its end |
/// | 1 a mask's length | its length | the rows |
/// | 4 ranges that aren't valid | the indices that they have | those declared, if they differ |
/// | 5 an index out of bounds | its distance from 0 | the rows |
///
/// Other numbers are 0, and none is above 2^64 - 1.
#[unsafe(no_mangle)]
pub extern "C" fn vortex_arrow_cause(alloc: Global, len: u64, steps: &[StepImage]) -> CauseAnswer
    ensures meant { result.status ≡ 0 → AreMeant (map step_parts steps.now) }
    ensures unbroken { result.status ≡ 0
        → IfPicks (walk_in len (map step_parts steps.now)) (λ _. ⊤) }
    ensures caused { result.status ≢ 0 → AreCaused len (map step_parts steps.now) result }
{
    match count(alloc, len as usize, steps) {
        Ok(_) => CauseAnswer::plain(DONE),
        Err(refusal) => CauseAnswer::of(steps, refusal),
    }
}
