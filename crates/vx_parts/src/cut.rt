//! A slice or a filter of the whole, cut into each part's own.
ghost use Rattle.std.specs.Prelude.{◌≡◌, ◌≤◌, IfOk, drop, length, map, slice_range, take};
ghost use Rattle.vx_bits.specs.BitBuffer.{true_count_of};
ghost use Rattle.vx_mask.specs.Mask.{mask_bits};
ghost use Rattle.vx_steps.specs.Step.{step_value};
ghost use Rattle.vx_parts.specs.Cuts.{IsCutOf, as_step, carried, carried_by, cut_value, cuts_of, from_take, own_cut, own_cuts};

use std::alloc::Global;
use vx_bits::NoMemory;
use vx_mask::Mask;
use vx_reading::mask_of;
use vx_steps::Step;

/// A step of the whole that is no take.
#[derive(Drop)]
pub(crate) enum Cut {
    // The rows from `start` up to `end`.
    Slice {
        // The first row.
        start: usize,
        // The row after the last one.
        end: usize,
    },
    // The rows at the mask's set positions.
    Filter(Mask),
}

// How many rows before a position a mask keeps.
fn count_before(mask: &Mask, position: usize) -> usize
    ensures { result ≡ true_count_of (take position (mask_bits mask.now)) }
{
    mask.true_before(position.min(mask.len()))
}

// The part of a mask from `low` up to `high`, as far as it goes.
fn mask_part(mask: &Mask, low: usize, high: usize) -> Mask
    ensures { mask_bits result ≡ slice_range (mask_bits mask.now) low high }
{
    let end = high.min(mask.len());
    let start = low.min(end);
    match mask {
        Mask::AllTrue(_) => Mask::AllTrue(end - start),
        Mask::AllFalse(_) => Mask::AllFalse(end - start),
        Mask::Values(values) => Mask::from_buffer(values.bits().slice(start, end)),
    }
}

impl Cut {
    // How many of the rows before a position are left.
    fn carried(&self, position: usize) -> usize
        ensures { result ≡ carried (cut_value self.now) position }
    {
        match self {
            Cut::Slice { start, end } => position.min(*end).saturating_sub(position.min(*start)),
            Cut::Filter(mask) => count_before(mask, position),
        }
    }

    // The step of the part from row `low` up to row `high`.
    fn own(&self, low: usize, high: usize) -> Step
        ensures { step_value result ≡ as_step (own_cut (cut_value self.now) low high) }
    {
        match self {
            Cut::Slice { start, end } => {
                let len = high.saturating_sub(low);
                Step::Slice {
                    start: start.saturating_sub(low).min(len),
                    end: end.saturating_sub(low).min(len),
                }
            }
            Cut::Filter(mask) => Step::Filter(mask_part(mask, low, high)),
        }
    }
}

/// How many of the rows before a position the steps leave.
pub(crate) fn carried_by(cuts: &[Cut], position: usize) -> usize
    ensures { result ≡ carried_by (map cut_value cuts.now) position }
{
    let mut left = position;
    for cut in cuts {
        left = cut.carried(left);
    }
    left
}

/// The steps, as those of the part from row `low` up to row `high`.
pub(crate) fn own_cuts(
    alloc: Global,
    cuts: &[Cut],
    low: usize,
    high: usize,
) -> Result<Vec<Step>, NoMemory>
    ensures { IfOk result (λ steps. map step_value steps.items
        ≡ map as_step (own_cuts (map cut_value cuts.now) low high)) }
{
    let mut steps = Vec::new(alloc);
    let mut start = low;
    let mut end = high;
    for cut in cuts {
        steps.push(cut.own(start, end))?;
        start = cut.carried(start);
        end = cut.carried(end);
    }
    Ok(steps)
}

/// The bounds of what the steps leave of parts.
pub(crate) fn left_bounds(
    alloc: Global,
    cuts: &[Cut],
    bounds: &[usize],
) -> Result<Vec<usize>, NoMemory>
    ensures { IfOk result
        (λ left. left.items ≡ map (carried_by (map cut_value cuts.now)) bounds.now) }
{
    let mut left = Vec::new(alloc);
    for bound in bounds {
        left.push(carried_by(cuts, *bound))?;
    }
    Ok(left)
}

// A step, to be cut into parts; none of a take. A mask is made ready to be counted up to any row.
fn cut_of(alloc: Global, step: &Step) -> Result<Option<Cut>, NoMemory>
    ensures { IfOk result (IsCutOf (step_value step.now)) }
{
    match step {
        Step::Slice { start, end } => Ok(Some(Cut::Slice {
            start: *start,
            end: *end,
        })),
        Step::Filter(mask) => Ok(Some(Cut::Filter(mask.with_blocks(alloc)?))),
        Step::FilterBy(column) => {
            let mask = mask_of(alloc, column.array())?;
            Ok(Some(Cut::Filter(mask.with_blocks(alloc)?)))
        }
        Step::Take(_) => Ok(None),
    }
}

/// The steps before the first take.
#[derive(Drop)]
pub(crate) struct Prefix {
    pub(crate) cuts: Vec<Cut>,
    // how many steps they are
    pub(crate) done: usize,
}

/// The steps before the first take, to be cut into parts.
pub(crate) fn prefix_of(alloc: Global, steps: &[Step]) -> Result<Prefix, NoMemory>
    ensures cuts { IfOk result
        (λ p. map cut_value p.cuts.items ≡ cuts_of (map step_value steps.now)) }
    ensures rest { IfOk result
        (λ p. map step_value (drop p.done steps.now) ≡ from_take (map step_value steps.now)) }
    ensures within { IfOk result (λ p. p.done ≤ length steps.now) }
{
    let mut cuts = Vec::new(alloc);
    for (done, step) in steps.iter().enumerate() {
        match cut_of(alloc, step)? {
            Some(cut) => cuts.push(cut)?,
            None => return Ok(Prefix { cuts, done }),
        }
    }
    Ok(Prefix {
        cuts,
        done: steps.len(),
    })
}
