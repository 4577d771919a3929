//! The picks of a page, from the rows alone that it needs.
ghost use Rattle.std.specs.Prelude.{◌+◌, ◌-◌, ◌≡◌, ◌≤◌, ◌∷◌, List, Option, ℕ, IfErr, IfOk, None, OnOk, length, map, false, slice_range};
ghost use Rattle.std.specs.List.{list_any};
ghost use Rattle.vx_types.specs.declared.nullability.Nullability.TheVariants.{NonNullable};
ghost use Rattle.vx_bits.specs.BitBuffer.{true_count_of};
ghost use Rattle.vx_mask.specs.Mask.{mask_bits};
ghost use Rattle.vx_column.specs.Truth.{true_bits};
ghost use Rattle.vx_positions.specs.Positions.{AllThere};
ghost use Rattle.vx_steps.specs.Compose.{IsCounted, IsFaultOf, IsPartOf, IsUnbroken, takes_nullability};
ghost use Rattle.vx_steps.specs.Step.{slice_step, step_value};
ghost use Rattle.vx_steps.specs.Walk.{all_positions, apply, broken, rows_left, walk};
ghost use Rattle.vx_paging.specs.Needed.{IsPartBefore, Leaves, filters_back, is_take, left_of};

use std::alloc::Global;
use vx_bits::NoMemory;
use vx_column::Array;
use vx_mask::{Mask, Policy, mask_range, prepare_mask_for_reuse, slice_mask};
use vx_reading::mask_of;
use vx_steps::{SelectError, Step, check_steps, compose, compose_part};
use vx_take::Picks;

/// Who reads by the picks: Vortex's consumers of a mask.
#[derive(Clone, Copy)]
pub struct Readers<'a> {
    /// How many columns the same picks are taken from.
    pub columns: usize,
    /// The policy that says which masks get indices for them.
    pub policy: &'a Policy,
}

/// The rows from `start` up to `end`, and the masks that go over them, the last one first.
#[derive(Drop)]
struct Needed {
    start: usize,
    end: usize,
    masks: Vec<Mask>,
}

impl Needed {
    // What a slice from `start` on leaves them of.
    fn before_slice(self, start: usize, end: usize) -> Needed
        requires ordered { self.start ≤ self.end }
        requires within { self.end ≤ end - start }
        ensures start { result.start ≡ start + self.start }
        ensures end { result.end ≡ start + self.end }
        ensures masks { result.masks.items ≡ self.masks.items }
    {
        let Needed {
            start: low,
            end: high,
            masks,
        } = self;
        Needed {
            start: start + low,
            end: start + high,
            masks,
        }
    }

    // What a mask leaves them of.
    fn before_mask(self, alloc: Global, mask: &Mask, readers: Readers) -> Result<Needed, NoMemory>
        requires ordered { self.start ≤ self.end }
        requires within { self.end ≤ true_count_of (mask_bits mask.now) }
        ensures { IfOk result (λ n. IsPartBefore (mask_bits mask.now) self.start self.end
            n.start n.end self.masks.items n.masks.items) }
    {
        let Needed {
            start: low,
            end: high,
            mut masks,
        } = self;
        let (start, end) = mask_range(mask, low, high);
        let part = slice_mask(mask, start, end);
        masks.push(prepare_mask_for_reuse(alloc, &part, readers.columns, readers.policy)?)?;
        Ok(Needed { start, end, masks })
    }

    // What a column of bools leaves them of.
    fn before_column(
        self,
        alloc: Global,
        column: &Array,
        readers: Readers,
    ) -> Result<Needed, NoMemory>
        requires ordered { self.start ≤ self.end }
        requires within { self.end ≤ true_count_of (true_bits column.now) }
        ensures { IfOk result (λ n. IsPartBefore (true_bits column.now) self.start self.end
            n.start n.end self.masks.items n.masks.items) }
    {
        let mask = mask_of(alloc, column)?;
        self.before_mask(alloc, &mask, readers)
    }

    // What a step that is no take leaves them of.
    fn before(self, alloc: Global, step: &Step, readers: Readers) -> Result<Needed, NoMemory>
        requires cut { is_take (step_value step.now) ≡ false }
        requires ordered { self.start ≤ self.end }
        requires within { self.end ≤ rows_left (step_value step.now) }
        ensures { IfOk result (λ n. (items left : List (Option ℕ))
            → broken (step_value step.now) (length items) ≡ None
            → Leaves self.start self.end self.masks.items
            (apply None (step_value step.now) items) left
            → Leaves n.start n.end n.masks.items items left) }
    {
        match step {
            Step::Slice { start, end } => Ok(self.before_slice(*start, *end)),
            Step::Filter(mask) => self.before_mask(alloc, mask, readers),
            Step::FilterBy(column) => self.before_column(alloc, column.array(), readers),
            Step::Take(_) => unreachable!(),
        }
    }

    // A slice that leaves the rows, and then the filters.
    fn into_steps(self, alloc: Global) -> Result<Vec<Step>, NoMemory>
        ensures { IfOk result (λ steps. map step_value steps.items
            ≡ slice_step self.start self.end ∷ filters_back self.masks.items) }
    {
        let Needed {
            start,
            end,
            mut masks,
        } = self;
        let mut steps = Vec::new(alloc);
        steps.push(Step::Slice { start, end })?;
        for _ in 0..masks.len() {
            let Some(mask) = masks.pop() else {
                unreachable!()
            };
            steps.push(Step::Filter(mask))?;
        }
        Ok(steps)
    }
}

// Of `len` rows those that the rows from `start` up to `end` come from that the steps leave.
fn needed_by(
    alloc: Global,
    len: usize,
    steps: &[Step],
    start: usize,
    end: usize,
    readers: Readers,
) -> Result<Needed, NoMemory>
    requires unbroken { IsUnbroken (walk len (map step_value steps.now)) }
    requires cut { list_any is_take (map step_value steps.now) ≡ false }
    requires ordered { start ≤ end }
    requires within { end ≤ length (left_of len (map step_value steps.now)) }
    ensures { IfOk result (λ n. Leaves n.start n.end n.masks.items (all_positions len)
        (slice_range (left_of len (map step_value steps.now)) start end)) }
{
    let _rows = len;
    let mut needed = Needed {
        start,
        end,
        masks: Vec::new(alloc),
    };
    for i in 0..steps.len() {
        needed = needed.before(alloc, &steps[steps.len() - 1 - i], readers)?;
    }
    Ok(needed)
}

// Whether a step is a take.
fn is_take(step: &Step) -> bool
    ensures { result ≡ is_take (step_value step.now) }
{
    match step {
        Step::Take(_) => true,
        _ => false,
    }
}

// Whether one of the steps is.
fn has_take(steps: &[Step]) -> bool
    ensures { result ≡ list_any is_take (map step_value steps.now) }
{
    for step in steps {
        if is_take(step) {
            return true;
        }
    }
    false
}

/// Of the picks that the steps leave of `len` rows those from number `start` up to `end`, as far
/// as there are any. Where no step is a take, the last of these slices is brought to the front, so
/// that only the part of each mask that holds the page is composed. To find it, a rank reads the
/// mask's words up to its end, unless the mask keeps indices or block counts; a column of bools is
/// read whole.
///
/// Refuses as [`compose_part`] does.
pub fn page_picks(
    alloc: Global,
    len: usize,
    steps: &[Step],
    start: usize,
    end: usize,
    readers: Readers,
) -> Result<Picks, SelectError>
    requires { start ≤ end }
    ensures picks { IfOk result
        (λ p. IsPartOf (walk len (map step_value steps.now)) start end p.picks) }
    ensures there { IfOk result (λ p. takes_nullability (map step_value steps.now) ≡ NonNullable
        → AllThere p.picks) }
    ensures bound { IfOk result (λ p. p.bound ≡ len) }
    ensures counted { OnOk result (IsCounted (walk len (map step_value steps.now))) }
    ensures fault { IfErr result (IsFaultOf (walk len (map step_value steps.now))) }
{
    let count = check_steps(len, steps)?;
    if has_take(steps) {
        return compose_part(alloc, len, steps, start, end);
    }
    let needed = needed_by(alloc, len, steps, start.min(count), end.min(count), readers)?;
    compose(alloc, len, &needed.into_steps(alloc)?)
}
