//! The picks that the steps so far leave.
ghost use Rattle.std.specs.Prelude.{◌≡◌, ◌≤◌, ◌<◌, None, IfOk, IfSome, IsSome, IsTrue, length, slice_index_or, slice_range};
ghost use Rattle.std.specs.List.{All, items_where_true};
ghost use Rattle.vx_types.specs.declared.nullability.Nullability.TheVariants.{NonNullable};
ghost use Rattle.vx_mask.specs.Mask.{mask_bits, partial_of};
ghost use Rattle.vx_take.specs.Picks.{at, item_at};
ghost use Rattle.vx_positions.specs.Positions.{AllThere};
ghost use Rattle.vx_pieces.specs.Indices.{index_fault, index_nullability, index_picks, index_value};
ghost use Rattle.vx_column.specs.Truth.{true_bits};
ghost use Rattle.vx_steps.specs.Step.{step_value};
ghost use Rattle.vx_steps.specs.Walk.{apply, broken};
ghost use Rattle.vx_steps.specs.Compose.{bound_of, picks_by_number, picks_in, range_picks, step_nullability};

use crate::span::Span;
use crate::step::Step;
use std::alloc::Global;
use vx_bits::NoMemory;
use vx_column::Array;
use vx_mask::Mask;
use vx_pieces::Indices;
use vx_reading::mask_of;
use vx_take::Picks;

/// Picks, as a range as long as slices alone made them.
#[derive(Drop)]
pub(crate) enum Composed {
    // Each position of a range.
    Range(Span),
    // Any picks.
    Listed(Picks),
}

impl Composed {
    /// How many picks there are.
    pub(crate) fn len(&self) -> usize
        ensures { result ≡ length (picks_in self.now) }
    {
        match self {
            Composed::Range(span) => span.end - span.start,
            Composed::Listed(picks) => picks.len(),
        }
    }

    // What each position is below.
    fn bound(&self) -> usize
        ensures { result ≡ bound_of self.now }
    {
        match self {
            Composed::Range(span) => span.bound,
            Composed::Listed(picks) => picks.bound(),
        }
    }

    // Pick `i`.
    #[inline(always)]
    fn get(&self, i: usize) -> Option<usize>
        requires { i < length (picks_in self.now) }
        ensures value { result ≡ slice_index_or (picks_in self.now) i None }
        ensures below { IfSome result (λ p. p < bound_of self.now) }
    {
        match self {
            Composed::Range(span) => Some(span.position(i)),
            Composed::Listed(picks) => picks.get(i),
        }
    }

    // The pick that a later pick names, and null at a null.
    #[inline(always)]
    fn looked_up(&self, later: Option<usize>) -> Option<usize>
        requires { IfSome later (λ i. i < length (picks_in self.now)) }
        ensures value { result ≡ item_at None (picks_in self.now) later }
        ensures below { IfSome result (λ p. p < bound_of self.now) }
    {
        match later {
            Some(i) => self.get(i),
            None => None,
        }
    }

    // Whether it is the range of all positions.
    fn is_whole(&self) -> bool
        ensures { IsTrue result → picks_in self.now ≡ range_picks 0 (bound_of self.now) }
    {
        match self {
            Composed::Range(span) => span.start == 0 && span.end == span.bound,
            Composed::Listed(_) => false,
        }
    }

    // The picks from number `start` up to `end`.
    fn part(&self, alloc: Global, start: usize, end: usize) -> Result<Picks, NoMemory>
        requires ordered { start ≤ end }
        requires within { end ≤ length (picks_in self.now) }
        ensures { IfOk result (λ p. p ≡ record {
          picks = slice_range (picks_in self.now) start end;
          bound = bound_of self.now;
        }) }
    {
        let mut part = Picks::with_capacity(alloc, self.bound(), end - start)?;
        for i in start..end {
            part.push(self.get(i))?;
        }
        Ok(part)
    }

    // The picks whose numbers these are.
    fn picks_by_number(&self, alloc: Global, numbers: &[usize]) -> Result<Picks, NoMemory>
        requires { All (λ i. i < length (picks_in self.now)) numbers.now }
        ensures { IfOk result (λ p. p ≡ record {
          picks = picks_by_number (picks_in self.now) numbers.now;
          bound = bound_of self.now;
        }) }
    {
        let mut named = Picks::with_capacity(alloc, self.bound(), numbers.len())?;
        for i in numbers {
            named.push(self.get(*i))?;
        }
        Ok(named)
    }

    // The picks that later picks name, and null at a null.
    fn each_looked_up(&self, alloc: Global, later: &Picks) -> Result<Picks, NoMemory>
        requires { later.now.bound ≤ length (picks_in self.now) }
        ensures { IfOk result (λ p. p ≡ record {
          picks = at None (picks_in self.now) later.now.picks;
          bound = bound_of self.now;
        }) }
    {
        let mut found = Picks::with_capacity(alloc, self.bound(), later.len())?;
        for i in 0..later.len() {
            found.push(self.looked_up(later.get(i)))?;
        }
        Ok(found)
    }

    // The picks that later picks name, and null at a null. The later picks, which are no longer
    // needed, are returned as they are where these picks are all positions.
    fn named_by(self, alloc: Global, later: Picks) -> Result<Picks, NoMemory>
        requires { later.bound ≡ length (picks_in self) }
        ensures { IfOk result (λ p. p ≡ record {
          picks = at None (picks_in self) later.picks;
          bound = bound_of self;
        }) }
    {
        // each is below the bound
        let _ = later.bound();
        if self.is_whole() {
            return Ok(later);
        }
        self.each_looked_up(alloc, &later)
    }

    // The picks from number `start` up to `end`. A range stays one, and allocates nothing.
    fn slice(self, alloc: Global, start: usize, end: usize) -> Result<Composed, NoMemory>
        requires ordered { start ≤ end }
        requires within { end ≤ length (picks_in self) }
        ensures picks { IfOk result (λ c. picks_in c ≡ slice_range (picks_in self) start end) }
        ensures bound { IfOk result (λ c. bound_of c ≡ bound_of self) }
    {
        match &self {
            Composed::Range(span) => Ok(Composed::Range(span.part(start, end))),
            Composed::Listed(_) => Ok(Composed::Listed(self.part(alloc, start, end)?)),
        }
    }

    // The picks at the set positions of a mask.
    fn filter(self, alloc: Global, mask: &Mask) -> Result<Composed, NoMemory>
        requires { length (mask_bits mask.now) ≡ length (picks_in self) }
        ensures picks { IfOk result
            (λ c. picks_in c ≡ items_where_true (mask_bits mask.now) (picks_in self)) }
        ensures bound { IfOk result (λ c. bound_of c ≡ bound_of self) }
    {
        match mask {
            Mask::AllTrue(_) => Ok(self),
            Mask::AllFalse(_) => Ok(Composed::Listed(Picks::new(alloc, self.bound()))),
            Mask::Values(_) => Ok(Composed::Listed(self.at_the_set(alloc, mask)?)),
        }
    }

    // The picks at which a column of bools is true.
    fn filter_by(self, alloc: Global, column: &Array) -> Result<Composed, NoMemory>
        requires { length column.now.rows ≡ length (picks_in self) }
        ensures picks { IfOk result
            (λ c. picks_in c ≡ items_where_true (true_bits column.now) (picks_in self)) }
        ensures bound { IfOk result (λ c. bound_of c ≡ bound_of self) }
    {
        let mask = mask_of(alloc, column)?;
        self.filter(alloc, &mask)
    }

    // The picks at the set positions of a mask that selects some and not all.
    fn at_the_set(&self, alloc: Global, mask: &Mask) -> Result<Picks, NoMemory>
        requires some { IsSome (partial_of mask.now) }
        requires long { length (mask_bits mask.now) ≡ length (picks_in self.now) }
        ensures { IfOk result (λ p. p ≡ record {
          picks = items_where_true (mask_bits mask.now) (picks_in self.now);
          bound = bound_of self.now;
        }) }
    {
        let listed = mask.with_indices(alloc)?;
        match listed.cached_indices() {
            Some(indices) => self.picks_by_number(alloc, indices),
            None => unreachable!(),
        }
    }

    // The picks that indices name, and null at a null.
    fn take(self, alloc: Global, indices: &Indices) -> Result<Composed, NoMemory>
        requires { index_fault (index_value indices.now) (length (picks_in self)) ≡ None }
        ensures picks { IfOk result
            (λ c. picks_in c ≡ at None (picks_in self) (index_picks (index_value indices.now))) }
        ensures bound { IfOk result (λ c. bound_of c ≡ bound_of self) }
        ensures there { IfOk result (λ c. index_nullability (index_value indices.now) ≡ NonNullable
            → AllThere (picks_in self) → AllThere (picks_in c)) }
    {
        let later = indices.picks(alloc, self.len())?;
        // each is below the bound
        let _ = later.bound();
        Ok(Composed::Listed(self.named_by(alloc, later)?))
    }

    /// The picks that one step more leaves, where it breaks no rule.
    pub(crate) fn after(self, alloc: Global, step: &Step) -> Result<Composed, NoMemory>
        requires { broken (step_value step.now) (length (picks_in self)) ≡ None }
        ensures picks { IfOk result
            (λ c. picks_in c ≡ apply None (step_value step.now) (picks_in self)) }
        ensures bound { IfOk result (λ c. bound_of c ≡ bound_of self) }
        ensures there { IfOk result (λ c. step_nullability (step_value step.now) ≡ NonNullable
            → AllThere (picks_in self) → AllThere (picks_in c)) }
    {
        match step {
            Step::Slice { start, end } => self.slice(alloc, *start, *end),
            Step::Filter(mask) => self.filter(alloc, mask),
            Step::FilterBy(column) => self.filter_by(alloc, column.array()),
            Step::Take(indices) => self.take(alloc, indices),
        }
    }

    /// The picks as a list.
    pub(crate) fn into_picks(self, alloc: Global) -> Result<Picks, NoMemory>
        ensures { IfOk result (λ p. p ≡ record { picks = picks_in self; bound = bound_of self }) }
    {
        match self {
            Composed::Range(_) => {
                let len = self.len();
                self.part(alloc, 0, len)
            }
            Composed::Listed(picks) => Ok(picks),
        }
    }

    /// The picks from number `start` up to `end`, as far as there are any, as a list.
    pub(crate) fn into_part(
        self,
        alloc: Global,
        start: usize,
        end: usize,
    ) -> Result<Picks, NoMemory>
        requires { start ≤ end }
        ensures { IfOk result (λ p. p ≡ record {
          picks = slice_range (picks_in self) start end;
          bound = bound_of self;
        }) }
    {
        let len = self.len();
        if start == 0 && len <= end {
            return self.into_picks(alloc);
        }
        self.part(alloc, start.min(len), end.min(len))
    }
}
