//! A range of positions.
ghost use Rattle.std.specs.Prelude.{◌≡◌, ◌+◌, ◌-◌, ◌<◌, ◌≤◌};

/// The positions from `start` up to `end`, none of them beyond `bound`.
#[derive(Drop)]
pub(crate) struct Span {
    pub(crate) start: usize,
    pub(crate) end: usize,
    pub(crate) bound: usize,
    ghost ordered: { start ≤ end },
    ghost within: { end ≤ bound },
}

impl Span {
    /// The `i`th position.
    #[inline(always)]
    pub(crate) fn position(&self, i: usize) -> usize
        requires { i < self.now.end - self.now.start }
        ensures value { result ≡ self.now.start + i }
        ensures below { result < self.now.bound }
    {
        let _bounded = self.end;
        self.start + i
    }

    /// The positions of the range from its `start`th up to its `end`th.
    pub(crate) fn part(&self, start: usize, end: usize) -> Span
        requires ordered { start ≤ end }
        requires within { end ≤ self.now.end - self.now.start }
        ensures start { result.start ≡ self.now.start + start }
        ensures end { result.end ≡ self.now.start + end }
        ensures bound { result.bound ≡ self.now.bound }
    {
        Span {
            start: self.start + start,
            end: self.start + end,
            bound: self.bound,
        }
    }
}
