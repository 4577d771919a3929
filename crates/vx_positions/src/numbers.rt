//! Lists of numbers, of which some may be missing.
ghost use Rattle.std.specs.Prelude.{◌≡◌, ◌<◌, None, length, true, slice_index_or};
ghost use Rattle.vx_types.specs.PType.{is_int, width};

use vx_types::PType;

/// A list of numbers, of which some may be missing.
pub trait Numbers {
    ghost use Rattle.std.specs.Prelude.{List, Option, ℤ, Bool};

    ghost numbers: { Self → List (Option ℤ) };

    // whether one may be missing
    ghost nullable: { Self → Bool };

    /// How many there are, missing ones too.
    fn len(&self) -> usize
        ensures { result ≡ length (numbers self.now) };

    /// The one at `i`.
    fn number(&self, i: usize) -> Option<i128>
        requires { i < length (numbers self.now) }
        ensures value { result ≡ slice_index_or (numbers self.now) i None }
        ensures missing { result ≡ None → nullable self.now ≡ true };
}

/// Records of an integer type, none of them missing.
#[derive(Clone, Copy)]
pub(crate) struct Present<'a, const W: usize> {
    pub(crate) ptype: PType,
    pub(crate) records: &'a [[u8; W]],
    ghost int: { is_int ptype ≡ true },
    ghost width: { W ≡ width ptype },
}

impl<const W: usize> Numbers for Present<'_, W> {
    ghost use Rattle.std.specs.Prelude.{false};
    ghost use Rattle.vx_positions.specs.Stored.{present_numbers};

    ghost numbers = { λ s. present_numbers s.ptype s.records.now };

    ghost nullable = { λ s. false };

    #[inline(always)]
    #[tactic(auto, using(crate::proofs::NumberLists::numbers))]
    fn len(&self) -> usize {
        self.records.len()
    }

    #[inline(always)]
    #[tactic(auto, using(crate::proofs::NumberLists::numbers))]
    fn number(&self, i: usize) -> Option<i128> {
        Some(self.ptype.number(&self.records[i]))
    }
}
