//! The bits of a word at the set positions of another, packed.
ghost use Rattle.std.specs.Prelude.{◌≡◌};
ghost use Rattle.vx_bitfilter.specs.Pext.{pext};

use crate::closing::closed_up;

/// The bits of `src` at the set positions of `mask`, packed from bit 0, and zero above them:
/// Vortex's `pext_fallback`. It takes a turn for each set bit that is picked, for each clear one
/// that is, or for each that isn't picked, whichever are fewest: at most 21. What a single pick
/// packs to is how many set bits are picked.
#[inline]
pub fn pext_fallback(src: u64, mask: u64) -> u64
    ensures { result ≡ pext src mask }
{
    let picks = mask.count_ones();
    let set = (src & mask).count_ones();
    if picks <= 1 {
        return u64::from(set);
    }
    let clear = picks - set;
    let rest = 64 - picks;
    if set <= clear && set <= rest {
        return by_ranks(src, mask);
    }
    if clear <= rest {
        return (u64::MAX >> rest) - by_ranks(!src, mask);
    }
    closed_up(src, mask)
}

// A turn for each set bit that is picked, the lowest first: its place is the number of picks below
// it. `left - 1` has the bits below the lowest one in place of it.
#[inline(always)]
fn by_ranks(src: u64, mask: u64) -> u64
    ensures { result ≡ pext src mask }
{
    let mut packed: u64 = 0;
    let mut left = src & mask;
    for _ in 0..left.count_ones() {
        let rest = left & (left - 1);
        let below = (left - 1) - rest;
        packed |= 1 << (mask & below).count_ones();
        left = rest;
    }
    packed
}
