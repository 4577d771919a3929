//! The bits of a word where few positions of a mask are clear.
ghost use Rattle.std.specs.Prelude.{◌≡◌};
ghost use Rattle.vx_bitfilter.specs.Pext.{pext};

/// The bits of `src` at the set positions of `mask`, packed from bit 0, and zero above them: a turn
/// for each clear position, the lowest first, into which all bits below it move up by one. So they
/// come to stand at the word's upper end.
#[inline(always)]
pub(crate) fn closed_up(src: u64, mask: u64) -> u64
    ensures { result ≡ pext src mask }
{
    if mask == 0 {
        return 0;
    }
    let mut packed = src & mask;
    let mut clear = !mask;
    for _ in 0..clear.count_ones() {
        let rest = clear & (clear - 1);
        let below = (clear - 1) - rest;
        packed += packed & below;
        clear = rest;
    }
    packed >> (64 - mask.count_ones())
}
