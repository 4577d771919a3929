//! Rows that follow one another, as a word of bits.
ghost use Rattle.std.specs.Prelude.{◌≡◌, ◌+◌, ◌^◌, ◌<◌, ◌≤◌, count_ones, drop, length, replicate, take};
ghost use Rattle.vx_bits.specs.BitBuffer.{number_of};
ghost use Rattle.vx_bitfilter.specs.Pext.{pext};

use vx_bitfilter::pext_fallback;
use vx_bits::BitBuffer;

/// Of rows that follow one another, some and at most 64, which are true: a bit a row, the first one
/// lowest, and zeros above them.
#[derive(Clone, Copy)]
pub(crate) struct Stretch {
    pub(crate) word: u64,
    pub(crate) len: usize,
}

impl Stretch {
    /// The rows at the set bits.
    #[tactic(auto, using(crate::proofs::Stretches::full_picks))]
    pub(crate) fn picked(self, picks: u64) -> Stretch
        requires few { self.len ≤ 64 }
        requires word { self.word < 2 ^ self.len }
        requires picks { picks < 2 ^ self.len }
        ensures word { result.word ≡ pext self.word picks }
        ensures len { result.len ≡ count_ones picks }
    {
        let len = picks.count_ones() as usize;
        if len == self.len {
            return self;
        }
        Stretch {
            word: pext_fallback(self.word, picks),
            len,
        }
    }
}

/// `len` bits from bit `start` on, at most 64, the first one lowest, and zeros above them.
#[inline(always)]
pub(crate) fn word_from(bits: &BitBuffer, start: usize, len: usize) -> u64
    requires few { len ≤ 64 }
    requires within { start + len ≤ length bits.now.bits }
    ensures { result ≡ number_of (take len (drop start bits.now.bits)) }
{
    // The places are bounded by the length.
    let _ = bits.len();
    bits.slice(start, start + len).word(0)
}

/// So many bits that are all this one, and zeros above them.
#[tactic(auto, using(crate::proofs::Stretches::alike_bits))]
pub(crate) fn alike(bit: bool, len: usize) -> u64
    requires { len ≤ 64 }
    ensures { result ≡ number_of (replicate len bit) }
{
    if !bit {
        return 0;
    }
    if len == 64 { u64::MAX } else { (1 << len) - 1 }
}
