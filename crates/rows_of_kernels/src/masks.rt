//! Bits at an offset.
ghost use Rattle.std.specs.Prelude.{◌<◌};

use std::alloc::Global;
use vx_bits::{BitBuffer, BitBuilder, NoMemory};

/// So many bits that begin at bit `offset` of a byte, set where the position is a multiple of
/// `step`, or where it is none.
pub(crate) fn multiples(
    alloc: Global,
    offset: usize,
    len: usize,
    step: usize,
    set: bool,
) -> Result<BitBuffer, NoMemory>
    requires { 0 < step }
{
    let mut bits = BitBuilder::new(alloc);
    bits.append_n(true, offset)?;
    for i in 0..len {
        bits.append((i % step == 0) == set)?;
    }
    Ok(behind(&bits.finish()?, offset))
}

/// Runs of bits, the first `offset` bits left out.
pub(crate) fn runs(
    alloc: Global,
    offset: usize,
    runs: &[(bool, usize)],
) -> Result<BitBuffer, NoMemory> {
    let mut bits = BitBuilder::new(alloc);
    for (bit, count) in runs {
        bits.append_n(*bit, *count)?;
    }
    Ok(behind(&bits.finish()?, offset))
}

/// The bits from `offset` on.
fn behind(bits: &BitBuffer, offset: usize) -> BitBuffer {
    let end = bits.len();
    bits.slice(offset.min(end), end)
}
