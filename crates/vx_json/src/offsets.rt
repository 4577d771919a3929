//! Bits that begin at a bit offset in their byte.
ghost use Rattle.std.specs.Prelude.{◌≡◌, ◌≤◌, IfOk, false, length, drop, replicate};

use std::alloc::Global;
use vx_bits::{BitBuffer, BitBuilder, NoMemory};

/// A builder with room for so many bits, in which as many clear bits stand as the offset says.
pub(crate) fn builder_at(alloc: Global, offset: usize, room: usize) -> Result<BitBuilder, NoMemory>
    ensures { IfOk result (λ b. b ≡ replicate offset false) }
{
    let mut bits = BitBuilder::with_capacity(alloc, room)?;
    bits.append_n(false, offset)?;
    Ok(bits)
}

/// The bits behind as many as the offset says, at that offset in their byte.
pub(crate) fn finished_at(bits: BitBuilder, offset: usize) -> Result<BitBuffer, NoMemory>
    requires small { offset ≤ 7 }
    requires within { offset ≤ length bits }
    ensures bits { IfOk result (λ b. b.bits ≡ drop offset bits) }
    ensures offset { IfOk result (λ b. b.offset ≡ offset) }
{
    let all = bits.finish()?;
    Ok(all.slice(offset, all.len()))
}
