//! Counts of set bits, one for each 512 bits.
ghost use Rattle.std.specs.Prelude.{◌≡◌, IfOk};
ghost use Rattle.vx_mask.specs.Ranks.{blocks_of};

use std::alloc::Global;
use vx_bits::{BitBuffer, NoMemory};

/// For each multiple of 512 up to the length, the number of set bits before it.
pub(crate) fn counts_of(alloc: Global, bits: &BitBuffer) -> Result<Vec<usize>, NoMemory>
    ensures { IfOk result (λ blocks. blocks.items ≡ blocks_of bits.now.bits) }
{
    let last = bits.len() / 512;
    let mut blocks = Vec::with_capacity(alloc, last + 1)?;
    let mut count = 0;
    for b in 0..last {
        blocks.push(count)?;
        count += bits.count_range(512 * b, 512 * b + 512);
    }
    blocks.push(count)?;
    Ok(blocks)
}
