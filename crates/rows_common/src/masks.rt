//! Masks of a few rows, and of a run.
ghost use Rattle.std.specs.Prelude.{◌≡◌, ◌-◌, ◌&&◌, map, nat_le, nat_lt, IfOk};
ghost use Rattle.std.specs.List.{range_with_len};
ghost use Rattle.vx_mask.specs.Mask.{mask_bits};

use std::alloc::Global;
use vx_bits::{BitBuffer, NoMemory};
use vx_mask::Mask;

/// The mask of these bits.
pub fn mask_of(alloc: Global, bits: &[bool]) -> Result<Mask, NoMemory>
    ensures { IfOk result (λ m. mask_bits m ≡ bits.now) }
{
    Ok(Mask::from_buffer(BitBuffer::from_bools(alloc, bits)?))
}

// Whether row `n` is one of `count` from `start` on.
fn is_in_run(n: usize, start: usize, count: usize) -> bool
    ensures { result ≡ (nat_le start n && nat_lt (n - start) count) }
{
    start <= n && n - start < count
}

/// `len` rows, of which `count` are set, from `start` on.
pub fn mask_of_run(alloc: Global, len: usize, start: usize, count: usize) -> Result<Mask, NoMemory>
    ensures { IfOk result (λ m. mask_bits m
        ≡ map (λ n. nat_le start n && nat_lt (n - start) count) (range_with_len 0 len)) }
{
    let mut bits = Vec::with_capacity(alloc, len)?;
    for n in 0..len {
        bits.push(is_in_run(n, start, count))?;
    }
    mask_of(alloc, &bits)
}
