//! Fields of bits in bytes, read by words.
ghost use Rattle.std.specs.Prelude.{◌≡◌, ◌+◌, ◌*◌, ◌/◌, ◌%◌, ◌^◌, ◌<◌, ◌≤◌, length};
ghost use Rattle.vx_bits.specs.BitBuffer.{bits_of, number_of};
ghost use Rattle.vx_packed.specs.Faults.{fields};

use vx_bits::{eight_bytes, lowest_bits};

/// The number that `digits` bits from bit `place` on spell. The bytes are whole words, and the bits
/// lie in one of them or in two.
#[inline(always)]
pub(crate) fn field_from(body: &[u8], place: usize, digits: u32) -> u64
    requires most { digits ≤ 64 }
    requires whole { length body.now % 8 ≡ 0 }
    requires within { place + digits ≤ 8 * length body.now }
    ensures { result ≡ number_of (bits_of body.now place digits) }
{
    if digits == 0 {
        return 0;
    }
    let start = 8 * (place / 64);
    let shift = (place % 64) as u32;
    let low = eight_bytes(body, start);
    if shift + digits <= 64 {
        return lowest_bits(low >> shift, digits);
    }
    let high = eight_bytes(body, start + 8);
    lowest_bits((low >> shift) | (high << (64 - shift)), digits)
}

/// Writes the 1024 numbers that the bits spell, `digits` bits to each.
pub(crate) fn unpack(body: &[u8], digits: u32, dst: &mut [u64; 1024])
    requires most { digits ≤ 64 }
    requires whole { length body.now ≡ 128 * digits }
    ensures { dst.new ≡ fields body.now digits }
{
    for j in 0..1024 {
        dst[j] = field_from(body, j * digits as usize, digits);
    }
}
