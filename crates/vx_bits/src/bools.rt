//! Bits from a slice of `bool`: 64 to a word, and a word to a builder.
ghost use Rattle.std.specs.Prelude.{◌≡◌, ◌+◌, ◌≤◌, IfOk, length, take, drop};
ghost use Rattle.vx_bits.specs.BitBuffer.{number_of};

use crate::bit_buffer::BitBuffer;
use crate::bit_builder::BitBuilder;
use crate::error::NoMemory;
use std::alloc::Global;

impl BitBuffer {
    /// The bits of a slice of `bool`, the first one at offset 0. Fails only with `NoMemory`.
    pub fn from_bools(alloc: Global, bits: &[bool]) -> Result<BitBuffer, NoMemory>
        ensures { IfOk result (λ b. b ≡ record { bits = bits.now; offset = 0 }) }
    {
        let mut builder = BitBuilder::with_capacity(alloc, bits.len())?;
        let words = bits.len() / 64;
        for i in 0..words {
            builder.append_word(whole_word(&bits[64 * i..64 * i + 64]), 64)?;
        }
        let rest = &bits[64 * words..];
        builder.append_word(bit_by_bit(rest), rest.len())?;
        builder.finish()
    }
}

// The word of these bits, the first one lowest, by eight at once.
fn whole_word(bits: &[bool]) -> u64
    requires { length bits.now ≡ 64 }
    ensures { result ≡ number_of bits.now }
{
    let mut word = 0;
    for k in 0..8 {
        word |= u64::from(byte_of(bits, 8 * k)) << (8 * k);
    }
    word
}

// The byte of the eight bits from `start` on. The product brings bit k of the first byte, which
// stands at 8 * k, to 56 + k.
#[inline(always)]
fn byte_of(bits: &[bool], start: usize) -> u8
    requires { start + 8 ≤ length bits.now }
    ensures { result ≡ number_of (take 8 (drop start bits.now)) }
{
    let spread = u64::from_le_bytes([
        u8::from(bits[start]),
        u8::from(bits[start + 1]),
        u8::from(bits[start + 2]),
        u8::from(bits[start + 3]),
        u8::from(bits[start + 4]),
        u8::from(bits[start + 5]),
        u8::from(bits[start + 6]),
        u8::from(bits[start + 7]),
    ]);
    (spread.wrapping_mul(0x0102_0408_1020_4080) >> 56) as u8
}

// The word of at most 64 bits, read one by one, with zeros above them.
fn bit_by_bit(bits: &[bool]) -> u64
    requires { length bits.now ≤ 64 }
    ensures { result ≡ number_of bits.now }
{
    let mut word = 0;
    for (k, bit) in bits.iter().enumerate() {
        if *bit {
            word |= 1 << k;
        }
    }
    word
}
