//! Packing numbers.
ghost use Rattle.std.specs.Prelude.{◌≡◌, ◌+◌, ◌-◌, ◌*◌, ◌/◌, ◌%◌, ◌^◌, ◌<◌, ◌≤◌, ◌++◌, true, IfOk, OnOk, length, vec_len, vec_capacity};
ghost use Rattle.std.specs.List.{All};
ghost use Rattle.vx_packed.specs.Chunk.{IsChunk, bytes_of, digits, field_bits, greatest, least, spell, spell_list};
ghost use Rattle.vx_packed.specs.Faults.{is_width};

use crate::extremes::{digits_of, greatest_of, least_of};
use std::alloc::Global;
use vx_bits::{NoMemory, put_eight};

/// The spelling of the values, chunk by chunk. Fails only with `NoMemory`.
///
/// `width` is how many bytes a value has.
pub fn pack(alloc: Global, values: &[u64], width: usize) -> Result<Vec<u8>, NoMemory>
    requires width { is_width width ≡ true }
    requires whole { length values.now % 1024 ≡ 0 }
    requires below { All (λ n. n < 2 ^ (8 * width)) values.now }
    ensures { IfOk result (λ v. v.items ≡ spell_list values.now) }
{
    let mut out = Vec::new(alloc);
    for k in 0..values.len() / 1024 {
        put_chunk(&mut out, &values[1024 * k..1024 * k + 1024])?;
    }
    Ok(out)
}

// Appends the spelling of a chunk.
fn put_chunk(out: &mut Vec<u8>, numbers: &[u64]) -> Result<(), NoMemory>
    requires { IsChunk 8 numbers.now }
    ensures { OnOk result (out.new.items ≡ out.old.items ++ spell numbers.now) }
{
    let base = least_of(numbers);
    let digits = digits_of(greatest_of(numbers) - base);
    out.reserve(9 + 128 * digits as usize)?;
    out.push_reserved(digits as u8);
    put_eight(out, base);
    put_offsets(out, numbers, base, digits);
    Ok(())
}

// Appends the lowest `digits` bits of each number less the base, by words.
fn put_offsets(out: &mut Vec<u8>, numbers: &[u64], base: u64, digits: u32)
    requires most { digits ≤ 64 }
    requires count { length numbers.now ≡ 1024 }
    requires base { base ≡ least numbers.now }
    requires digits { greatest numbers.now - base < 2 ^ digits }
    requires room { vec_len out.old + 128 * digits ≤ vec_capacity out.old }
    ensures { out.new.items ≡ out.old.items ++ bytes_of (field_bits base digits numbers.now) }
{
    let mut next = 0;
    let mut held = 0;
    for n in numbers {
        let offset = *n - base;
        next |= offset << held;
        held += digits;
        if held >= 64 {
            put_eight(out, next);
            held -= 64;
            next = rest_of(offset, digits - held);
        }
    }
}

// A number without its lowest bits, at least one of them.
#[inline(always)]
fn rest_of(n: u64, bits: u32) -> u64
    requires some { 1 ≤ bits }
    requires most { bits ≤ 64 }
    ensures { result ≡ n / 2 ^ bits }
{
    (n >> 1) >> (bits - 1)
}
