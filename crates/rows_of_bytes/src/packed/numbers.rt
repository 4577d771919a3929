//! Numbers to pack, and sums that tell lists apart.
ghost use Rattle.std.specs.Prelude.{◌≡◌, ◌*◌, ◌^◌, ◌<◌, true};
ghost use Rattle.std.specs.Bool.{OnTrue};
ghost use Rattle.std.specs.List.{All};
ghost use Rattle.vx_packed.specs.Faults.{is_width};

use std::alloc::Global;
use std::test::Fail;
use vx_bits::NoMemory;
use vx_packed::pack;

/// 1024 numbers, the least of them `base`, whose offsets have just so many digits: number j is j
/// times 2^64 over the golden ratio, in its highest digits, and the last one has all digits set.
pub(crate) fn spread(alloc: Global, base: u64, digits: u32) -> Result<Vec<u64>, NoMemory> {
    let mut numbers = Vec::with_capacity(alloc, 1024)?;
    for j in 0u64..1023 {
        let offset = highest(j.wrapping_mul(0x9e37_79b9_7f4a_7c15), digits);
        numbers.push(base.wrapping_add(offset))?;
    }
    numbers.push(base.wrapping_add(highest(u64::MAX, digits)))?;
    Ok(numbers)
}

// The highest digits of a word.
fn highest(word: u64, digits: u32) -> u64 {
    if digits == 0 || digits > 64 {
        return 0;
    }
    word >> (64 - digits)
}

/// `base`, and the remainders of j by `modulus` added to it.
pub(crate) fn remainders(
    alloc: Global,
    base: u64,
    modulus: u64,
    len: u64,
) -> Result<Vec<u64>, NoMemory> {
    let mut numbers = Vec::new(alloc);
    for j in 0..len {
        numbers.push(base.wrapping_add(j.checked_rem(modulus).unwrap_or(0)))?;
    }
    Ok(numbers)
}

/// The sum of the items, each times its place from 1 on, modulo 2^64.
pub(crate) fn sum_of(numbers: &[u64]) -> u64 {
    let mut sum: u64 = 0;
    let mut place: u64 = 0;
    for n in numbers {
        place = place.wrapping_add(1);
        sum = sum.wrapping_add(place.wrapping_mul(*n));
    }
    sum
}

/// The sum of the bytes, each times its place from 1 on, modulo 2^64.
pub(crate) fn sum_of_bytes(bytes: &[u8]) -> u64 {
    let mut sum: u64 = 0;
    let mut place: u64 = 0;
    for byte in bytes {
        place = place.wrapping_add(1);
        sum = sum.wrapping_add(place.wrapping_mul(u64::from(*byte)));
    }
    sum
}

// Whether each number has at most so many bytes.
fn are_below(numbers: &[u64], width: usize) -> bool
    requires { is_width width ≡ true }
    ensures { OnTrue result (All (λ n. n < 2 ^ (8 * width)) numbers.now) }
{
    let most = u64::MAX >> (64 - 8 * width);
    for n in numbers {
        if *n > most {
            return false;
        }
    }
    true
}

/// The spelling of numbers that may be packed.
pub(crate) fn packed(alloc: Global, numbers: &[u64], width: usize) -> Result<Vec<u8>, Fail>
    requires { is_width width ≡ true }
{
    if numbers.len() % 1024 != 0 || !are_below(numbers, width) {
        return Err("numbers that can't be packed".into());
    }
    Ok(pack(alloc, numbers, width)?)
}
