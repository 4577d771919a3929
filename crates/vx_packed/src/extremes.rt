//! The least and the greatest of numbers, and how many digits they have.
ghost use Rattle.std.specs.Prelude.{◌≡◌, ◌+◌, ◌^◌, ◌<◌, ◌≤◌, length, map};
ghost use Rattle.vx_packed.specs.Chunk.{digits, greatest, least};

/// The least of the numbers.
pub(crate) fn least_of(numbers: &[u64]) -> u64
    requires { 0 < length numbers.now }
    ensures { result ≡ least numbers.now }
{
    let mut low = numbers[0];
    for n in numbers {
        low = low.min(*n);
    }
    low
}

/// The greatest of the numbers.
pub(crate) fn greatest_of(numbers: &[u64]) -> u64
    requires { 0 < length numbers.now }
    ensures { result ≡ greatest numbers.now }
{
    let mut high = numbers[0];
    for n in numbers {
        high = high.max(*n);
    }
    high
}

/// How many binary digits a number has.
#[inline(always)]
pub(crate) fn digits_of(n: u64) -> u32
    ensures { result ≡ digits n }
{
    64 - n.leading_zeros()
}

/// Writes each offset, and the base added to it.
pub(crate) fn put_added(offsets: &[u64; 1024], base: u64, dst: &mut [u64; 1024])
    requires { base + greatest offsets.now < 2 ^ 64 }
    ensures { dst.new ≡ map (λ n. base + n) offsets.now }
{
    for i in 0..1024 {
        dst[i] = base + offsets[i];
    }
}
