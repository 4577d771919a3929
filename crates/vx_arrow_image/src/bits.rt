//! Bits of bytes, the least significant of each byte first.
ghost use Rattle.std.specs.Prelude.{◌≡◌, ◌^◌, ◌<◌};
ghost use Rattle.vx_arrow_image.specs.Image.{bit_of, holds_valid, is_valid};

/// Bit `j`; a clear one past the bytes.
#[inline(always)]
pub fn bit_is(bytes: &[u8], j: usize) -> bool
    ensures { result ≡ bit_of bytes.now j }
{
    if j / 8 >= bytes.len() {
        return false;
    }
    (bytes[j / 8] >> (j % 8)) & 1 == 1
}

/// Whether row `j` is valid by these bits of validity; without any, each row is.
#[inline(always)]
pub fn is_there(valid: &[u8], j: usize) -> bool
    ensures { result ≡ is_valid valid.now j }
{
    if valid.is_empty() {
        true
    } else {
        bit_is(valid, j)
    }
}

/// Whether so many rows have a bit of validity each, if there are any.
pub fn holds_valid(valid: &[u8], end: u64) -> bool
    requires { end < 2 ^ 60 }
    ensures { result ≡ holds_valid valid.now end }
{
    valid.is_empty() || end.div_ceil(8) <= valid.len() as u64
}
