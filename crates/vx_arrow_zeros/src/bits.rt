//! Bits, a clear one at each null row and past the rows.
ghost use Rattle.std.specs.Prelude.{◌≡◌, ℕ, ◌<◌, ◌≤◌, bit_and, length, slice_index, true};
ghost use Rattle.vx_arrow_image.specs.Image.{is_valid};
ghost use Rattle.vx_arrow_zeros.specs.Zeros.{ClearsBits, byte_count, holds_bits};

/// Returns how many bytes the bits of so many rows have.
pub(crate) fn byte_count(rows: u64) -> u64
    ensures { result ≡ byte_count rows }
{
    rows.div_ceil(8)
}

/// Clears the bits of the last byte that are past the rows.
fn clear_past(bits: &mut [u8], rows: usize)
    requires { byte_count rows ≤ length bits.old }
    ensures { ClearsBits (λ _. true) rows bits.old bits.new }
{
    if rows % 8 == 0 {
        return;
    }
    bits[rows / 8] &= (1 << (rows % 8)) - 1;
}

/// Clears the bits of validity past the rows.
pub(crate) fn clear_validity(valid: &mut [u8], rows: usize)
    requires { holds_bits (length valid.old) rows ≡ true }
    ensures { ClearsBits (λ _. true) rows valid.old valid.new }
{
    if valid.is_empty() {
        return;
    }
    clear_past(valid, rows);
}

// Clears bits of the first `count` bytes where those of validity are clear.
fn keep_valid(valid: &[u8], count: usize, bits: &mut [u8])
    requires valid { count ≤ length valid.now }
    requires bits { count ≤ length bits.old }
    ensures kept { (k : ℕ) → k < count → slice_index bits.new k
        ≡ bit_and (slice_index bits.old k) (slice_index valid.now k) }
    ensures behind { (k : ℕ) → count ≤ k → slice_index bits.new k ≡ slice_index bits.old k }
{
    for k in 0..count {
        bits[k] &= valid[k];
    }
}

/// Clears the bits of null rows, and those past the rows.
pub(crate) fn clear_bits(valid: &[u8], rows: usize, bits: &mut [u8])
    requires valid { holds_bits (length valid.now) rows ≡ true }
    requires bits { byte_count rows ≤ length bits.old }
    ensures { ClearsBits (is_valid valid.now) rows bits.old bits.new }
{
    clear_past(bits, rows);
    if valid.is_empty() {
        return;
    }
    keep_valid(valid, byte_count(rows as u64) as usize, bits);
}
