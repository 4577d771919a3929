//! Values of a fixed width, with zeros at null rows.
ghost use Rattle.std.specs.Int.{bit_at, to_le_bytes, w64};
ghost use Rattle.std.specs.Prelude.{◌≡◌, ℕ, ◌+◌, ◌-◌, ◌*◌, ◌^◌, ◌<◌, ◌≤◌, ◌++◌, ◌==◌, drop, if◌then◌else◌, length, replicate, slice_index, take, true};
ghost use Rattle.vx_arrow_image.specs.Image.{bit_of, is_valid};
ghost use Rattle.vx_arrow_zeros.specs.Zeros.{ClearsRows, holds_bits};

use vx_arrow_image::bit_is;
use vx_bits::eight_bytes;
use vx_runs::put_bytes;

// Writes zeros over `count` bytes from `start` on.
#[inline(always)]
fn zero(values: &mut [u8], start: usize, count: usize)
    requires { start + count ≤ length values.old }
    ensures { values.new
        ≡ take start values.old ++ (replicate count 0 ++ drop (start + count) values.old) }
{
    values[start..start + count].fill(0);
}

// Returns the word whose byte k is 255 where bit k is set, and 0 where it is clear.
#[inline(always)]
fn spread(bits: u8) -> u64
    ensures { (k : ℕ) → k < 8
        → slice_index (to_le_bytes w64 result) k ≡ (if bit_at bits k == 1 then 255 else 0) }
{
    let at = u64::from(bits).wrapping_mul(0x0101_0101_0101_0101) & 0x8040_2010_0804_0201;
    let high = (at + 0x7f7f_7f7f_7f7f_7f7f) & 0x8080_8080_8080_8080;
    (high >> 7) * 0xff
}

// Returns the eight bytes from `start` on as a word, with zeros at the clear bits.
#[inline(always)]
fn kept_word(bits: u8, values: &[u8], start: usize) -> u64
    requires { start + 8 ≤ length values.now }
    ensures { (k : ℕ) → k < 8 → slice_index (to_le_bytes w64 result) k
        ≡ (if bit_at bits k == 1 then slice_index values.now (start + k) else 0) }
{
    eight_bytes(values, start) & spread(bits)
}

// Clears the bytes at the clear bits, of eight from `start` on.
#[inline(always)]
fn keep_eight(bits: u8, values: &mut [u8], start: usize)
    requires { start + 8 ≤ length values.old }
    ensures { ClearsRows (λ k. bit_at bits k == 1) start 8 1 values.old values.new }
{
    let word = kept_word(bits, values, start);
    put_bytes(values, start, &word.to_le_bytes());
}

// Returns byte `b` of a word, the lowest first.
#[inline(always)]
fn byte_of(word: u64, b: usize) -> u8
    requires { b < 8 }
    ensures { (k : ℕ) → k < 8 → bit_at result k ≡ bit_at word (8 * b + k) }
{
    ((word >> (8 * b)) & 0xff) as u8
}

// Clears the bytes at the clear bits, of 64 from `start` on.
#[inline(always)]
fn keep_bytes(word: u64, values: &mut [u8], start: usize)
    requires { start + 64 ≤ length values.old }
    ensures { ClearsRows (λ k. bit_at word k == 1) start 64 1 values.old values.new }
{
    for b in 0..8 {
        keep_eight(byte_of(word, b), values, start + 8 * b);
    }
}

// Clears the rows at the clear bits one by one, of 64 rows from byte `start` on.
#[inline(always)]
fn clear_each(word: u64, width: usize, values: &mut [u8], start: usize)
    requires { start + 64 * width ≤ length values.old }
    ensures { ClearsRows (λ k. bit_at word k == 1) start 64 width values.old values.new }
{
    let mut left = !word;
    while left != 0 {
        let row = left.trailing_zeros();
        zero(values, start + row as usize * width, width);
        left &= !(1 << row);
    }
}

// Clears the rows at the clear bits, of 64 rows from byte `start` on.
#[inline(always)]
fn clear_word(word: u64, width: usize, values: &mut [u8], start: usize)
    requires { start + 64 * width ≤ length values.old }
    ensures { ClearsRows (λ k. bit_at word k == 1) start 64 width values.old values.new }
{
    if word == u64::MAX {
        return;
    }
    if word == 0 {
        zero(values, start, 64 * width);
    } else if width == 1 {
        keep_bytes(word, values, start);
    } else {
        clear_each(word, width, values, start);
    }
}

// Clears the rows of so many words of validity.
#[inline(always)]
fn clear_words(valid: &[u8], words: usize, width: usize, values: &mut [u8])
    requires valid { 8 * words ≤ length valid.now }
    requires values { 64 * words * width ≤ length values.old }
    requires counted { 64 * words < 2 ^ 64 }
    ensures { ClearsRows (bit_of valid.now) 0 (64 * words) width values.old values.new }
{
    for i in 0..words {
        clear_word(eight_bytes(valid, 8 * i), width, values, 64 * i * width);
    }
}

// Clears the row from byte `start` on, unless it is there.
#[inline(always)]
fn clear_unless(is_there: bool, width: usize, values: &mut [u8], start: usize)
    requires { start + width ≤ length values.old }
    ensures { ClearsRows (λ _. is_there) start 1 width values.old values.new }
{
    if !is_there {
        zero(values, start, width);
    }
}

// Clears the rows from `first` on whose bit of validity is clear, one by one.
#[inline(always)]
fn clear_rest(valid: &[u8], first: usize, rows: usize, width: usize, values: &mut [u8])
    requires ordered { first ≤ rows }
    requires values { rows * width ≤ length values.old }
    ensures { ClearsRows (λ k. bit_of valid.now (first + k)) (first * width) (rows - first) width
        values.old values.new }
{
    for k in first..rows {
        clear_unless(bit_is(valid, k), width, values, k * width);
    }
}

// Clears the rows whose bit of validity is clear.
#[inline(always)]
fn clear_all(valid: &[u8], rows: usize, width: usize, values: &mut [u8])
    requires valid { rows ≤ 8 * length valid.now }
    requires values { rows * width ≤ length values.old }
    ensures { ClearsRows (bit_of valid.now) 0 rows width values.old values.new }
{
    let words = rows / 64;
    clear_words(valid, words, width, values);
    clear_rest(valid, 64 * words, rows, width, values);
}

// Clears the rows whose bit of validity is clear. The compiler knows the width in all arms but the
// last.
fn clear_by_width(valid: &[u8], rows: usize, width: usize, values: &mut [u8])
    requires valid { rows ≤ 8 * length valid.now }
    requires values { rows * width ≤ length values.old }
    ensures { ClearsRows (bit_of valid.now) 0 rows width values.old values.new }
{
    match width {
        1 => clear_all(valid, rows, 1, values),
        2 => clear_all(valid, rows, 2, values),
        4 => clear_all(valid, rows, 4, values),
        8 => clear_all(valid, rows, 8, values),
        16 => clear_all(valid, rows, 16, values),
        _ => clear_all(valid, rows, width, values),
    }
}

/// Writes zeros over the rows whose bit of validity is clear. Without validity no row is null.
pub fn clear_rows(valid: &[u8], rows: usize, width: usize, values: &mut [u8])
    requires valid { holds_bits (length valid.now) rows ≡ true }
    requires values { rows * width ≤ length values.old }
    ensures { ClearsRows (is_valid valid.now) 0 rows width values.old values.new }
{
    if valid.is_empty() || width == 0 {
        return;
    }
    clear_by_width(valid, rows, width, values);
}
