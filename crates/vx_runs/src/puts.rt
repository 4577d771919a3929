//! Bits and bytes, written over others.
ghost use Rattle.std.specs.Int.{bit_at};
ghost use Rattle.std.specs.Prelude.{◌≡◌, ◌≢◌, ◌==◌, ℕ, ◌+◌, ◌<◌, ◌≤◌, ◌++◌, length, take, drop};

/// Returns the byte with bit `j`, which was clear.
#[inline(always)]
pub fn with_bit(byte: u8, j: usize, bit: bool) -> u8
    requires index { j < 8 }
    requires clear { bit_at byte j ≡ 0 }
    ensures set { (bit_at result j == 1) ≡ bit }
    ensures others { (i : ℕ) → i ≢ j → bit_at result i ≡ bit_at byte i }
{
    if bit { byte | (1 << j) } else { byte }
}

/// Writes `src` over the bytes from `at` on.
#[inline(always)]
pub fn put_bytes(bytes: &mut [u8], at: usize, src: &[u8])
    requires { at + length src.now ≤ length bytes.old }
    ensures { bytes.new ≡ take at bytes.old ++ (src.now ++ drop (at + length src.now) bytes.old) }
{
    bytes[at..at + src.len()].copy_from_slice(src);
}

// Writes B bytes over as many. They are written as an array, so that the compiler adds no test of
// overlap.
#[inline(always)]
fn fill<const B: usize>(bytes: &mut [u8], src: [u8; B])
    requires { length bytes.old ≡ B }
    ensures { bytes.new ≡ src.entry }
{
    let Some(out) = bytes.as_mut_array::<B>() else {
        return;
    };
    *out = src;
}

/// Writes B bytes over those from `at` on.
#[inline(always)]
pub fn put_array<const B: usize>(bytes: &mut [u8], at: usize, src: [u8; B])
    requires { at + B ≤ length bytes.old }
    ensures { bytes.new ≡ take at bytes.old ++ (src.entry ++ drop (at + B) bytes.old) }
{
    fill::<B>(&mut bytes[at..at + B], src);
}

/// Copies B bytes from `from` on to `at` on. They go through an array, so that the compiler adds
/// no test of overlap.
#[inline(always)]
pub fn put_block<const B: usize>(bytes: &mut [u8], at: usize, src: &[u8], from: usize)
    requires room { at + B ≤ length bytes.old }
    requires there { from + B ≤ length src.now }
    ensures { bytes.new
        ≡ take at bytes.old ++ (take B (drop from src.now) ++ drop (at + B) bytes.old) }
{
    if let Ok(block) = <[u8; B]>::try_from(&src[from..from + B]) {
        put_array::<B>(bytes, at, block);
    }
}

// Copies `count` bytes from `from` on to `at` on. It isn't inlined: in a loop its copies would take
// the registers of the other values.
#[inline(never)]
fn put_long(bytes: &mut [u8], at: usize, src: &[u8], from: usize, count: usize)
    requires room { at + count ≤ length bytes.old }
    requires there { from + count ≤ length src.now }
    ensures { take (at + count) bytes.new ≡ take at bytes.old ++ take count (drop from src.now) }
{
    bytes[at..at + count].copy_from_slice(&src[from..from + count]);
}

/// Copies `count` bytes from `from` on to `at` on. Bytes behind them may change: up to B bytes are
/// copied as a block of B, if source and target have bytes behind it. In a loop over one source and
/// target the ends of these blocks are computed once.
#[inline(always)]
pub fn put_run<const B: usize>(bytes: &mut [u8], at: usize, src: &[u8], from: usize, count: usize)
    requires room { at + count ≤ length bytes.old }
    requires there { from + count ≤ length src.now }
    ensures { take (at + count) bytes.new ≡ take at bytes.old ++ take count (drop from src.now) }
{
    if count <= B && from < src.len().saturating_sub(B) && at < bytes.len().saturating_sub(B) {
        put_block::<B>(bytes, at, src, from);
        return;
    }
    put_long(bytes, at, src, from, count);
}

/// Copies `count` bytes from `from` on to `at` on. Bytes behind them may change: up to 16 bytes are
/// copied as a block of 16, and up to 64 as a block of 64, if source and target have 64 bytes behind
/// them.
#[inline(always)]
pub fn put_text(bytes: &mut [u8], at: usize, src: &[u8], from: usize, count: usize)
    requires room { at + count ≤ length bytes.old }
    requires there { from + count ≤ length src.now }
    ensures { take (at + count) bytes.new ≡ take at bytes.old ++ take count (drop from src.now) }
{
    if from + count < src.len().saturating_sub(64) {
        if at + count < bytes.len().saturating_sub(64) {
            if count <= 16 {
                put_block::<16>(bytes, at, src, from);
                return;
            }
            if count <= 64 {
                put_block::<64>(bytes, at, src, from);
                return;
            }
        }
    }
    put_long(bytes, at, src, from, count);
}
