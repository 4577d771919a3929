//! The words of bits that bytes hold.
ghost use Rattle.std.specs.Prelude.{◌≡◌, ◌+◌, ◌*◌, ◌/◌, ◌%◌, ◌^◌, ◌<◌, ◌≤◌, ◌++◌, None, drop, length, take, vec_capacity, vec_len};
ghost use Rattle.std.specs.Int.{from_le_bytes, to_le_bytes, w64};
ghost use Rattle.vx_bits.specs.BitBuffer.{bit_fault, bits_of, number_of};
ghost use Rattle.vx_bits.specs.Words.{word_at, word_bits};

use std::marker::Model;

/// The words of a `BitBuffer`, for a loop over many: each is read from the bytes alone.
///
/// Clauses see the bits.
#[derive(Drop)]
pub struct Words<'a> {
    bytes: &'a [u8],
    shift: u32,
    len: usize,
}

impl<'a> Model for Words<'a> {
    ghost use Rattle.std.specs.Prelude.{◌≡◌, Bool, List, None, length};
    ghost use Rattle.vx_bits.specs.BitBuffer.{bit_fault, bits_of};

    ghost Value = { List Bool };

    ghost view = { λ w. bits_of w.bytes.now w.shift w.len };

    ghost invariant = { λ w. bit_fault (length w.bytes.now) w.shift w.len ≡ None };
}

impl<'a> Words<'a> {
    /// The words of the `len` bits from bit `shift` of the bytes on.
    #[inline(always)]
    pub(crate) fn new(bytes: &'a [u8], shift: u32, len: usize) -> Words<'a>
        requires { bit_fault (length bytes.now) shift len ≡ None }
        ensures { result ≡ bits_of bytes.now shift len }
    {
        Words { bytes, shift, len }
    }

    /// Word `i`: its bit k is bit `64 * i + k`, and zero past the end.
    #[inline(always)]
    pub fn word(&self, i: usize) -> u64
        requires { i ≤ length self.now / 64 }
        ensures { result ≡ word_at self.now i }
    {
        if i < self.len / 64 {
            return word_from(self.bytes, 8 * i, self.shift);
        }
        last_word(self.bytes, 8 * i, self.shift, (self.len % 64) as u32)
    }
}

/// The word that eight bytes from `start` on spell, the lowest first.
#[inline(always)]
pub fn eight_bytes(bytes: &[u8], start: usize) -> u64
    requires { start + 8 ≤ length bytes.now }
    ensures value { result ≡ from_le_bytes w64 (take 8 (drop start bytes.now)) }
    ensures bits { word_bits result 64 ≡ bits_of bytes.now (8 * start) 64 }
{
    u64::from_le_bytes([
        bytes[start],
        bytes[start + 1],
        bytes[start + 2],
        bytes[start + 3],
        bytes[start + 4],
        bytes[start + 5],
        bytes[start + 6],
        bytes[start + 7],
    ])
}

/// Appends the eight bytes of a word, the lowest first. There is room for them.
#[inline(always)]
pub fn put_eight(bytes: &mut Vec<u8>, word: u64)
    requires { vec_len bytes.old + 8 ≤ vec_capacity bytes.old }
    ensures items { bytes.new.items ≡ bytes.old.items ++ to_le_bytes w64 word }
    ensures len { vec_len bytes.new ≡ vec_len bytes.old + 8 }
    ensures capacity { vec_capacity bytes.new ≡ vec_capacity bytes.old }
{
    let eight = word.to_le_bytes();
    bytes.push_reserved(eight[0]);
    bytes.push_reserved(eight[1]);
    bytes.push_reserved(eight[2]);
    bytes.push_reserved(eight[3]);
    bytes.push_reserved(eight[4]);
    bytes.push_reserved(eight[5]);
    bytes.push_reserved(eight[6]);
    bytes.push_reserved(eight[7]);
}

/// The lowest `n` bits of a word, and zero above them.
#[inline(always)]
pub fn lowest_bits(word: u64, n: u32) -> u64
    requires { n ≤ 64 }
    ensures { result ≡ word % 2 ^ n }
{
    if n == 64 { word } else { word & ((1 << n) - 1) }
}

// The 64 bits from bit `shift` of byte `start` on.
#[inline(always)]
fn word_from(bytes: &[u8], start: usize, shift: u32) -> u64
    requires below { shift < 8 }
    requires within { 8 * start + shift + 64 ≤ 8 * length bytes.now }
    ensures { word_bits result 64 ≡ bits_of bytes.now (8 * start + shift) 64 }
{
    let low = eight_bytes(bytes, start);
    if shift == 0 {
        return low;
    }
    (low >> shift) | (u64::from(bytes[start + 8]) << (64 - shift))
}

// The word of the `count` bits from bit `shift` of byte `start` on, and zeros.
#[inline(never)]
fn last_word(bytes: &[u8], start: usize, shift: u32, count: u32) -> u64
    requires below { shift < 8 }
    requires short { count < 64 }
    requires within { 8 * start + shift + count ≤ 8 * length bytes.now }
    requires counted { 8 * start + shift + count < 2 ^ 64 }
    ensures { result ≡ number_of (bits_of bytes.now (8 * start + shift) count) }
{
    if bytes.len() - start > 8 {
        return word_from(bytes, start, shift) & ((1 << count) - 1);
    }
    let mut word = 0;
    for k in 0..count {
        let place = 8 * start + shift as usize + k as usize;
        if (bytes[place / 8] >> (place % 8)) & 1 == 1 {
            word |= 1 << k;
        }
    }
    word
}
