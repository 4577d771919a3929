//! A shared list of bits.
ghost use Rattle.std.specs.Prelude.{◌≡◌, ◌+◌, ◌-◌, ◌*◌, ◌/◌, ◌%◌, ◌^◌, ◌<◌, ◌≤◌, ◌↔◌, IsTrue, MatchOption, length, position, slice_index_or, slice_range, false};
ghost use Rattle.vx_bits.specs.BitBuffer.{IsLastSet, bit_fault, bits_of, number_of, true_count_of};
ghost use Rattle.vx_bits.specs.Results.{ok_unless};
ghost use Rattle.vx_bits.specs.Words.{word_at, word_bits};

use crate::buffer::Buffer;
use crate::words::{Words, eight_bytes};
use std::marker::Model;

/// Why bytes do not hold the bits that were asked for.
#[derive(Debug, Clone, Copy, PartialEq, Eq)]
pub enum BitError {
    /// The offset is above 7.
    Offset,
    /// The offset and the length pass `usize::MAX`, or the bits that the bytes have.
    Short,
}

/// A list of bits that is shared, not copied: Vortex's `BitBuffer`.
///
/// Clauses see the bits, and the offset of the first one in its byte. In each byte the least
/// significant bit comes first.
pub struct BitBuffer {
    bytes: Buffer<u8>,
    offset: usize,
    len: usize,
}

impl Model for BitBuffer {
    ghost use Rattle.std.specs.Prelude.{◌≡◌, length, None};
    ghost use Rattle.vx_bits.specs.BitBuffer.{PlacedBits, bit_fault, bits_of};

    ghost Value = { PlacedBits };

    ghost view = { λ b. record { bits = bits_of b.bytes b.offset b.len; offset = b.offset } };

    ghost invariant = { λ b. bit_fault (length b.bytes) b.offset b.len ≡ None };
}

impl Drop for BitBuffer {
    fn drop(self) {
        let BitBuffer {
            bytes,
            offset: _,
            len: _,
        } = self;
        drop(bytes)
    }
}

impl BitBuffer {
    /// The `len` bits of `bytes` from bit `offset` on.
    ///
    /// `Offset` exactly where the offset is above 7. Else `Short` exactly where `offset + len`
    /// passes `usize::MAX` or 8 times the number of bytes.
    pub fn try_new(bytes: Buffer<u8>, offset: usize, len: usize) -> Result<BitBuffer, BitError>
        ensures { result ≡ ok_unless (bit_fault (length bytes) offset len)
            (record { bits = bits_of bytes offset len; offset = offset }) }
    {
        if offset > 7 {
            return Err(BitError::Offset);
        }
        if !reaches(bytes.len(), offset, len) {
            return Err(BitError::Short);
        }
        Ok(BitBuffer { bytes, offset, len })
    }

    /// The first `len` bits of the bytes.
    pub(crate) fn from_start(bytes: Buffer<u8>, len: usize) -> BitBuffer
        requires { len ≤ 8 * length bytes }
        ensures { result ≡ record { bits = bits_of bytes 0 len; offset = 0 } }
    {
        BitBuffer {
            bytes,
            offset: 0,
            len,
        }
    }

    /// The number of bits.
    pub fn len(&self) -> usize
        ensures { result ≡ length self.now.bits }
    {
        self.len
    }

    /// Whether there is no bit.
    pub fn is_empty(&self) -> bool
        ensures { IsTrue result ↔ (length self.now.bits ≡ 0) }
    {
        self.len() == 0
    }

    /// Where the first bit lies in its byte, from the least significant bit on.
    pub fn offset(&self) -> usize
        ensures value { result ≡ self.now.offset }
        ensures below { result < 8 }
    {
        self.offset
    }

    /// Bit `i`.
    pub fn value(&self, i: usize) -> bool
        requires { i < length self.now.bits }
        ensures { result ≡ slice_index_or self.now.bits i false }
    {
        let place = self.offset + i;
        let bytes = self.bytes.as_slice();
        (bytes[place / 8] >> (place % 8)) & 1 == 1
    }

    /// The number of set bits.
    pub fn true_count(&self) -> usize
        ensures { result ≡ true_count_of self.now.bits }
    {
        count_between(self.bytes.as_slice(), self.offset, self.offset + self.len)
    }

    /// The number of set bits from `start` up to `end`, which it leaves out.
    pub fn count_range(&self, start: usize, end: usize) -> usize
        requires ordered { start ≤ end }
        requires within { end ≤ length self.now.bits }
        ensures { result ≡ true_count_of (slice_range self.now.bits start end) }
    {
        count_between(
            self.bytes.as_slice(),
            self.offset + start,
            self.offset + end,
        )
    }

    /// Word `i`: its bit k is bit `64 * i + k`, and zero past the end.
    #[inline]
    pub fn word(&self, i: usize) -> u64
        requires { i ≤ length self.now.bits / 64 }
        ensures { result ≡ word_at self.now.bits i }
    {
        self.words().word(i)
    }

    /// The words of these bits, for a loop over many.
    #[inline]
    pub fn words(&self) -> Words<'_>
        ensures { result ≡ self.now.bits }
    {
        Words::new(self.bytes.as_slice(), self.offset as u32, self.len)
    }

    /// The position of the first set bit. `None` exactly where no bit is set.
    pub fn first_set(&self) -> Option<usize>
        ensures { result ≡ position (λ bit. bit) self.now.bits }
    {
        for i in 0..self.len().div_ceil(64) {
            let word = self.word(i);
            if word != 0 {
                return Some(64 * i + word.trailing_zeros() as usize);
            }
        }
        None
    }

    /// The position of the last set bit. `None` exactly where no bit is set.
    pub fn last_set(&self) -> Option<usize>
        ensures { MatchOption result (true_count_of self.now.bits ≡ 0) (IsLastSet self.now.bits) }
    {
        let words = self.len().div_ceil(64);
        for passed in 0..words {
            let i = words - 1 - passed;
            let word = self.word(i);
            if word != 0 {
                return Some(64 * i + word.ilog2() as usize);
            }
        }
        None
    }

    /// The bits from `start` up to `end`, which it leaves out. The offset is that of its first bit
    /// in the first byte that it needs.
    pub fn slice(&self, start: usize, end: usize) -> BitBuffer
        requires ordered { start ≤ end }
        requires within { end ≤ length self.now.bits }
        ensures bits { result.bits ≡ slice_range self.now.bits start end }
        ensures offset { result.offset ≡ (self.now.offset + start) % 8 }
    {
        let first = self.offset + start;
        BitBuffer {
            bytes: self.bytes.slice(first / 8, self.bytes.len()),
            offset: first % 8,
            len: end - start,
        }
    }

    /// Another handle to the same bits, at the same offset.
    pub fn share(&self) -> BitBuffer
        ensures { result ≡ self.now }
    {
        BitBuffer {
            bytes: self.bytes.share(),
            offset: self.offset,
            len: self.len,
        }
    }
}

// How many of the bits from `start` up to `end` are set, by words and bytes where there are any.
fn count_between(bytes: &[u8], start: usize, end: usize) -> usize
    requires ordered { start ≤ end }
    requires within { end ≤ 8 * length bytes.now }
    ensures { result ≡ true_count_of (bits_of bytes.now start (end - start)) }
{
    let first = start.div_ceil(8);
    let last = end / 8;
    if first >= last {
        return count_bits(bytes, start, end);
    }
    let middle = first + (last - first) / 8 * 8;
    count_bits(bytes, start, 8 * first)
        + count_words(bytes, first, (last - first) / 8)
        + count_bytes(bytes, middle, last)
        + count_bits(bytes, 8 * last, end)
}

// How many of the bits from `start` up to `end` are set, counted bit by bit.
fn count_bits(bytes: &[u8], start: usize, end: usize) -> usize
    requires ordered { start ≤ end }
    requires within { end ≤ 8 * length bytes.now }
    ensures value { result ≡ true_count_of (bits_of bytes.now start (end - start)) }
    ensures bound { result ≤ end - start }
{
    let mut count = 0;
    for place in start..end {
        count += ((bytes[place / 8] >> (place % 8)) & 1) as usize;
    }
    count
}

// How many bits of so many times eight bytes from `first` on are set.
fn count_words(bytes: &[u8], first: usize, words: usize) -> usize
    requires within { first + 8 * words ≤ length bytes.now }
    requires counted { 8 * first + 64 * words < 2 ^ 64 }
    ensures value { result ≡ true_count_of (bits_of bytes.now (8 * first) (64 * words)) }
    ensures bound { result ≤ 64 * words }
{
    let mut count = 0;
    for k in 0..words {
        count += eight_bytes(bytes, first + 8 * k).count_ones() as usize;
    }
    count
}

// How many bits of the bytes from `first` up to `last` are set.
fn count_bytes(bytes: &[u8], first: usize, last: usize) -> usize
    requires ordered { first ≤ last }
    requires within { last ≤ length bytes.now }
    requires counted { 8 * last < 2 ^ 64 }
    ensures value { result ≡ true_count_of (bits_of bytes.now (8 * first) (8 * last - 8 * first)) }
    ensures bound { result ≤ 8 * last - 8 * first }
{
    let mut count = 0;
    for k in first..last {
        count += bytes[k].count_ones() as usize;
    }
    count
}

// Whether so many bytes have `len` bits from bit `offset` on.
fn reaches(byte_count: usize, offset: usize, len: usize) -> bool
    ensures { IsTrue result ↔ ((offset + len < 2 ^ 64) × (offset + len ≤ 8 * byte_count)) }
{
    match offset.checked_add(len) {
        Some(end) => end.div_ceil(8) <= byte_count,
        None => false,
    }
}
