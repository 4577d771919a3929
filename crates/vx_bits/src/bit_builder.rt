//! A list of bits that grows.
ghost use Rattle.std.specs.Prelude.{◌≡◌, ◌+◌, ◌-◌, ◌*◌, ◌/◌, ◌%◌, ◌^◌, ◌<◌, ◌≤◌, [], ◌∷◌, ◌++◌, true, if◌then◌else◌, IfOk, OnOk, OnErr, length, replicate, slice_set, vec_len, vec_capacity};
ghost use Rattle.std.specs.Int.{to_le_bytes, w64};
ghost use Rattle.vx_bits.specs.Words.{word_bits};

use crate::bit_buffer::BitBuffer;
use crate::buffer::Buffer;
use crate::error::NoMemory;
use crate::words::{lowest_bits, put_eight};
use std::alloc::Global;
use std::marker::Model;

// The most whole bytes: with fewer than 64 bits behind them they are at most `usize::MAX` bits.
const MOST_BYTES: usize = 0x1fff_ffff_ffff_fff8;

// How many bytes alike are copied at once.
const BLOCK: usize = 256;

/// A list of bits that grows, and becomes a `BitBuffer`.
///
/// Clauses see the bits. A refused append leaves them as they were. More than `usize::MAX` bits
/// give `NoMemory`.
#[derive(Drop)]
pub struct BitBuilder {
    alloc: Global,
    bytes: Vec<u8>,
    next: u64,
    held: u32,
}

impl Model for BitBuilder {
    ghost use Rattle.std.specs.Prelude.{Bool, List, vec_len};
    ghost use Rattle.vx_bits.specs.BitBuilder.{IsBuilder, builder_bits};

    ghost Value = { List Bool };

    ghost view = { λ b. builder_bits b.bytes.items b.next b.held };

    ghost invariant = { λ b. IsBuilder (vec_len b.bytes) b.next b.held };
}

impl BitBuilder {
    /// No bit yet.
    pub fn new(alloc: Global) -> BitBuilder
        ensures { result ≡ [] }
    {
        BitBuilder {
            alloc,
            bytes: Vec::new(alloc),
            next: 0,
            held: 0,
        }
    }

    /// No bit yet, and room for so many. Fails only with `NoMemory`.
    pub fn with_capacity(alloc: Global, bits: usize) -> Result<BitBuilder, NoMemory>
        ensures { IfOk result (λ b. b ≡ []) }
    {
        Ok(BitBuilder {
            alloc,
            bytes: Vec::with_capacity(alloc, 8 * (bits / 64) + 8)?,
            next: 0,
            held: 0,
        })
    }

    /// The number of bits.
    pub fn len(&self) -> usize
        ensures { result ≡ length self.now }
    {
        8 * self.bytes.len() + self.held as usize
    }

    /// Appends a bit. Fails only with `NoMemory`.
    pub fn append(&mut self, bit: bool) -> Result<(), NoMemory>
        ensures ok { OnOk result (self.new ≡ self.old ++ bit ∷ []) }
        ensures err { OnErr result (self.new ≡ self.old) }
    {
        self.append_word(word_alike(bit), 1)
    }

    /// Appends a bit `n` times over. Fails only with `NoMemory`.
    pub fn append_n(&mut self, bit: bool, n: usize) -> Result<(), NoMemory>
        ensures ok { OnOk result (self.new ≡ self.old ++ replicate n bit) }
        ensures err { OnErr result (self.new ≡ self.old) }
    {
        let word = word_alike(bit);
        if n <= 64 {
            return self.append_word(word, n);
        }
        let room = 64 - self.held as usize;
        let first = low_half(joined(self.next, self.held, lowest_bits(word, room as u32)));
        push_words(&mut self.bytes, first, byte_alike(bit), (n - room) / 64)?;
        let rest = ((n - room) % 64) as u32;
        self.next = lowest_bits(word, rest);
        self.held = rest;
        Ok(())
    }

    /// Appends the lowest `n` bits of the word, the lowest first. Fails only with `NoMemory`.
    #[inline]
    pub fn append_word(&mut self, word: u64, n: usize) -> Result<(), NoMemory>
        requires { n ≤ 64 }
        ensures ok { OnOk result (self.new ≡ self.old ++ word_bits word n) }
        ensures err { OnErr result (self.new ≡ self.old) }
    {
        let all = joined(self.next, self.held, lowest_bits(word, n as u32));
        let held = self.held + n as u32;
        if held < 64 {
            self.next = low_half(all);
            self.held = held;
            return Ok(());
        }
        push_word(&mut self.bytes, low_half(all))?;
        self.next = high_half(all);
        self.held = held - 64;
        Ok(())
    }

    /// Turns bit `i` on.
    #[inline]
    pub fn set(&mut self, i: usize)
        requires { i < length self.old }
        ensures { self.new ≡ slice_set self.old i true }
    {
        let whole = 8 * self.bytes.len();
        if i < whole {
            self.bytes[i / 8] |= 1 << (i % 8);
        } else {
            self.next |= 1 << (i - whole);
        }
    }

    /// The bits, the first one at offset 0. Fails only with `NoMemory`.
    pub fn finish(self) -> Result<BitBuffer, NoMemory>
        ensures { IfOk result (λ b. b ≡ record { bits = self; offset = 0 }) }
    {
        let len = self.len();
        let BitBuilder {
            alloc,
            mut bytes,
            next,
            held: _,
        } = self;
        bytes.reserve(8)?;
        put_eight(&mut bytes, next);
        Ok(BitBuffer::from_start(Buffer::from_vec(alloc, bytes)?, len))
    }
}

// The word whose bits are all this one.
#[inline(always)]
fn word_alike(bit: bool) -> u64
    ensures { result ≡ (if bit then 2 ^ 64 - 1 else 0) }
{
    if bit { u64::MAX } else { 0 }
}

// The byte whose bits are all this one.
#[inline(always)]
fn byte_alike(bit: bool) -> u8
    ensures { result ≡ (if bit then 255 else 0) }
{
    if bit { 0xff } else { 0 }
}

// A word with `held` bits, and behind them the bits of another.
#[inline(always)]
fn joined(next: u64, held: u32, more: u64) -> u128
    requires open_word { held < 64 }
    requires clean { next < 2 ^ held }
    ensures { result ≡ more * 2 ^ held + next }
{
    u128::from(next) | (u128::from(more) << (held % 64))
}

#[inline(always)]
fn low_half(x: u128) -> u64
    ensures { result ≡ x % 2 ^ 64 }
{
    (x & 0xffff_ffff_ffff_ffff) as u64
}

#[inline(always)]
fn high_half(x: u128) -> u64
    ensures { result ≡ x / 2 ^ 64 }
{
    (x >> 64) as u64
}

// Appends the eight bytes of a word, the lowest first, as long as the bits are not too many.
#[inline(always)]
fn push_word(bytes: &mut Vec<u8>, word: u64) -> Result<(), NoMemory>
    ensures ok { OnOk result (bytes.new.items ≡ bytes.old.items ++ to_le_bytes w64 word) }
    ensures err { OnErr result (bytes.new.items ≡ bytes.old.items) }
    ensures counted { OnOk result (vec_len bytes.new + 8 ≤ 2 ^ 61) }
{
    if bytes.len() > MOST_BYTES - 8 {
        return Err(NoMemory);
    }
    bytes.reserve(8)?;
    put_eight(bytes, word);
    Ok(())
}

// Appends the eight bytes of a word, the lowest first, and behind them `8 * words` copies of a
// byte.
fn push_words(bytes: &mut Vec<u8>, first: u64, byte: u8, words: usize) -> Result<(), NoMemory>
    requires before { vec_len bytes.old + 8 ≤ 2 ^ 61 }
    requires more { words < 2 ^ 58 }
    ensures ok { OnOk result (bytes.new.items
        ≡ (bytes.old.items ++ to_le_bytes w64 first) ++ replicate (8 * words) byte) }
    ensures err { OnErr result (bytes.new.items ≡ bytes.old.items) }
    ensures counted { OnOk result (vec_len bytes.new + 8 ≤ 2 ^ 61) }
{
    let more = 8 * words + 8;
    if bytes.len() + more > MOST_BYTES {
        return Err(NoMemory);
    }
    bytes.reserve(more)?;
    put_eight(bytes, first);
    put_alike(bytes, byte, 8 * words);
    Ok(())
}

// Appends a byte so many times, a block at a time.
fn put_alike(bytes: &mut Vec<u8>, byte: u8, n: usize)
    requires { vec_len bytes.old + n ≤ vec_capacity bytes.old }
    ensures items { bytes.new.items ≡ bytes.old.items ++ replicate n byte }
    ensures len { vec_len bytes.new ≡ vec_len bytes.old + n }
{
    let block = [byte; BLOCK];
    for k in 0..n / BLOCK {
        let Ok(()) = bytes.extend_from_slice(&block) else {
            unreachable!();
        };
    }
    let Ok(()) = bytes.extend_from_slice(&block[..n % BLOCK]) else {
        unreachable!();
    };
}
