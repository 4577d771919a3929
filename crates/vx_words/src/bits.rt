//! Bits that words of the caller's hold, read from any of them on and written from the first one.
ghost use Rattle.std.specs.Prelude.{◌≡◌, ℕ, ◌+◌, ◌-◌, ◌*◌, ◌/◌, ◌%◌, ◌^◌, ◌<◌, ◌≤◌, ◌==◌, Bool, List, ◌++◌, false, length, drop, nat_le, slice_index_or, IfSome};
ghost use Rattle.vx_bits.specs.BitBuffer.{number_of};
ghost use Rattle.vx_bits.specs.Words.{word_at, word_count};
ghost use Rattle.vx_words.specs.Bits.{IsPacked, bits_at, words_of};

use std::marker::Model;

/// Whether the words hold so many bits from bit `offset` on.
pub(crate) fn hold(words: &[u64], offset: usize, len: usize) -> bool
    ensures { result ≡ nat_le (offset + len) (64 * length words.now) }
{
    offset as u128 + len as u128 <= 64 * words.len() as u128
}

/// The `len` bits from bit `offset` of the words on.
///
/// Clauses see the bits.
#[derive(Drop)]
pub(crate) struct Bits<'a> {
    words: &'a [u64],
    offset: usize,
    len: usize,
}

impl<'a> Model for Bits<'a> {
    ghost use Rattle.std.specs.Prelude.{◌+◌, ◌*◌, ◌≤◌, Bool, List, length};
    ghost use Rattle.vx_words.specs.Bits.{bits_at};

    ghost Value = { List Bool };

    ghost view = { λ b. bits_at b.words.now b.offset b.len };

    ghost invariant = { λ b. b.offset + b.len ≤ 64 * length b.words.now };
}

impl<'a> Bits<'a> {
    /// The `len` bits from bit `offset` of the words on.
    pub(crate) fn new(words: &'a [u64], offset: usize, len: usize) -> Bits<'a>
        requires { offset + len ≤ 64 * length words.now }
        ensures bits { result ≡ bits_at words.now offset len }
        ensures len { length result ≡ len }
    {
        Bits { words, offset, len }
    }

    /// These bits, where they begin with the words: then their offset is known to be 0.
    #[inline(always)]
    pub(crate) fn from_first(&self) -> Option<Bits<'a>>
        ensures { IfSome result (λ bits. bits ≡ self.now) }
    {
        if self.offset != 0 {
            return None;
        }
        Some(Bits {
            words: self.words,
            offset: 0,
            len: self.len,
        })
    }

    /// Another handle to the same bits.
    #[inline(always)]
    pub(crate) fn share(&self) -> Bits<'a>
        ensures { result ≡ self.now }
    {
        Bits {
            words: self.words,
            offset: self.offset,
            len: self.len,
        }
    }

    #[inline(always)]
    /// How many bits there are.
    pub(crate) fn len(&self) -> usize
        ensures { result ≡ length self.now }
    {
        self.len
    }

    /// Word `i` of the bits, and zeros past their end.
    #[inline(always)]
    pub(crate) fn word(&self, i: usize) -> u64
        requires { 64 * i < length self.now }
        ensures { result ≡ word_at self.now i }
    {
        let first = self.offset / 64 + i;
        let low = self.words[first];
        let high = if first + 1 < self.words.len() {
            self.words[first + 1]
        } else {
            0
        };
        let count = if i < self.len / 64 { 64 } else { self.len % 64 };
        cut(low, high, (self.offset % 64) as u32, count as u32)
    }

    /// Bit `index`, lowest, and what stands above it in its word.
    #[inline(always)]
    pub(crate) fn from_bit(&self, index: u64) -> u64
        requires { index < length self.now }
        ensures { (result % 2 == 1) ≡ slice_index_or self.now index false }
    {
        let place = self.offset as u128 + u128::from(index);
        self.words[(place / 64) as usize] >> (place % 64) as u32
    }
}

// The word of `count` bits of two words from bit `shift` on, and zeros.
#[inline(always)]
fn cut(low: u64, high: u64, shift: u32, count: u32) -> u64
    requires within { shift < 64 }
    requires short { count ≤ 64 }
    ensures { result ≡ (high * 2 ^ 64 + low) / 2 ^ shift % 2 ^ count }
{
    let word = moved_down(low, high, shift);
    if count < 64 { front(word, count) } else { word }
}

// The 64 bits of two words from bit `shift` on.
#[inline(always)]
fn moved_down(low: u64, high: u64, shift: u32) -> u64
    requires { shift < 64 }
    ensures { result ≡ (high * 2 ^ 64 + low) / 2 ^ shift % 2 ^ 64 }
{
    if shift == 0 {
        low
    } else {
        (high << (64 - shift)) | (low >> shift)
    }
}

// The lowest `count` bits of a word. Only a last word is cut, so it is no part of the loops.
#[inline(never)]
fn front(word: u64, count: u32) -> u64
    requires { count < 64 }
    ensures { result ≡ word % 2 ^ count }
{
    word & ((1 << count) - 1)
}

/// How many words are full, and the bits behind them, fewer than 64.
#[derive(Clone, Copy)]
pub(crate) struct Packed {
    pub(crate) full: usize,
    pub(crate) next: u64,
    pub(crate) held: u32,
}

impl Packed {
    /// No bit yet.
    pub(crate) fn new() -> Packed
        ensures full { result.full ≡ 0 }
        ensures next { result.next ≡ 0 }
        ensures held { result.held ≡ 0 }
    {
        Packed {
            full: 0,
            next: 0,
            held: 0,
        }
    }

    /// Appends the lowest `n` bits of a word that has no other ones. A word that is full then is
    /// written.
    #[inline(always)]
    pub(crate) fn append(self, dst: &mut [u64], word: u64, n: u32) -> Packed
        requires open { self.held < 64 }
        requires short { n ≤ 64 }
        requires room { 64 * self.full + self.held + n ≤ 64 * length dst.old }
        ensures packed { (bits more : List Bool)
            → IsPacked bits dst.old self.full self.next self.held
            → word ≡ number_of more
            → n ≡ length more
            → IsPacked (bits ++ more) dst.new result.full result.next result.held }
        ensures open { result.held < 64 }
        ensures count { 64 * result.full + result.held ≡ 64 * self.full + self.held + n }
        ensures rest { drop result.full dst.new ≡ drop result.full dst.old }
    {
        let low = low_word(self.next, self.held, word);
        let held = self.held + n;
        if held < 64 {
            return Packed {
                full: self.full,
                next: low,
                held,
            };
        }
        let next = past_word(self.held, word);
        dst[self.full] = low;
        Packed {
            full: self.full + 1,
            next,
            held: held - 64,
        }
    }

    /// Writes the bits behind the full words.
    pub(crate) fn close(self, dst: &mut [u64])
        requires open { self.held < 64 }
        requires room { 64 * self.full + self.held ≤ 64 * length dst.old }
        ensures { (bits : List Bool) → IsPacked bits dst.old self.full self.next self.held
            → dst.new ≡ words_of bits ++ drop (word_count (length bits)) dst.old }
    {
        if self.held == 0 {
            return;
        }
        dst[self.full] = self.next;
    }
}

// A word with `held` bits, and behind them the bits of another, as many as there is room for.
#[inline(always)]
fn low_word(next: u64, held: u32, more: u64) -> u64
    requires { held < 64 }
    ensures { result ≡ (more * 2 ^ held + next) % 2 ^ 64 }
{
    next.wrapping_add(more << held)
}

// The bits of the other word for which there was no room.
#[inline(always)]
fn past_word(held: u32, more: u64) -> u64
    requires { held < 64 }
    ensures { result ≡ more / 2 ^ (64 - held) }
{
    (more >> 1) >> (63 - held)
}
