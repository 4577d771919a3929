//! Lists of bits that are read word by word.
ghost use Rattle.std.specs.Prelude.{◌≡◌, ℕ, ◌+◌, ◌/◌, ◌≤◌, Bool, List, [], ◌∷◌, Option, IfOk, length};
ghost use Rattle.vx_bits.specs.WordReader.{Counted, then_told};
ghost use Rattle.vx_bits.specs.Words.{word_at};

use crate::bit_buffer::BitBuffer;
use crate::error::NoMemory;
use std::alloc::Global;
use std::marker::Model;

/// Reads a list of bits by words. No read fails, and each costs at most one of `spare`.
pub trait WordReader {
    // the bits
    ghost bits: { Self → List Bool };

    // the numbers of the words that were read, where they are recorded
    ghost reads: { Self → Option (List ℕ) };

    // how many words may still be read
    ghost spare: { Self → ℕ };

    /// The number of bits.
    fn len(&self) -> usize
        ensures { result ≡ length (bits self.now) };

    /// Word `i`: its bit k is bit `64 * i + k`, and zero past the end.
    fn word(&mut self, i: usize) -> u64
        requires within { i ≤ length (bits self.old) / 64 }
        requires left { 1 ≤ spare self.old }
        ensures value { result ≡ word_at (bits self.old) i }
        ensures same { bits self.new ≡ bits self.old }
        ensures told { reads self.new ≡ then_told (reads self.old) (i ∷ []) }
        ensures cost { spare self.old ≤ spare self.new + 1 };
}

/// Reads the words of a bit buffer and tells no reads. It may read as often as it is asked.
///
/// Clauses see the bits.
#[derive(Drop)]
pub struct PlainWords {
    buffer: BitBuffer,
}

impl Model for PlainWords {
    ghost use Rattle.std.specs.Prelude.{Bool, List};

    ghost Value = { List Bool };

    ghost view = { λ w. w.buffer.bits };
}

impl PlainWords {
    /// A reader of these bits.
    pub fn new(bits: BitBuffer) -> PlainWords
        ensures { result ≡ bits.bits }
    {
        PlainWords { buffer: bits }
    }
}

impl WordReader for PlainWords {
    ghost use Rattle.std.specs.Prelude.{◌-◌, ◌^◌, None};

    ghost bits = { λ w. w };

    ghost reads = { λ _. None };

    ghost spare = { λ _. 2 ^ 64 - 1 };

    fn len(&self) -> usize {
        self.buffer.len()
    }

    fn word(&mut self, i: usize) -> u64 {
        self.buffer.word(i)
    }
}

/// Reads the words of a bit buffer and keeps their numbers, as many as it has room for.
///
/// Clauses see the bits, the numbers of the words that were read, and the room that is left.
#[derive(Drop)]
pub struct CountedWords {
    buffer: BitBuffer,
    numbers: Vec<usize>,
    room: usize,
}

impl Model for CountedWords {
    ghost use Rattle.std.specs.Prelude.{◌+◌, ◌≤◌, vec_len, vec_capacity};
    ghost use Rattle.vx_bits.specs.WordReader.{Counted};

    ghost Value = { Counted };

    ghost view = { λ w. record { bits = w.buffer.bits; reads = w.numbers.items; spare = w.room } };

    ghost invariant = { λ w. vec_len w.numbers + w.room ≤ vec_capacity w.numbers };
}

impl CountedWords {
    /// A reader of these bits that may read `room` words. Fails only with `NoMemory`.
    pub fn new(alloc: Global, bits: BitBuffer, room: usize) -> Result<CountedWords, NoMemory>
        ensures { IfOk result (λ w. w ≡ record { bits = bits.bits; reads = []; spare = room }) }
    {
        let numbers = Vec::with_capacity(alloc, room)?;
        Ok(CountedWords {
            buffer: bits,
            numbers,
            room,
        })
    }

    /// The numbers of the words that were read, in order.
    pub fn reads(&self) -> &[usize]
        ensures { result.now ≡ self.now.reads }
    {
        self.numbers.as_slice()
    }
}

impl WordReader for CountedWords {
    ghost use Rattle.std.specs.Prelude.{Some};

    ghost bits = { λ w. w.bits };

    ghost reads = { λ w. Some w.reads };

    ghost spare = { λ w. w.spare };

    fn len(&self) -> usize {
        self.buffer.len()
    }

    fn word(&mut self, i: usize) -> u64 {
        self.numbers.push_reserved(i);
        self.room -= 1;
        self.buffer.word(i)
    }
}
