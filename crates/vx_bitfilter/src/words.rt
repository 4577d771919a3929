//! The bit filter over words.
ghost use Rattle.std.specs.Prelude.{◌≡◌, ℕ, ◌+◌, ◌≤◌, ◌++◌, IfOk, OnOk, OnErr, length};
ghost use Rattle.std.specs.List.{items_where_true};
ghost use Rattle.vx_bits.specs.BitBuffer.{true_count_of};
ghost use Rattle.vx_bits.specs.WordReader.{then_told};
ghost use Rattle.vx_bits.specs.Words.{word_bits, word_count};
ghost use Rattle.vx_bitfilter.specs.Words.{busy_words, first_words};
ghost use Rattle.vx_mask.specs.Mask.{at_front};

use crate::pext::pext_fallback;
use std::alloc::Global;
use std::marker::Model;
use vx_bits::{BitBuffer, BitBuilder, NoMemory, WordReader, Words};

/// The source's bits at the mask's set positions, from offset 0 on, wherever the bits of each lie
/// in their bytes: Vortex's `filter_bitbuffer_by_mask`. Fails only with `NoMemory`.
///
/// `true_count` is the number of the mask's set bits.
#[inline(always)]
pub fn filter_bitbuffer_by_mask(
    alloc: Global,
    src: &BitBuffer,
    mask_buf: &BitBuffer,
    true_count: usize,
) -> Result<BitBuffer, NoMemory>
    requires same_len { length src.now.bits ≡ length mask_buf.now.bits }
    requires counted { true_count ≡ true_count_of mask_buf.now.bits }
    ensures { IfOk result (λ b. b
        ≡ at_front (items_where_true mask_buf.now.bits src.now.bits)) }
{
    let mut src = ViewedWords::new(src);
    let mut mask = ViewedWords::new(mask_buf);
    filter_words(alloc, &mut src, &mut mask, true_count)
}

// Reads the words of bits by a view of their bytes, and tells no reads.
#[derive(Drop)]
struct ViewedWords<'a> {
    words: Words<'a>,
    len: usize,
}

impl<'a> Model for ViewedWords<'a> {
    ghost use Rattle.std.specs.Prelude.{◌≡◌, Bool, List, length};

    ghost Value = { List Bool };

    ghost view = { λ w. w.words };

    ghost invariant = { λ w. length w.words ≡ w.len };
}

impl<'a> ViewedWords<'a> {
    fn new(bits: &'a BitBuffer) -> ViewedWords<'a>
        ensures { result ≡ bits.now.bits }
    {
        ViewedWords {
            words: bits.words(),
            len: bits.len(),
        }
    }
}

impl<'a> WordReader for ViewedWords<'a> {
    ghost use Rattle.std.specs.Prelude.{◌-◌, ◌^◌, None};

    ghost bits = { λ w. w };

    ghost reads = { λ _. None };

    ghost spare = { λ _. 2 ^ 64 - 1 };

    #[inline(always)]
    fn len(&self) -> usize {
        self.len
    }

    #[inline(always)]
    fn word(&mut self, i: usize) -> u64 {
        self.words.word(i)
    }
}

/// The source's bits at the mask's set positions, from offset 0 on. Fails only with `NoMemory`.
///
/// The mask is asked for each word that holds a bit, once, ascending, and the source for those at
/// which the mask's word is not 0. `true_count` is the number of the mask's set bits.
pub fn filter_words<S: WordReader, M: WordReader>(
    alloc: Global,
    src: &mut S,
    mask: &mut M,
    true_count: usize,
) -> Result<BitBuffer, NoMemory>
    requires same_len { length (S.bits src.old) ≡ length (M.bits mask.old) }
    requires counted { true_count ≡ true_count_of (M.bits mask.old) }
    requires src_spare { word_count (length (M.bits mask.old)) ≤ S.spare src.old }
    requires mask_spare { word_count (length (M.bits mask.old)) ≤ M.spare mask.old }
    ensures value { IfOk result (λ b. b
        ≡ at_front (items_where_true (M.bits mask.old) (S.bits src.old))) }
    ensures mask_reads { OnOk result (M.reads mask.new
        ≡ then_told (M.reads mask.old) (first_words (word_count (length (M.bits mask.old))))) }
    ensures src_reads { OnOk result (S.reads src.new ≡ then_told (S.reads src.old)
        (busy_words (M.bits mask.old) (word_count (length (M.bits mask.old))))) }
    ensures prefix { OnErr result ((n : ℕ)
        × (n ≤ word_count (length (M.bits mask.old)))
        × (M.reads mask.new ≡ then_told (M.reads mask.old) (first_words n))
        × (S.reads src.new
        ≡ then_told (S.reads src.old) (busy_words (M.bits mask.old) n))) }
    ensures src_bits { S.bits src.new ≡ S.bits src.old }
    ensures mask_bits { M.bits mask.new ≡ M.bits mask.old }
    ensures src_cost { S.spare src.old
        ≤ S.spare src.new + word_count (length (M.bits mask.old)) }
    ensures mask_cost { M.spare mask.old
        ≤ M.spare mask.new + word_count (length (M.bits mask.old)) }
{
    let mut kept = BitBuilder::with_capacity(alloc, true_count)?;
    for i in 0..mask.len().div_ceil(64) {
        let picks = mask.word(i);
        if picks != 0 {
            let word = src.word(i);
            append_picked(&mut kept, word, picks)?;
        }
    }
    kept.finish()
}

// Appends the bits that a mask's word picks. A full mask takes the word whole. Fails only with
// `NoMemory`.
#[inline(always)]
fn append_picked(kept: &mut BitBuilder, word: u64, picks: u64) -> Result<(), NoMemory>
    ensures ok { OnOk result (kept.new
        ≡ kept.old ++ items_where_true (word_bits picks 64) (word_bits word 64)) }
    ensures err { OnErr result (kept.new ≡ kept.old) }
{
    if picks == u64::MAX {
        return kept.append_word(word, 64);
    }
    kept.append_word(pext_fallback(word, picks), picks.count_ones() as usize)
}
