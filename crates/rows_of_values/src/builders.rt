//! Bits that grow, and readers of their words.
ghost use Rattle.std.specs.Prelude.{◌≡◌, ◌≤◌, IfOk, length};

use crate::text::{by_words, ends_of};
use std::alloc::Global;
use std::test::Fail;
use vx_bits::{BitBuffer, BitBuilder, CountedWords, NoMemory, PlainWords, WordReader};

/// A row for what a builder makes, or for a reader of its words.
pub(crate) fn row(alloc: Global, n: usize) -> Result<String, Fail> {
    match n {
        0 => plain(alloc),
        1 => counted(alloc),
        _ => two_set(alloc),
    }
}

/// 72 bits, of which all but the last are set.
fn built(alloc: Global) -> Result<BitBuffer, NoMemory> {
    let mut builder = BitBuilder::new(alloc);
    builder.append_n(true, 69)?;
    builder.append(true)?;
    builder.append_word(0b01, 2)?;
    builder.finish()
}

/// The word behind the last whole one.
fn last_word<R: WordReader>(words: &mut R) -> u64
    requires { 1 ≤ R.spare words.old }
{
    let last = words.len() / 64;
    words.word(last)
}

fn plain(alloc: Global) -> Result<String, Fail> {
    let mut words = PlainWords::new(built(alloc)?);
    let len = words.len();
    let word = last_word(&mut words);
    Ok(format!(in alloc; "69 bits and 1 bit set, then 10: {len} bits, last word {word}")?)
}

fn counted(alloc: Global) -> Result<String, Fail> {
    let mut words = CountedWords::new(alloc, built(alloc)?, 2)?;
    let word = last_word(&mut words);
    by_words(alloc, "read by a counter: last word", word, words.reads())
}

/// So many clear bits.
fn clear(alloc: Global, len: usize) -> Result<BitBuilder, NoMemory>
    ensures { IfOk result (λ b. length b ≡ len) }
{
    let mut builder = BitBuilder::with_capacity(alloc, len)?;
    builder.append_n(false, len)?;
    Ok(builder)
}

fn two_set(alloc: Global) -> Result<String, Fail> {
    let mut builder = clear(alloc, 130)?;
    builder.set(3);
    builder.set(129);
    ends_of(alloc, "130 bits, 3 and 129 set", &builder.finish()?)
}
