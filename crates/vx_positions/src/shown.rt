//! Records of an integer type, valid where a bit is set, as positions.
ghost use Rattle.std.specs.Prelude.{◌≡◌, ◌+◌, ◌/◌, ◌%◌, ◌^◌, ◌<◌, ◌==◌, None, length, true, IfOk, if◌then◌else◌, slice_index_or};
ghost use Rattle.std.specs.Int.{bit_at};
ghost use Rattle.vx_bits.specs.Words.{word_at};
ghost use Rattle.vx_types.specs.PType.{is_int, width};
ghost use Rattle.vx_positions.specs.Positions.{first_bad, positions_of};
ghost use Rattle.vx_positions.specs.Stored.{present_numbers, shown_numbers};

use crate::numbers::{Numbers, Present};
use crate::positions::{bad_number, position_of};
use crate::present::are_positions;
use std::alloc::Global;
use vx_bits::{BitBuffer, NoMemory, Words};
use vx_take::Picks;
use vx_types::PType;

// The number of record `i`, missing where its bit of the word is clear.
#[inline(always)]
#[tactic(auto, using(crate::proofs::NumberLists::numbers))]
fn number_by<const W: usize>(ptype: PType, records: &[[u8; W]], word: u64, i: usize) -> Option<i128>
    requires int { is_int ptype ≡ true }
    requires width { W ≡ width ptype }
    requires row { i < length records.now }
    ensures { result ≡ (if bit_at word (i % 64) == 1
        then slice_index_or (present_numbers ptype records.now) i None else None) }
{
    if (word >> (i % 64)) & 1 == 1 {
        Present::<W> { ptype, records }.number(i)
    } else {
        None
    }
}

// The word of bit `i + 1`, by that of bit `i`.
#[inline(always)]
fn word_after(words: &Words<'_>, word: u64, i: usize) -> u64
    requires within { i < length words.now }
    requires counted { i + 1 < 2 ^ 64 }
    requires word { word ≡ word_at words.now (i / 64) }
    ensures { result ≡ word_at words.now ((i + 1) / 64) }
{
    let next = i + 1;
    if next % 64 == 0 {
        words.word(next / 64)
    } else {
        word
    }
}

/// The first number that is none of `len` positions. Where all are, missing ones too, no bit is
/// looked at.
#[inline(always)]
pub(crate) fn first_bad_shown_of_width<const W: usize>(
    ptype: PType,
    records: &[[u8; W]],
    bits: &BitBuffer,
    len: usize,
) -> Option<i128>
    requires int { is_int ptype ≡ true }
    requires width { W ≡ width ptype }
    requires long { length bits.now.bits ≡ length records.now }
    ensures { result ≡ first_bad len (shown_numbers ptype bits.now.bits records.now) }
{
    if are_positions(ptype, records, len) {
        return None;
    }
    let view = bits.words();
    let mut word = view.word(0);
    for i in 0..records.len() {
        let bad = bad_number(number_by(ptype, records, word, i), len);
        if bad.is_some() {
            return bad;
        }
        word = word_after(&view, word, i);
    }
    None
}

/// The picks that the numbers name. Fails only with `NoMemory`.
#[inline(always)]
pub(crate) fn picks_shown_of_width<const W: usize>(
    ptype: PType,
    records: &[[u8; W]],
    alloc: Global,
    bits: &BitBuffer,
    len: usize,
) -> Result<Picks, NoMemory>
    requires int { is_int ptype ≡ true }
    requires width { W ≡ width ptype }
    requires long { length bits.now.bits ≡ length records.now }
    requires sound { first_bad len (shown_numbers ptype bits.now.bits records.now) ≡ None }
    ensures { IfOk result (λ p. p ≡ record {
      picks = positions_of (shown_numbers ptype bits.now.bits records.now);
      bound = len;
    }) }
{
    let view = bits.words();
    let mut word = view.word(0);
    let mut picks = Picks::with_capacity(alloc, len, records.len())?;
    for i in 0..records.len() {
        picks.push(position_of(number_by(ptype, records, word, i), len))?;
        word = word_after(&view, word, i);
    }
    Ok(picks)
}
