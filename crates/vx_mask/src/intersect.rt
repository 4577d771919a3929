//! The set positions of a mask whose ranks another mask selects.
ghost use Rattle.std.specs.Prelude.{◌≡◌, ◌+◌, ◌^◌, ◌<◌, ◌≤◌, ◌++◌, true, false, if◌then◌else◌, IfOk, length, drop, slice_set};
ghost use Rattle.std.specs.Int.RustNames.{count_ones};
ghost use Rattle.std.specs.List.{items_where_true};
ghost use Rattle.vx_bits.specs.BitBuffer.{true_count_of};
ghost use Rattle.vx_bits.specs.Words.{word_bits};
ghost use Rattle.vx_mask.specs.Positions.{AllBits, ascending, positions, set_of};

use std::alloc::Global;
use vx_bits::{BitBuffer, BitBuilder, NoMemory};

/// The bits that are set at those set positions of `bits` whose rank is set in `by`.
pub(crate) fn bits_by_rank(
    alloc: Global,
    bits: &BitBuffer,
    by: &BitBuffer,
) -> Result<BitBuffer, NoMemory>
    requires { length by.now.bits ≡ true_count_of bits.now.bits }
    ensures set { IfOk result (λ b. set_of b.bits
        ≡ items_where_true by.now.bits (set_of bits.now.bits)) }
    ensures len { IfOk result (λ b. length b.bits ≡ length bits.now.bits) }
{
    let len = bits.len();
    let mut kept = BitBuilder::with_capacity(alloc, len)?;
    kept.append_n(false, len)?;
    let words = bits.words();
    let mut from = 0;
    for w in 0..len / 64 + 1 {
        let word = words.word(w);
        mark_word(&mut kept, 64 * w, word, by, from);
        from += word.count_ones() as usize;
    }
    kept.finish()
}

// Turns on the set positions of a word whose rank is set in `by`. The word's first bit has position
// `base`, and its first set bit rank `from`.
#[inline]
fn mark_word(kept: &mut BitBuilder, base: usize, word: u64, by: &BitBuffer, from: usize)
    requires places { base + 64 ≤ 2 ^ 64 }
    requires ranks { from + 64 ≤ 2 ^ 64 }
    requires enough { from + count_ones word ≤ length by.now.bits }
    requires clear { AllBits kept.old base (length kept.old) false }
    requires within { ascending base (length kept.old) (positions base (word_bits word 64)) ≡ true }
    ensures set { set_of kept.new ≡ set_of kept.old
        ++ items_where_true (drop from by.now.bits) (positions base (word_bits word 64)) }
    ensures len { length kept.new ≡ length kept.old }
    ensures clear { AllBits kept.new (base + 64) (length kept.old) false }
{
    let mut left = word;
    for k in 0..word.count_ones() {
        let place = base + left.trailing_zeros() as usize;
        set_where(kept, place, by.value(from + k as usize));
        left &= left - 1;
    }
}

// Turns bit `place` on, where it is wanted.
#[inline(always)]
fn set_where(kept: &mut BitBuilder, place: usize, wanted: bool)
    requires { place < length kept.old }
    ensures { kept.new ≡ (if wanted then slice_set kept.old place true else kept.old) }
{
    if wanted {
        kept.set(place);
    }
}
