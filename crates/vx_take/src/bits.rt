//! Bits at picks, and which picks are not null.
ghost use Rattle.std.specs.Prelude.{◌≡◌, ◌+◌, ◌-◌, ◌^◌, ◌<◌, ◌≤◌, Bool, ℕ, IfOk, if◌then◌else◌, is_some, length, map};
ghost use Rattle.std.specs.List.{All};
ghost use Rattle.vx_bits.specs.Words.{word_bits};
ghost use Rattle.vx_take.specs.Picks.{at, item_at, pick_of};

use crate::picks::{NULL_PLACE, Picks};
use std::alloc::Global;
use vx_bits::{BitBuffer, BitBuilder, NoMemory};

/// The bits of `src` at the picks, in order, and `fill` at each null. Fails only with `NoMemory`.
///
/// With `fill` false these are the valid rows of a column at the picks, where `src` are its own.
pub fn gather_bits(
    alloc: Global,
    src: &BitBuffer,
    picks: &Picks,
    fill: bool,
) -> Result<BitBuffer, NoMemory>
    requires { picks.now.bound ≤ length src.now.bits }
    ensures { IfOk result (λ b. b
        ≡ record { bits = at fill src.now.bits picks.now.picks; offset = 0 }) }
{
    packed(alloc, &BitOrFill { src, fill }, picks.places())
}

/// For each pick whether it is valid, and no null. Fails only with `NoMemory`.
pub fn valid_bits(alloc: Global, picks: &Picks) -> Result<BitBuffer, NoMemory>
    ensures { IfOk result (λ b. b ≡ record { bits = map is_some picks.now.picks; offset = 0 }) }
{
    packed(alloc, &IsThere, picks.places())
}

// Gives a bit for each place.
trait BitOf {
    // the bit
    ghost bit: { Self → ℕ → Bool };

    // which places have one
    ghost has: { Self → ℕ → Type 0 };

    fn bit_of(&self, place: usize) -> bool
        requires { has self.now place }
        ensures { result ≡ bit self.now place };
}

// The bit of a list, or at a null the other one.
#[derive(Clone, Copy)]
struct BitOrFill<'a> {
    src: &'a BitBuffer,
    fill: bool,
}

impl BitOf for BitOrFill<'_> {
    ghost use Rattle.vx_take.specs.Picks.{IsPlace, item_at, pick_of};

    ghost bit = { λ b place. item_at b.fill b.src.now.bits (pick_of place) };

    ghost has = { λ b place. IsPlace place (length b.src.now.bits) };

    #[inline(always)]
    fn bit_of(&self, place: usize) -> bool {
        if place == NULL_PLACE {
            self.fill
        } else {
            self.src.value(place)
        }
    }
}

// Whether a place stands for no null.
#[derive(Clone, Copy)]
struct IsThere;

impl BitOf for IsThere {
    ghost use Rattle.std.specs.Prelude.{is_some};
    ghost use Rattle.vx_take.specs.Picks.{pick_of};

    ghost bit = { λ _ place. is_some (pick_of place) };

    ghost has = { λ _ _. Unit {0} };

    #[inline(always)]
    fn bit_of(&self, place: usize) -> bool {
        place != NULL_PLACE
    }
}

// The bits of the places, a word at a time.
fn packed<B: BitOf>(alloc: Global, bit: &B, places: &[usize]) -> Result<BitBuffer, NoMemory>
    requires { All (B.has bit.now) places.now }
    ensures { IfOk result (λ b. b ≡ record { bits = map (B.bit bit.now) places.now; offset = 0 }) }
{
    let len = places.len();
    let mut bits = BitBuilder::with_capacity(alloc, len)?;
    for w in 0..len.div_ceil(64) {
        let end = len.min(64 * w + 64);
        bits.append_word(packed_word(bit, &places[64 * w..end]), end - 64 * w)?;
    }
    bits.finish()
}

// The word of the bits of at most 64 places, the first one lowest.
#[inline(always)]
fn packed_word<B: BitOf>(bit: &B, places: &[usize]) -> u64
    requires few { length places.now ≤ 64 }
    requires has { All (B.has bit.now) places.now }
    ensures { word_bits result (length places.now) ≡ map (B.bit bit.now) places.now }
{
    let mut word = 0;
    for (k, place) in places.iter().enumerate() {
        word = with_bit(word, k, bit.bit_of(*place));
    }
    word
}

// The word with a further bit above those that it has.
#[inline(always)]
fn with_bit(word: u64, k: usize, bit: bool) -> u64
    requires below { word < 2 ^ k }
    requires inside { k < 64 }
    ensures { result ≡ word + (if bit then 2 ^ k else 0) }
{
    if bit { word | (1 << k) } else { word }
}
