//! The bit filter for masks with few set bits.
ghost use Rattle.std.specs.Prelude.{◌≡◌, ◌<◌, ◌≤◌, false, IfOk, length, map, slice_index_or};
ghost use Rattle.std.specs.List.{All, items_where_true};
ghost use Rattle.vx_bits.specs.Words.{word_bits};
ghost use Rattle.vx_mask.specs.Mask.{at_front};

use crate::words::filter_bitbuffer_by_mask;
use std::alloc::Global;
use vx_bits::{BitBuffer, BitBuilder, NoMemory};
use vx_mask::{Mask, MaskValues};

// Set positions are listed where each has this many rows or more.
const ROWS_A_PICK: usize = 32;

/// The source's bits at the mask's set positions, from offset 0 on: Vortex's `filter_sparse`. Fails
/// only with `NoMemory`.
///
/// It walks the set positions: by the mask's indices where it keeps them, else by a list of them
/// where at most one row in 32 is selected, else by words.
pub fn filter_sparse(
    alloc: Global,
    src: &BitBuffer,
    mask: &MaskValues,
) -> Result<BitBuffer, NoMemory>
    requires { length src.now.bits ≡ length mask.now.bits.bits }
    ensures { IfOk result (λ b. b
        ≡ at_front (items_where_true mask.now.bits.bits src.now.bits)) }
{
    match mask.cached_indices() {
        Some(indices) => bits_at(alloc, src, indices),
        None => unlisted(alloc, src, mask),
    }
}

// The source's bits at the set positions of a mask that keeps no indices. The positions are listed
// first where they are few.
fn unlisted(alloc: Global, src: &BitBuffer, mask: &MaskValues) -> Result<BitBuffer, NoMemory>
    requires { length src.now.bits ≡ length mask.now.bits.bits }
    ensures { IfOk result (λ b. b
        ≡ at_front (items_where_true mask.now.bits.bits src.now.bits)) }
{
    if mask.true_count() > mask.len() / ROWS_A_PICK {
        return filter_bitbuffer_by_mask(alloc, src, mask.bits(), mask.true_count());
    }
    let listed = Mask::Values(mask.share()).with_indices(alloc)?;
    match listed.cached_indices() {
        Some(indices) => bits_at(alloc, src, indices),
        None => filter_bitbuffer_by_mask(alloc, src, mask.bits(), mask.true_count()),
    }
}

// The bits at these places, 64 at a time.
fn bits_at(alloc: Global, src: &BitBuffer, places: &[usize]) -> Result<BitBuffer, NoMemory>
    requires { All (λ place. place < length src.now.bits) places.now }
    ensures { IfOk result (λ b. b
        ≡ at_front (map (λ place. slice_index_or src.now.bits place false) places.now)) }
{
    let mut kept = BitBuilder::with_capacity(alloc, places.len())?;
    for k in 0..places.len().div_ceil(64) {
        let end = places.len().min(64 * k + 64);
        kept.append_word(word_of(src, &places[64 * k..end]), end - 64 * k)?;
    }
    kept.finish()
}

// The word whose lowest bits are those at these places, the first one lowest.
fn word_of(src: &BitBuffer, places: &[usize]) -> u64
    requires short { length places.now ≤ 64 }
    requires within { All (λ place. place < length src.now.bits) places.now }
    ensures { word_bits result (length places.now)
        ≡ map (λ place. slice_index_or src.now.bits place false) places.now }
{
    let mut word: u64 = 0;
    for (k, place) in places.iter().enumerate() {
        word |= u64::from(src.value(*place)) << k;
    }
    word
}
