//! Picks, written to lists of the caller's.
ghost use Rattle.std.specs.Int.{bit_at};
ghost use Rattle.std.specs.Prelude.{◌≡◌, ◌≢◌, ◌==◌, ℕ, ◌+◌, ◌*◌, ◌≤◌, ◌<◌, None, is_some, length, slice_index_or};
ghost use Rattle.vx_bits.specs.BitBuffer.{bit_of};
ghost use Rattle.vx_arrow.specs.Written.{AreMarked, ArePlaced, IsByteOf, IsMarked, place_of};

use vx_take::Picks;

// The place that is written for a pick.
fn place_of(pick: Option<usize>) -> u64
    ensures { result ≡ place_of pick }
{
    match pick {
        Some(place) => place as u64,
        None => 0,
    }
}

// Sets bit `j` of the bytes, or clears it.
fn put_bit(bytes: &mut [u8], j: usize, bit: bool)
    requires { j < 8 * length bytes.old }
    ensures { IsMarked bytes.old bytes.new j bit }
{
    let old = bytes[j / 8];
    let mask = 1 << (j % 8);
    bytes[j / 8] = if bit { old | mask } else { old & !mask };
}

/// Writes a place for each pick.
pub(crate) fn write_places(picks: &Picks, places: &mut [u64])
    requires { length picks.now.picks ≤ length places.old }
    ensures { ArePlaced picks.now.picks places.old places.new }
{
    for k in 0..picks.len() {
        places[k] = place_of(picks.get(k));
    }
}

// The byte with bit `j`, which was clear.
#[inline(always)]
fn with_bit(byte: u8, j: usize, bit: bool) -> u8
    requires index { j < 8 }
    requires clear { bit_at byte j ≡ 0 }
    ensures set { (bit_at result j == 1) ≡ bit }
    ensures others { (i : ℕ) → i ≢ j → bit_at result i ≡ bit_at byte i }
{
    if bit { byte | (1 << j) } else { byte }
}

// A bit for each of eight picks from pick `first` on: whether it is valid.
#[inline(always)]
fn valid_byte(picks: &Picks, first: usize) -> u8
    requires { first + 8 ≤ length picks.now.picks }
    ensures { IsByteOf picks.now.picks first 8 result }
{
    // a `usize` counts the picks
    let _ = picks.len();
    let mut byte = 0;
    for j in 0..8 {
        byte = with_bit(byte, j, picks.get(first + j).is_some());
    }
    byte
}

// Writes a bit for each pick from pick `first` on, where those before are written.
fn write_last(picks: &Picks, valid: &mut [u8], first: usize)
    requires within { first ≤ length picks.now.picks }
    requires room { length picks.now.picks ≤ 8 * length valid.old }
    requires written { (j : ℕ) → j < first
        → bit_of valid.old j ≡ is_some (slice_index_or picks.now.picks j None) }
    ensures { AreMarked picks.now.picks valid.old valid.new }
{
    for k in first..picks.len() {
        put_bit(valid, k, picks.get(k).is_some());
    }
}

/// Writes a bit for each pick: whether it is valid.
pub(crate) fn write_valid(picks: &Picks, valid: &mut [u8])
    requires { length picks.now.picks ≤ 8 * length valid.old }
    ensures { AreMarked picks.now.picks valid.old valid.new }
{
    let full = picks.len() / 8;
    for b in 0..full {
        valid[b] = valid_byte(picks, 8 * b);
    }
    write_last(picks, valid, 8 * full);
}
