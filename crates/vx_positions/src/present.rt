//! Records of an integer type, none of them missing, as positions.
ghost use Rattle.std.specs.Prelude.{◌≡◌, ◌<◌, None, map, true, IfOk};
ghost use Rattle.std.specs.List.{All, list_all};
ghost use Rattle.vx_types.specs.PType.{is_int, number, width};
ghost use Rattle.vx_positions.specs.Positions.{AllThere, first_bad, is_position, position_of, positions_of};
ghost use Rattle.vx_positions.specs.Stored.{present_numbers};

use crate::numbers::Present;
use crate::positions::{first_bad, is_position, position};
use std::alloc::Global;
use vx_bits::NoMemory;
use vx_take::Picks;
use vx_types::PType;

// Whether bytes spell one of `len` positions.
#[inline(always)]
fn is_there<const W: usize>(ptype: PType, bytes: &[u8; W], len: usize) -> bool
    requires int { is_int ptype ≡ true }
    requires width { W ≡ width ptype }
    ensures { result ≡ is_position len (number ptype bytes.now) }
{
    is_position(ptype.number(bytes), len)
}

// The position that bytes spell.
#[inline(always)]
fn place_of<const W: usize>(ptype: PType, bytes: &[u8; W], len: usize) -> usize
    requires int { is_int ptype ≡ true }
    requires width { W ≡ width ptype }
    requires there { is_position len (number ptype bytes.now) ≡ true }
    ensures value { result ≡ position_of (number ptype bytes.now) }
    ensures below { result < len }
{
    position(ptype.number(bytes), len)
}

/// Whether each record is one of `len` positions: all are looked at, so that no branch waits for
/// one.
#[inline(always)]
pub(crate) fn are_positions<const W: usize>(ptype: PType, records: &[[u8; W]], len: usize) -> bool
    requires int { is_int ptype ≡ true }
    requires width { W ≡ width ptype }
    ensures { result ≡ list_all (λ r. is_position len (number ptype r)) records.now }
{
    let mut are_positions = true;
    for record in records {
        are_positions = are_positions & is_there(ptype, record, len);
    }
    are_positions
}

/// The first number that is none of `len` positions.
#[inline(always)]
pub(crate) fn first_bad_present_of_width<const W: usize>(
    ptype: PType,
    records: &[[u8; W]],
    len: usize,
) -> Option<i128>
    requires int { is_int ptype ≡ true }
    requires width { W ≡ width ptype }
    ensures { result ≡ first_bad len (present_numbers ptype records.now) }
{
    if are_positions(ptype, records, len) {
        return None;
    }
    first_bad(&Present::<W> { ptype, records }, len)
}

// The positions that the numbers name. Fails only with `NoMemory`.
#[inline(always)]
fn positions_present<const W: usize>(
    alloc: Global,
    ptype: PType,
    records: &[[u8; W]],
    len: usize,
) -> Result<Vec<usize>, NoMemory>
    requires int { is_int ptype ≡ true }
    requires width { W ≡ width ptype }
    requires sound { first_bad len (present_numbers ptype records.now) ≡ None }
    ensures value { IfOk result
        (λ v. v.items ≡ map (λ r. position_of (number ptype r)) records.now) }
    ensures below { IfOk result (λ v. All (λ p. p < len) v.items) }
{
    let mut positions = Vec::with_capacity(alloc, records.len())?;
    for record in records {
        positions.push_reserved(place_of(ptype, record, len));
    }
    Ok(positions)
}

/// The picks that the numbers name. Fails only with `NoMemory`.
#[inline(always)]
pub(crate) fn picks_present_of_width<const W: usize>(
    ptype: PType,
    records: &[[u8; W]],
    alloc: Global,
    len: usize,
) -> Result<Picks, NoMemory>
    requires int { is_int ptype ≡ true }
    requires width { W ≡ width ptype }
    requires sound { first_bad len (present_numbers ptype records.now) ≡ None }
    ensures picks { IfOk result (λ p. p
        ≡ record { picks = positions_of (present_numbers ptype records.now); bound = len }) }
    ensures there { IfOk result (λ p. AllThere p.picks) }
{
    Ok(Picks::from_vec(positions_present(alloc, ptype, records, len)?, len))
}
