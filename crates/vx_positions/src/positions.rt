//! Which positions numbers name, and the first number that names none.
ghost use Rattle.std.specs.Prelude.{◌≡◌, ◌<◌, None, true, false, IfOk, IfSome};
ghost use Rattle.std.specs.Option.{option_map};
ghost use Rattle.vx_positions.specs.Positions.{AllThere, bad_number, first_bad, is_position, position_of, positions_of};

use crate::numbers::Numbers;
use std::alloc::Global;
use vx_bits::NoMemory;
use vx_take::Picks;

/// Whether a number is one of `len` positions.
#[inline(always)]
pub fn is_position(number: i128, len: usize) -> bool
    ensures { result ≡ is_position len number }
{
    0 <= number && number < len as i128
}

/// The number, where there is one that is none of `len` positions.
#[inline(always)]
pub(crate) fn bad_number(number: Option<i128>, len: usize) -> Option<i128>
    ensures { result ≡ bad_number len number }
{
    number.filter(|number| !is_position(*number, len))
}

/// The first number that is none of `len` positions.
#[inline(always)]
pub fn first_bad<N: Numbers>(numbers: &N, len: usize) -> Option<i128>
    ensures { result ≡ first_bad len (N.numbers numbers.now) }
{
    for i in 0..numbers.len() {
        let bad = bad_number(numbers.number(i), len);
        if bad.is_some() {
            return bad;
        }
    }
    None
}

/// The position that a number names.
#[inline(always)]
pub fn position(number: i128, len: usize) -> usize
    requires { is_position len number ≡ true }
    ensures value { result ≡ position_of number }
    ensures below { result < len }
{
    // Only the contract speaks of it.
    let _ = len;
    number as usize
}

/// The position that a number names, none where it is missing.
#[inline(always)]
pub(crate) fn position_of(number: Option<i128>, len: usize) -> Option<usize>
    requires { IfSome number (λ z. is_position len z ≡ true) }
    ensures value { result ≡ option_map position_of number }
    ensures below { IfSome result (λ p. p < len) }
{
    match number {
        Some(number) => Some(position(number, len)),
        None => None,
    }
}

/// The positions that the numbers name. Fails only with `NoMemory`.
#[inline(always)]
pub fn picks_of<N: Numbers>(alloc: Global, numbers: &N, len: usize) -> Result<Picks, NoMemory>
    requires { first_bad len (N.numbers numbers.now) ≡ None }
    ensures picks { IfOk result
        (λ p. p ≡ record { picks = positions_of (N.numbers numbers.now); bound = len }) }
    ensures there { IfOk result (λ p. N.nullable numbers.now ≡ false → AllThere p.picks) }
{
    let mut picks = Picks::with_capacity(alloc, len, numbers.len())?;
    for i in 0..numbers.len() {
        picks.push(position_of(numbers.number(i), len))?;
    }
    Ok(picks)
}
