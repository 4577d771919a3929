//! The numbers that stored records spell.
ghost use Rattle.std.specs.Prelude.{◌≡◌, None, length, true, IfOk};
ghost use Rattle.vx_bits.specs.Records.{records_of, width_of};
ghost use Rattle.vx_types.specs.PType.{is_int, width};
ghost use Rattle.vx_positions.specs.Positions.{AllThere, first_bad, positions_of};
ghost use Rattle.vx_positions.specs.Stored.{present_numbers, shown_numbers};

use crate::by_type;
use crate::present::{first_bad_present_of_width, picks_present_of_width};
use crate::shown::{first_bad_shown_of_width, picks_shown_of_width};
use std::alloc::Global;
use vx_bits::{BitBuffer, NoMemory, Records};
use vx_take::Picks;
use vx_types::PType;

/// The first number that is none of `len` positions, of records that are all there.
pub fn first_bad_present(ptype: PType, values: &Records, len: usize) -> Option<i128>
    requires int { is_int ptype ≡ true }
    requires width { width_of values.now ≡ width ptype }
    ensures { result ≡ first_bad len (present_numbers ptype (records_of values.now)) }
{
    by_type!(ptype, values, first_bad_present_of_width, len)
}

/// The first number that is none of `len` positions, of records that are valid where a bit is set.
pub fn first_bad_shown(ptype: PType, values: &Records, bits: &BitBuffer, len: usize) -> Option<i128>
    requires int { is_int ptype ≡ true }
    requires width { width_of values.now ≡ width ptype }
    requires long { length bits.now.bits ≡ length (records_of values.now) }
    ensures { result ≡ first_bad len
        (shown_numbers ptype bits.now.bits (records_of values.now)) }
{
    by_type!(ptype, values, first_bad_shown_of_width, bits, len)
}

/// The positions that the numbers name, of records that are all there. Fails only with `NoMemory`.
pub fn picks_present(
    alloc: Global,
    ptype: PType,
    values: &Records,
    len: usize,
) -> Result<Picks, NoMemory>
    requires int { is_int ptype ≡ true }
    requires width { width_of values.now ≡ width ptype }
    requires sound { first_bad len (present_numbers ptype (records_of values.now)) ≡ None }
    ensures picks { IfOk result (λ p. p ≡ record {
      picks = positions_of (present_numbers ptype (records_of values.now));
      bound = len;
    }) }
    ensures there { IfOk result (λ p. AllThere p.picks) }
{
    by_type!(ptype, values, picks_present_of_width, alloc, len)
}

/// The positions that the numbers name, of records that are valid where a bit is set. Fails only
/// with `NoMemory`.
pub fn picks_shown(
    alloc: Global,
    ptype: PType,
    values: &Records,
    bits: &BitBuffer,
    len: usize,
) -> Result<Picks, NoMemory>
    requires int { is_int ptype ≡ true }
    requires width { width_of values.now ≡ width ptype }
    requires long { length bits.now.bits ≡ length (records_of values.now) }
    requires sound { first_bad len
        (shown_numbers ptype bits.now.bits (records_of values.now)) ≡ None }
    ensures { IfOk result (λ p. p ≡ record {
      picks = positions_of (shown_numbers ptype bits.now.bits (records_of values.now));
      bound = len;
    }) }
{
    by_type!(ptype, values, picks_shown_of_width, alloc, bits, len)
}
