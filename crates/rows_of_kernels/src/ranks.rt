//! The set positions that ranks name.
use crate::picks::list_of;
use rows_common::picks_of;
use std::alloc::Global;
use std::test::Fail;
use vx_bits::BitBuffer;
use vx_mask::{Mask, Policy};
use vx_take::{Picks, translate_ranks, translated_law};

/// A row for each way that ranks are translated.
pub(crate) fn print_rows(rt: &impl Print, alloc: Global) -> Result<(), Fail> {
    let bits = [false, true, false, true, true];
    print_translated(rt, alloc, &bits, &[Some(2), Some(0)])?;
    print_translated(rt, alloc, &bits, &[Some(2)])?;
    print_translated(rt, alloc, &[false, true, true], &[Some(1), None])?;
    translated_law::<u8>();
    Ok(())
}

fn print_translated(
    rt: &impl Print,
    alloc: Global,
    bits: &[bool],
    list: &[Option<usize>],
) -> Result<(), Fail> {
    let filter = Mask::from_buffer(BitBuffer::from_bools(alloc, bits)?);
    let ranks = picks_of(alloc, filter.true_count(), list)?;
    let places = translated(alloc, &filter, &ranks, &Policy::vortex())?;
    print_places(rt, alloc, bits, list, &places)
}

fn print_places(
    rt: &impl Print,
    alloc: Global,
    bits: &[bool],
    ranks: &[Option<usize>],
    places: &Picks,
) -> Result<(), Fail> {
    let places = list_of(alloc, places)?;
    println!(rt; "ranks {ranks:?} in {bits:?}: {places:?}")?;
    Ok(())
}

fn translated(alloc: Global, filter: &Mask, ranks: &Picks, policy: &Policy) -> Result<Picks, Fail> {
    if ranks.bound() > filter.true_count() {
        return Err("a rank past the set positions".into());
    }
    Ok(translate_ranks(alloc, filter, ranks, policy)?)
}
