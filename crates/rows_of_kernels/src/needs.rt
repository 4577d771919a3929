//! The positions that picks need, and the picks among just these.
use crate::picks::list_of;
use rows_common::picks_of;
use std::alloc::Global;
use std::test::Fail;
use vx_bits::NoMemory;
use vx_mask::Mask;
use vx_take::{Picks, needed, needed_law, ranks_in};

/// A row for picks that need some positions, all of them, or none.
pub(crate) fn print_rows(rt: &impl Print, alloc: Global) -> Result<(), Fail> {
    print_needs(rt, alloc, 5, &[Some(4), None, Some(1), Some(4)])?;
    print_needs(rt, alloc, 2, &[Some(1), Some(0)])?;
    print_needs(rt, alloc, 2, &[None])?;
    needed_law::<u8>();
    Ok(())
}

/// The positions that picks need, and the rank of each pick among them.
#[derive(Drop)]
pub(crate) struct Needs {
    pub(crate) mask: Mask,
    pub(crate) ranks: Picks,
}

/// What the picks of a list need.
pub(crate) fn needs_of(alloc: Global, bound: usize, list: &[Option<usize>]) -> Result<Needs, Fail> {
    Ok(ranked(alloc, &picks_of(alloc, bound, list)?)?)
}

fn ranked(alloc: Global, picks: &Picks) -> Result<Needs, NoMemory> {
    let mask = needed(alloc, picks)?;
    let ranks = ranks_in(alloc, picks, &mask)?;
    Ok(Needs { mask, ranks })
}

fn print_needs(
    rt: &impl Print,
    alloc: Global,
    bound: usize,
    list: &[Option<usize>],
) -> Result<(), Fail> {
    let needs = needs_of(alloc, bound, list)?;
    let set = set_of(alloc, &needs.mask)?;
    let ranks = list_of(alloc, &needs.ranks)?;
    print_set(rt, list, bound, set.as_slice(), ranks.as_slice())
}

fn print_set(
    rt: &impl Print,
    picks: &[Option<usize>],
    bound: usize,
    set: &[usize],
    ranks: &[Option<usize>],
) -> Result<(), Fail> {
    println!(rt; "picks {picks:?} of {bound}: set {set:?}, ranks {ranks:?}")?;
    Ok(())
}

fn set_of(alloc: Global, mask: &Mask) -> Result<Vec<usize>, NoMemory> {
    let mut set = Vec::new(alloc);
    for k in 0..mask.true_count() {
        set.push(mask.rank(k))?;
    }
    Ok(set)
}
