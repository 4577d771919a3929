//! Takes at picks and in runs.

use rows_common::{picks_of, text_of};
use std::alloc::Global;
use std::fmt::Debug;
use std::test::Fail;
use vx_bits::{BitBuffer, NoMemory};
use vx_take::{Picks, filter_take_law, gather, gather_bits, gather_runs, takes_law, valid_bits};

/// A row for each take.
pub(crate) fn print_rows(rt: &impl Print, alloc: Global) -> Result<(), Fail> {
    let picks = Picks::new(alloc, 3);
    print_shown(
        rt,
        "no pick yet, empty and bound",
        &(picks.is_empty(), picks.bound()),
    )?;
    let items = items_at(alloc, &picks_of(alloc, 3, &[Some(2), None])?)?;
    print_shown(rt, "7 8 9 at 2 and null, 0 at a null", &items)?;
    print_listed(rt, alloc)?;
    print_bits(rt, alloc, &[Some(1), Some(2)])?;
    print_bits(rt, alloc, &[Some(1), None])?;
    let items = gather_runs(alloc, &[7u8, 8, 9], &[(1, 2), (0, 1)])?;
    print_shown(rt, "7 8 9, two from 1 on and one from 0 on", &items)?;
    takes_law::<u8>();
    filter_take_law::<u8>();
    Ok(())
}

/// A line for one thing behind its name.
fn print_shown<T: Debug>(rt: &impl Print, name: &str, found: &T) -> Result<(), Fail> {
    println!(rt; "{name}: {found:?}")?;
    Ok(())
}

fn print_listed(rt: &impl Print, alloc: Global) -> Result<(), Fail> {
    let positions = vec![in alloc; 2, 0]?;
    let picks = Picks::from_vec(positions, 3);
    let items = gather(alloc, &[7u8, 8, 9], &picks, 0)?;
    print_shown(rt, "7 8 9 at 2 and 0, a list that is handed over", &items)
}

/// The picks, as a list.
pub(crate) fn list_of(alloc: Global, picks: &Picks) -> Result<Vec<Option<usize>>, NoMemory> {
    let mut list = Vec::new(alloc);
    for i in 0..picks.len() {
        list.push(picks.get(i))?;
    }
    Ok(list)
}

fn items_at(alloc: Global, picks: &Picks) -> Result<Vec<u8>, Fail> {
    if picks.bound() > 3 {
        return Err("picks past the items".into());
    }
    Ok(gather(alloc, &[7u8, 8, 9], picks, 0)?)
}

fn bits_at(alloc: Global, src: &BitBuffer, picks: &Picks) -> Result<BitBuffer, Fail> {
    if picks.bound() > src.len() {
        return Err("picks past the bits".into());
    }
    Ok(gather_bits(alloc, src, picks, true)?)
}

fn print_bits(rt: &impl Print, alloc: Global, list: &[Option<usize>]) -> Result<(), Fail> {
    let picks = picks_of(alloc, 3, list)?;
    let bits = text_at(alloc, &picks)?;
    let valid = text_of(alloc, &valid_bits(alloc, &picks)?)?;
    println!(rt; "101 at {list:?}, 1 at a null: {bits}, there {valid}")?;
    Ok(())
}

/// The text of the bits 101 at picks.
fn text_at(alloc: Global, picks: &Picks) -> Result<String, Fail> {
    let src = BitBuffer::from_bools(alloc, &[true, false, true])?;
    let bits = bits_at(alloc, &src, picks)?;
    Ok(text_of(alloc, &bits)?)
}
