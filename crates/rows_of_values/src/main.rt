//! Calls shared values, bits, masks and types as their users do, and prints what each gives.
#![tactic(auto)]

mod bits;
mod buffers;
mod builders;
mod masks;
mod owners;
mod parts;
mod policies;
mod ranks;
mod recursion;
mod text;
mod types;

use std::alloc::Global;
use std::test::Fail;

/// How many rows each family has.
const ROWS: [usize; 9] = [3, 8, 3, 11, 5, 9, 5, 2, 3];

/// Row `n` of a family.
fn row(alloc: Global, family: usize, n: usize) -> Result<String, Fail> {
    match family {
        0 => buffers::row(alloc, n),
        1 => bits::row(alloc, n),
        2 => builders::row(alloc, n),
        3 => masks::row(alloc, n),
        4 => parts::row(alloc, n),
        5 => ranks::row(alloc, n),
        6 => policies::row(alloc, n),
        7 => owners::row(alloc, n),
        _ => recursion::row(alloc, n),
    }
}

fn main(rt: HostRuntime) -> Result<(), Fail> {
    for family in 0..9 {
        for n in 0..ROWS[family] {
            let row = row(rt.alloc(), family, n)?;
            println!(rt; "{row}")?;
        }
    }
    types::print_rows(&rt)
}
