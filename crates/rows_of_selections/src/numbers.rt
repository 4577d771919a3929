//! Numbers to write into files.
ghost use Rattle.std.specs.Prelude.{◌^◌, ◌<◌};
ghost use Rattle.std.specs.Bool.{OnTrue};
ghost use Rattle.std.specs.List.{All};

use std::alloc::Global;
use std::test::Fail;
use vx_bits::NoMemory;
use vx_column::PType;
use vx_file::{Blocks, file_blocks};

/// Rows equal to their position.
fn positions(alloc: Global, len: usize) -> Result<Vec<u64>, NoMemory> {
    let mut values = Vec::new(alloc);
    for n in 0..len {
        values.push(n as u64)?;
    }
    Ok(values)
}

// Whether each number has at most 32 bits.
fn are_below(values: &[u64]) -> bool
    ensures { OnTrue result (All (λ n. n < 2 ^ 32) values.now) }
{
    for n in values {
        if *n >= 0x1_0000_0000 {
            return false;
        }
    }
    true
}

/// The blocks of a file of type `u32` of the numbers below `rows`.
pub(crate) fn file_of(alloc: Global, rows: usize) -> Result<Blocks, Fail> {
    let values = positions(alloc, rows)?;
    if values.len() > 16_777_216 || !are_below(&values) {
        return Err("no rows of a file".into());
    }
    Ok(file_blocks(alloc, PType::U32, &values)?)
}
