//! Masks from parts that are handed in.

use crate::buffers::shared;
use crate::text::shown;
use std::alloc::Global;
use std::test::Fail;
use vx_bits::{BitBuffer, NoMemory};
use vx_mask::{MaskError, MaskValues};

/// A row for a list of parts.
pub(crate) fn row(alloc: Global, n: usize) -> Result<String, Fail> {
    match n {
        0 => selective(alloc, "011, 2 set, [1, 2], [(1, 2), (2, 3)]", 2, &[1, 2], 3),
        1 => selective(alloc, "011, 1 set, [1, 2], [(1, 2), (2, 3)]", 1, &[1, 2], 3),
        2 => selective(alloc, "011, 2 set, [2, 1], [(1, 2), (2, 3)]", 2, &[2, 1], 3),
        3 => selective(alloc, "011, 2 set, [1, 2], [(1, 2), (2, 2)]", 2, &[1, 2], 2),
        _ => not_selective(alloc),
    }
}

/// A row for the bits 011 with this count, these indices, and runs of which the last ends here.
fn selective(
    alloc: Global,
    name: &str,
    count: usize,
    indices: &[usize],
    end: usize,
) -> Result<String, Fail> {
    let bits = BitBuffer::from_bools(alloc, &[false, true, true])?;
    let refusal = refusal(alloc, &bits, count, indices, &[(1, 2), (2, end)])?;
    shown(alloc, name, &refusal)
}

/// Why these parts are no mask.
fn refusal(
    alloc: Global,
    bits: &BitBuffer,
    count: usize,
    indices: &[usize],
    runs: &[(usize, usize)],
) -> Result<Option<MaskError>, NoMemory> {
    let indices = shared(alloc, indices)?;
    let runs = shared(alloc, runs)?;
    Ok(MaskValues::try_from_parts(bits.share(), count, Some(indices), Some(runs)).err())
}

fn not_selective(alloc: Global) -> Result<String, Fail> {
    let bits = BitBuffer::from_bools(alloc, &[true, true])?;
    let refusal = MaskValues::try_from_parts(bits, 2, None, None).err();
    shown(alloc, "11, 2 set", &refusal)
}
