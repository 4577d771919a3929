//! Five items by 10110, by each filter.
ghost use Rattle.std.specs.Prelude.{◌≡◌, length};

use std::alloc::Global;
use std::test::Fail;
use vx_bits::BitBuffer;
use vx_filter::{
    byte_compress, filter_law, filter_slice, filter_slice_by_bitmap, filter_slice_by_indices,
    filter_slice_by_slices, filter_slice_in_place, filter_vec,
};
use vx_mask::{Mask, MaskValues, Policy};

/// Appends a row for each filter.
pub(crate) fn add_rows(alloc: Global, rows: &mut Vec<String>) -> Result<(), Fail> {
    filter_law::<u8>();
    let bits = BitBuffer::from_bools(alloc, &[true, false, true, true, false])?;
    add_rows_by(alloc, &Mask::from_buffer(bits), rows)
}

fn add_rows_by(alloc: Global, mask: &Mask, rows: &mut Vec<String>) -> Result<(), Fail> {
    let mask = mask.values().ok_or("all rows or none")?;
    if mask.len() != 5 {
        return Err("not five rows".into());
    }
    for n in 0..7 {
        rows.push(row(alloc, n, mask)?)?;
    }
    Ok(())
}

const FIVE: [u8; 5] = [10, 20, 30, 40, 50];

/// A row for what was kept.
fn kept_row(alloc: Global, name: &str, kept: &[u8]) -> Result<String, Fail> {
    Ok(format!(in alloc; "{name}: {kept:?}")?)
}

fn row(alloc: Global, n: usize, mask: &MaskValues) -> Result<String, Fail>
    requires { length mask.now.bits.bits ≡ 5 }
{
    let (name, kept) = match n {
        0 => (
            "10 20 30 40 50 by 10110",
            filter_slice(alloc, &FIVE, mask, &Policy::vortex())?,
        ),
        1 => (
            "the same by words",
            filter_slice_by_bitmap(alloc, &FIVE, mask)?,
        ),
        2 => ("by bytes", byte_compress(alloc, &FIVE, mask)?),
        3 => (
            "by indices 0 2 3",
            filter_slice_by_indices(alloc, &FIVE, &[0, 2, 3])?,
        ),
        4 => (
            "by runs (0,1) (2,4)",
            filter_slice_by_slices(alloc, &FIVE, &[(0, 1), (2, 4)])?,
        ),
        5 => {
            let items = Vec::from_slice(alloc, &FIVE)?;
            (
                "of an owned list",
                filter_vec(alloc, items, mask, &Policy::vortex())?,
            )
        }
        _ => return in_place(alloc, mask),
    };
    kept_row(alloc, name, kept.as_slice())
}

fn in_place(alloc: Global, mask: &MaskValues) -> Result<String, Fail>
    requires { length mask.now.bits.bits ≡ 5 }
{
    let mut items = FIVE;
    let count = filter_slice_in_place(&mut items, mask, &Policy::vortex());
    let front = items[..3].to_vec(alloc)?;
    Ok(format!(in alloc; "in place: {count}, front {:?}", front.as_slice())?)
}
