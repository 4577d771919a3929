//! Filters of records of several widths that are decoded by chunks.
ghost use Rattle.std.specs.Prelude.{◌≡◌, ◌≤◌, IfOk, length};
ghost use Rattle.vx_chunked.specs.Told.{whole_chunks};

use rows_common::{Counted, mask_of_run, print_calls, remainders};
use std::alloc::Global;
use std::test::Fail;
use vx_chunked::{
    Call, Logged, StoredChunks, filter_chunked, filter_chunked_by_indices,
    filter_chunked_by_slices, filter_chunked_mask,
};
use vx_mask::{Mask, MaskValues, Policy};

/// A row for each filter.
pub(crate) fn print_rows(rt: &impl Print, alloc: Global) -> Result<(), Fail> {
    print_masks(rt, alloc)?;
    print_counted_places(rt, alloc)?;
    print_counted_bits(rt, alloc)
}

/// A decoder of two chunks, which may be asked twice.
fn logged<const W: usize>(alloc: Global) -> Result<Logged<[u8; W], StoredChunks<[u8; W]>>, Fail>
    ensures values { IfOk result (λ s. length (whole_chunks s.0) ≡ 2048) }
    ensures room { IfOk result (λ s. s.2 ≡ 2) }
{
    Ok(Logged::new(alloc, remainders::<W>(alloc)?, 2)?)
}

/// What was kept, and by which calls.
fn print_kept<const W: usize>(
    rt: &impl Print,
    name: &str,
    kept: &[[u8; W]],
    calls: &[Call],
) -> Result<(), Fail>
    requires { W ≤ 8 }
{
    let (rows, first, last) = (kept.len(), kept.first(), kept.last());
    print!(rt; "{name}: {rows} rows, {first:?} to {last:?}")?;
    print_calls(rt, calls)
}

fn print_by_mask<const W: usize>(
    rt: &impl Print,
    alloc: Global,
    name: &str,
    mask: &Mask,
) -> Result<(), Fail>
    requires { W ≤ 8 }
{
    if mask.len() != 2048 {
        return Err("not a bit for each record".into());
    }
    let mut decoder = logged::<W>(alloc)?;
    let kept = filter_chunked_mask(alloc, &mut decoder, 0, mask, &Policy::vortex())?;
    print_kept(rt, name, kept.as_slice(), decoder.calls())
}

/// A row for the indices that a mask keeps.
fn print_by_indices<const W: usize>(rt: &impl Print, alloc: Global, mask: &Mask) -> Result<(), Fail>
    requires { W ≤ 8 }
{
    let Some(indices) = mask.cached_indices() else {
        return Err("a mask that keeps no indices".into());
    };
    let len = mask.len();
    if len != 2048 {
        return Err("not a bit for each record".into());
    }
    let mut decoder = logged::<W>(alloc)?;
    let policy = Policy::vortex();
    let kept = filter_chunked_by_indices(alloc, &mut decoder, 0, len, indices, &policy)?;
    print_kept(rt, "by indices", kept.as_slice(), decoder.calls())
}

fn print_by_slices<const W: usize>(rt: &impl Print, alloc: Global) -> Result<(), Fail>
    requires { W ≤ 8 }
{
    let mut decoder = logged::<W>(alloc)?;
    let (policy, runs) = (Policy::vortex(), [(1000, 1100)]);
    let kept = filter_chunked_by_slices(alloc, &mut decoder, 0, 2048, &runs, &policy)?;
    print_kept(rt, "by runs", kept.as_slice(), decoder.calls())
}

/// Rows for the positions 1000 to 1099, of records of two widths.
fn print_masks(rt: &impl Print, alloc: Global) -> Result<(), Fail> {
    let bits = mask_of_run(alloc, 2048, 1000, 100)?;
    let runs = bits.with_slices(alloc)?;
    let indices = bits.with_indices(alloc)?;
    print_hundreds::<1>(rt, alloc, &bits, &runs, &indices)?;
    print_hundreds::<8>(rt, alloc, &bits, &runs, &indices)
}

/// Rows for masks of the same positions, of records of W bytes.
fn print_hundreds<const W: usize>(
    rt: &impl Print,
    alloc: Global,
    bits: &Mask,
    runs: &Mask,
    indices: &Mask,
) -> Result<(), Fail>
    requires { W ≤ 8 }
{
    print_by_mask::<W>(rt, alloc, "bits", bits)?;
    print_by_mask::<W>(rt, alloc, "kept runs", runs)?;
    print_by_mask::<W>(rt, alloc, "kept indices", indices)?;
    print_by_indices::<W>(rt, alloc, indices)?;
    print_by_slices::<W>(rt, alloc)
}

/// Records that were kept, and how often their decoder may still be asked.
struct Asked {
    records: Vec<[u8; 2]>,
    spare: usize,
}

/// A decoder that isn't the library's, which may be asked nine times.
fn counted(alloc: Global) -> Result<Counted<StoredChunks<[u8; 2]>>, Fail>
    ensures values { IfOk result (λ s. length (whole_chunks s.inner) ≡ 2048) }
    ensures spare { IfOk result (λ s. s.spare ≡ 9) }
{
    Ok(Counted {
        inner: remainders::<2>(alloc)?,
        spare: 9,
    })
}

/// The records at places among the 1900 from 10 on.
fn at_places(alloc: Global) -> Result<Asked, Fail> {
    let mut decoder = counted(alloc)?;
    let (policy, places) = (Policy::vortex(), [7, 8, 1100]);
    let records = filter_chunked_by_indices(alloc, &mut decoder, 10, 1900, &places, &policy)?;
    Ok(Asked {
        records,
        spare: decoder.spare,
    })
}

/// The records where rows from 10 on are set.
fn at_bits(alloc: Global, rows: &MaskValues) -> Result<Asked, Fail> {
    if rows.len() > 1900 {
        return Err("rows past the records".into());
    }
    let mut decoder = counted(alloc)?;
    let records = filter_chunked(alloc, &mut decoder, 10, rows, &Policy::vortex())?;
    Ok(Asked {
        records,
        spare: decoder.spare,
    })
}

fn print_counted_places(rt: &impl Print, alloc: Global) -> Result<(), Fail> {
    let Asked { records, spare } = at_places(alloc)?;
    println!(rt; "places [7, 8, 1100] from 10 on: {records:?}, {spare} spare")?;
    Ok(())
}

fn print_counted_bits(rt: &impl Print, alloc: Global) -> Result<(), Fail> {
    let mask = mask_of_run(alloc, 1900, 990, 910)?;
    let Some(rows) = mask.values() else {
        return Err("all rows or none".into());
    };
    let Asked { records, spare } = at_bits(alloc, rows)?;
    let (rows, first) = (records.len(), records.first());
    println!(rt; "bits from 990 up to 1900: {rows} rows, {first:?}, {spare} spare")?;
    Ok(())
}
