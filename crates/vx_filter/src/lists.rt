//! Filtering by set positions, and by runs of them.
ghost use Rattle.std.specs.Prelude.{◌≡◌, ◌+◌, ◌<◌, ◌≤◌, ◌++◌, IfOk, OnOk, Some, length, map, slice_get, slice_range};
ghost use Rattle.std.specs.List.{All, flat_map};

use std::alloc::Global;
use vx_bits::NoMemory;

/// The items of `src` at the indices, in their order: Vortex's `filter_slice_by_indices`. Fails
/// only with `NoMemory`.
pub fn filter_slice_by_indices<T: Copy>(
    alloc: Global,
    src: &[T],
    indices: &[usize],
) -> Result<Vec<T>, NoMemory>
    requires { All (λ index. index < length src.now) indices.now }
    ensures { IfOk result (λ kept. map Some kept.items ≡ map (slice_get src.now) indices.now) }
{
    let mut kept = Vec::with_capacity(alloc, indices.len())?;
    for index in indices {
        kept.push_reserved(src[*index]);
    }
    Ok(kept)
}

/// The items of `src` of the runs, each from its start up to its end, joined: Vortex's
/// `filter_slice_by_slices`. Fails only with `NoMemory`.
pub fn filter_slice_by_slices<T: Copy>(
    alloc: Global,
    src: &[T],
    slices: &[(usize, usize)],
) -> Result<Vec<T>, NoMemory>
    requires ordered { All (λ run. run.0 ≤ run.1) slices.now }
    requires within { All (λ run. run.1 ≤ length src.now) slices.now }
    ensures { IfOk result (λ kept. kept.items
        ≡ flat_map (λ run. slice_range src.now run.0 run.1) slices.now) }
{
    let mut kept = Vec::with_capacity(alloc, joined_length(slices))?;
    for run in slices {
        push_run(&mut kept, src, run.0, run.1)?;
    }
    Ok(kept)
}

// Appends the items from `start` up to `end`: a few as a block of four or of sixteen, where there
// is one and room for it, since that is less work than a call.
#[inline(always)]
fn push_run<T: Copy>(kept: &mut Vec<T>, src: &[T], start: usize, end: usize) -> Result<(), NoMemory>
    requires ordered { start ≤ end }
    requires within { end ≤ length src.now }
    ensures { OnOk result (kept.new.items ≡ kept.old.items ++ slice_range src.now start end) }
{
    let count = end - start;
    let room = (src.len() - start).min(kept.capacity() - kept.len());
    if count <= 4 && 4 <= room {
        push_block(kept, src, start, count, 4)
    } else if count <= 16 && 16 <= room {
        push_block(kept, src, start, count, 16)
    } else {
        kept.extend_from_slice(&src[start..end])?;
        Ok(())
    }
}

// Appends `count` items from `start` on, as a block that is cut off behind them.
#[inline(always)]
fn push_block<T: Copy>(
    kept: &mut Vec<T>,
    src: &[T],
    start: usize,
    count: usize,
    block: usize,
) -> Result<(), NoMemory>
    requires part { count ≤ block }
    requires within { start + block ≤ length src.now }
    ensures { OnOk result (kept.new.items
        ≡ kept.old.items ++ slice_range src.now start (start + count)) }
{
    kept.extend_from_slice(&src[start..start + block])?;
    kept.truncate(kept.len() - (block - count));
    Ok(())
}

// The number of items in the runs, or the greatest number where they are more.
fn joined_length(slices: &[(usize, usize)]) -> usize
    requires { All (λ run. run.0 ≤ run.1) slices.now }
{
    let mut total: usize = 0;
    for run in slices {
        total = total.saturating_add(run.1 - run.0);
    }
    total
}
