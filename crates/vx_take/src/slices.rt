//! The items of a slice at picks, and in runs.
ghost use Rattle.std.specs.Prelude.{◌≡◌, ◌≢◌, ◌+◌, ◌-◌, ◌^◌, ◌<◌, ◌≤◌, IfOk, IfSome, length, sum_by};
ghost use Rattle.std.specs.List.{All};
ghost use Rattle.vx_take.specs.Picks.{IsPlace, at, in_runs, item_at, pick_of};

use crate::listed::{ItemOf, listed};
use crate::picks::{NULL_PLACE, Picks};
use std::alloc::Global;
use vx_bits::NoMemory;

/// The items of `src` at the picks, in order, and `fill` at each null. Fails only with `NoMemory`.
pub fn gather<T: Copy>(alloc: Global, src: &[T], picks: &Picks, fill: T) -> Result<Vec<T>, NoMemory>
    requires { picks.now.bound ≤ length src.now }
    ensures { IfOk result (λ items. items.items ≡ at fill src.now picks.now.picks) }
{
    listed(alloc, &ItemOrFill { src, fill }, picks.places())
}

// The item of a list, or at a null the other one.
#[derive(Clone, Copy)]
struct ItemOrFill<'a, T> {
    src: &'a [T],
    fill: T,
}

impl<T: Copy> ItemOf<T> for ItemOrFill<'_, T> {
    ghost use Rattle.vx_take.specs.Picks.{IsPlace, item_at};

    ghost item = { λ s. item_at s.fill s.src.now };

    ghost has = { λ s place. IsPlace place (length s.src.now) };

    #[inline(always)]
    fn item_of(&self, place: usize) -> T {
        if place == NULL_PLACE {
            self.fill
        } else {
            self.src[place]
        }
    }
}

/// The items of `src` in the runs, each its start and its length, one run after another. Fails only
/// with `NoMemory`.
pub fn gather_runs<T: Copy>(
    alloc: Global,
    src: &[T],
    runs: &[(usize, usize)],
) -> Result<Vec<T>, NoMemory>
    requires { All (λ run. run.0 + run.1 ≤ length src.now) runs.now }
    ensures { IfOk result (λ items. items.items ≡ in_runs src.now runs.now) }
{
    let total = total_length(runs).ok_or(NoMemory)?;
    let mut items = Vec::with_capacity(alloc, total)?;
    for run in runs {
        items.extend_from_slice(&src[run.0..run.0 + run.1])?;
    }
    Ok(items)
}

// The lengths of the runs in all, where the sum is at most `usize::MAX`.
fn total_length(runs: &[(usize, usize)]) -> Option<usize>
    ensures { IfSome result (λ total. total ≡ sum_by (λ run. run.1) runs.now) }
{
    let mut total: usize = 0;
    for run in runs {
        total = total.checked_add(run.1)?;
    }
    Some(total)
}
