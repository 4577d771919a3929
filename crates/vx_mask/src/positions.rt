//! Lists of positions and of runs, and the bits that they set.
ghost use Rattle.std.specs.Prelude.{◌≡◌, IfOk, None, Some, length, true, if◌then◌else◌};
ghost use Rattle.vx_mask.specs.Mask.{at_front};
ghost use Rattle.vx_mask.specs.Positions.{run_positions, ascending, bits_with, runs_ascend};

use std::alloc::Global;
use vx_bits::{BitBuffer, BitBuilder, NoMemory};

/// Whether the indices strictly ascend below the length.
pub(crate) fn ascend(indices: &[usize], len: usize) -> bool
    ensures { result ≡ ascending 0 len indices.now }
{
    let mut low = 0;
    for index in indices {
        if *index < low || *index >= len {
            return false;
        }
        low = *index + 1;
    }
    true
}

/// The number of positions that the runs cover, where they are not empty, ascend, do not overlap
/// and end within the length.
pub(crate) fn run_total(runs: &[(usize, usize)], len: usize) -> Option<usize>
    ensures { result
        ≡ (if runs_ascend 0 len runs.now then Some (length (run_positions runs.now)) else None) }
{
    let mut low = 0;
    let mut total = 0;
    for run in runs {
        if run.0 < low || run.1 <= run.0 || run.1 > len {
            return None;
        }
        total += run.1 - run.0;
        low = run.1;
    }
    Some(total)
}

/// The bits that are set at these indices.
pub(crate) fn bits_at(alloc: Global, len: usize, indices: &[usize]) -> Result<BitBuffer, NoMemory>
    requires { ascending 0 len indices.now ≡ true }
    ensures { IfOk result (λ b. b ≡ at_front (bits_with len indices.now)) }
{
    let mut bits = BitBuilder::with_capacity(alloc, len)?;
    bits.append_n(false, len)?;
    for index in indices {
        bits.set(*index);
    }
    bits.finish()
}

/// The bits that are set in these runs.
pub(crate) fn bits_of_runs(
    alloc: Global,
    len: usize,
    runs: &[(usize, usize)],
) -> Result<BitBuffer, NoMemory>
    requires { runs_ascend 0 len runs.now ≡ true }
    ensures { IfOk result (λ b. b ≡ at_front (bits_with len (run_positions runs.now))) }
{
    let mut bits = BitBuilder::with_capacity(alloc, len)?;
    let mut at = 0;
    for run in runs {
        bits.append_n(false, run.0 - at)?;
        bits.append_n(true, run.1 - run.0)?;
        at = run.1;
    }
    bits.append_n(false, len - at)?;
    bits.finish()
}
