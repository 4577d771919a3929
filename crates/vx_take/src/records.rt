//! Lists of records of any of the six widths, at picks and in runs.
ghost use Rattle.std.specs.Prelude.{◌≡◌, ◌+◌, ◌≤◌, length, replicate, IfOk};
ghost use Rattle.std.specs.List.{All};
ghost use Rattle.vx_bits.specs.Records.{records_of, width_of};
ghost use Rattle.vx_take.specs.Picks.{at, in_runs};

use crate::picks::Picks;
use crate::slices::{gather, gather_runs};
use std::alloc::Global;
use vx_bits::{Buffer, NoMemory, Records, map_each_record_width};

fn take_buffer<const W: usize>(
    alloc: Global,
    buffer: &Buffer<[u8; W]>,
    picks: &Picks,
) -> Result<Buffer<[u8; W]>, NoMemory>
    requires { picks.now.bound ≤ length buffer.now }
    ensures { IfOk result (λ b. b ≡ at (replicate W 0) buffer.now picks.now.picks) }
{
    Buffer::from_vec(alloc, gather(alloc, buffer.as_slice(), picks, [0; W])?)
}

/// The records at the picks, in order, and zeros at a null. Fails only with `NoMemory`.
pub fn take_records(alloc: Global, records: &Records, picks: &Picks) -> Result<Records, NoMemory>
    requires { picks.now.bound ≤ length (records_of records.now) }
    ensures records { IfOk result (λ r. records_of r
        ≡ at (replicate (width_of records.now) 0) (records_of records.now) picks.now.picks) }
    ensures width { IfOk result (λ r. width_of r ≡ width_of records.now) }
{
    Ok(map_each_record_width!(records, buffer => take_buffer(alloc, buffer, picks)?))
}

fn take_buffer_runs<const W: usize>(
    alloc: Global,
    buffer: &Buffer<[u8; W]>,
    runs: &[(usize, usize)],
) -> Result<Buffer<[u8; W]>, NoMemory>
    requires { All (λ run. run.0 + run.1 ≤ length buffer.now) runs.now }
    ensures { IfOk result (λ b. b ≡ in_runs buffer.now runs.now) }
{
    Buffer::from_vec(alloc, gather_runs(alloc, buffer.as_slice(), runs)?)
}

/// The records in the runs, each its start and its length, one run after another. Fails only with
/// `NoMemory`.
pub fn take_runs(
    alloc: Global,
    records: &Records,
    runs: &[(usize, usize)],
) -> Result<Records, NoMemory>
    requires { All (λ run. run.0 + run.1 ≤ length (records_of records.now)) runs.now }
    ensures records { IfOk result (λ r. records_of r ≡ in_runs (records_of records.now) runs.now) }
    ensures width { IfOk result (λ r. width_of r ≡ width_of records.now) }
{
    Ok(map_each_record_width!(records, buffer => take_buffer_runs(alloc, buffer, runs)?))
}
