//! Where the rows of a run end, as records of one width.
ghost use Rattle.std.specs.Prelude.{◌≡◌, ◌+◌, ◌-◌, ◌++◌, ◌<◌, ◌^◌, map, slice_index, OnErr, OnOk};
ghost use Rattle.vx_text.specs.OffsetList.{offsets_by, run_ends};

use crate::text_run::TextRun;
use vx_bits::NoMemory;
use vx_offsets::OffsetRecord;

/// Appends where each row of a run ends, if its bytes stand behind `base` others. Fails only with
/// `NoMemory`, and then they are as before.
#[inline(always)]
pub(crate) fn push_ends<R: OffsetRecord, const W: usize>(
    ends: &mut Vec<R>,
    base: usize,
    run: TextRun<'_, W>,
) -> Result<(), NoMemory>
    requires fits { base + (slice_index (offsets_by run.ptype run.records.now) run.rows.1
        - slice_index (offsets_by run.ptype run.records.now) run.rows.0) < R.limit }
    requires sum { base + (slice_index (offsets_by run.ptype run.records.now) run.rows.1
        - slice_index (offsets_by run.ptype run.records.now) run.rows.0) < 2 ^ 64 }
    ensures ok { OnOk result (map R.read ends.new.items ≡ map R.read ends.old.items
        ++ run_ends (offsets_by run.entry.ptype run.entry.records.now) base
        run.entry.rows.0 run.entry.rows.1) }
    ensures err { OnErr result (ends.new.items ≡ ends.old.items) }
{
    ends.reserve(run.rows.1 - run.rows.0)?;
    let (first, _) = run.bounds();
    for row in run.rows.0..run.rows.1 {
        let put = base + run.end_behind(first, row);
        ends.push_reserved(R::written(put as u64));
    }
    Ok(())
}
