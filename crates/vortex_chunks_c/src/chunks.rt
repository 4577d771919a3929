//! Calls over chunks.
ghost use Rattle.std.specs.Prelude.{◌≡◌, ◌≢◌, ◌==◌, ◌||◌, ◌/◌, if◌then◌else◌, length, nat_le, slice_index};
ghost use Rattle.vortex_chunks_c.specs.Answer.{checked_answer};
ghost use Rattle.vx_chunk_plan.specs.Faults.{first_row, nulls_fault, plan_fault, scatter_fault};
ghost use Rattle.vx_chunk_plan.specs.Filled.{ChunkIsDone, NullsAreDone};
ghost use Rattle.vx_chunk_plan.specs.Picks.{chunks_of, picks_of};
ghost use Rattle.vx_chunk_plan.specs.Plan.{IsPlan};
ghost use Rattle.vx_chunk_plan.specs.Runs.{IsRun};
ghost use Rattle.vx_chunk_plan.specs.Scattered.{AreNulled, AreScattered};

use crate::answer::Answer;
use vx_chunk_plan::{Chunks, count_chunks, fill_nulls, next_run, plan, scatter};

/// Returns how many chunks a column of `len` rows has, in chunks of `chunk_len` rows.
///
/// Status 2: chunks have no rows.
#[unsafe(no_mangle)]
pub extern "C" fn vortex_chunks_count(len: u64, chunk_len: u64) -> Answer
    ensures { result ≡ (if chunk_len == 0 then record { status = 2; value = 0 }
        else record { status = 0; value = chunks_of len chunk_len }) }
{
    Answer::of(count_chunks(Chunks { len, chunk_len }))
}

/// Plans which chunks are to be read for these picks, and which of them lie in each chunk.
///
/// A pick is the number of a row, or a null where its bit of `valid` is clear; without bits none is
/// null. `starts` has one number more than there are chunks, `order` one for each pick. Chunk k is
/// to be read where `starts[k]` is below `starts[k + 1]`. The numbers of its picks, ascending, are
/// `order[starts[k]..starts[k + 1]]`. Returns how many picks aren't null.
///
/// | status | stands for |
/// |---|---|
/// | 0 | the plan is written |
/// | 2 | chunks have no rows |
/// | 3 | `starts` isn't one longer than there are chunks |
/// | 4 | `order` isn't as long as `places` |
/// | 5 | there are bits of validity, and fewer than picks |
/// | 6 | pick `value`, the first such one, is past the rows |
#[unsafe(no_mangle)]
pub extern "C" fn vortex_chunks_plan(
    places: &[u64],
    valid: &[u8],
    len: u64,
    chunk_len: u64,
    starts: &mut [u64],
    order: &mut [u64],
) -> Answer
    ensures planned { result.status ≡ 0 → IsPlan len chunk_len (picks_of places.now valid.now)
        starts.new order.new }
    ensures answer { result ≡ checked_answer (plan_fault places.now valid.now len chunk_len
        (length starts.old) (length order.old))
        (slice_index starts.new (chunks_of len chunk_len)) }
    ensures kept_starts { result.status ≢ 0 → starts.new ≡ starts.old }
    ensures kept_order { result.status ≢ 0 → order.new ≡ order.old }
{
    Answer::of(plan(places, valid, Chunks { len, chunk_len }, starts, order))
}

/// Writes the picked rows of chunk `k` where they belong: row j of `out` for each number j of
/// `order`, which is the chunk's range of a plan. All other bytes of `out` stay as they are.
///
/// `chunk` has the chunk's rows of `width` bytes each, or the rows of a whole chunk where the last
/// one has fewer.
///
/// | status | stands for |
/// |---|---|
/// | 0 | the rows are written |
/// | 1 | a row has no bytes, or more than 2^20 |
/// | 2 | chunks have no rows |
/// | 7 | the column has no chunk of this number |
/// | 8 | the bytes are neither those of the chunk's rows nor those of a whole chunk |
/// | 9 | `out` has no room for a row a pick |
/// | 10 | entry `value` of `order`, the first such one, isn't the number of a pick in the chunk |
#[unsafe(no_mangle)]
pub extern "C" fn vortex_chunks_scatter(
    chunk: &[u8],
    k: u64,
    len: u64,
    chunk_len: u64,
    width: u64,
    places: &[u64],
    order: &[u64],
    out: &mut [u8],
) -> Answer
    ensures scattered { result.status ≡ 0 → AreScattered width (first_row chunk_len k)
        chunk.now places.now order.now (length order.now) out.old out.new }
    ensures done { result.status ≡ 0 → ChunkIsDone width len chunk_len k places.now
        order.now chunk.now out.old out.new }
    ensures answer { result ≡ checked_answer (scatter_fault (length chunk.now) k len chunk_len
        width places.now order.now (length out.old)) 0 }
    ensures kept { result.status ≢ 0 → out.new ≡ out.old }
{
    let column = Chunks { len, chunk_len };
    Answer::of_unit(scatter(chunk, k, column, width, places, order, out))
}

/// Writes zeros to the row of each null among `count` picks. All other bytes of `out` stay as they
/// are.
///
/// | status | stands for |
/// |---|---|
/// | 0 | the zeros are written |
/// | 1 | a row has no bytes, or more than 2^20 |
/// | 5 | there are bits of validity, and fewer than picks |
/// | 9 | `out` has no room for a row a pick |
#[unsafe(no_mangle)]
pub extern "C" fn vortex_chunks_fill_nulls(
    valid: &[u8],
    count: usize,
    width: u64,
    out: &mut [u8],
) -> Answer
    ensures nulled { result.status ≡ 0 → AreNulled width valid.now count out.old out.new }
    ensures done { result.status ≡ 0 → NullsAreDone width valid.now count out.old out.new }
    ensures answer { result ≡ checked_answer (nulls_fault valid.now count width
        (length out.old)) 0 }
    ensures kept { result.status ≢ 0 → out.new ≡ out.old }
{
    Answer::of_unit(fill_nulls(valid, count, width, out))
}

/// Finds the picks from number `from` on that lie in one chunk: status 0, and `value` is the number
/// of the pick after the last of them, whose chunk is that of pick `from`. Status 2: chunks have no
/// rows, or there is no pick `from`.
///
/// For picks of which none is null and whose places ascend this takes the place of a plan.
#[unsafe(no_mangle)]
pub extern "C" fn vortex_chunks_next_run(places: &[u64], chunk_len: u64, from: usize) -> Answer
    ensures run { result.status ≡ 0 → IsRun chunk_len places.now from
        (slice_index places.now from / chunk_len) result.value }
    ensures status { result.status ≡ (if nat_le (length places.now) from || chunk_len == 0 then 2
        else 0) }
    ensures none { result.status ≢ 0 → result.value ≡ 0 }
{
    // A run by itself doesn't say that chunks have rows.
    if chunk_len == 0 {
        return Answer {
            status: 2,
            value: 0,
        };
    }
    match next_run(places, chunk_len, from) {
        Some(run) => Answer {
            status: 0,
            value: run.end as u64,
        },
        None => Answer {
            status: 2,
            value: 0,
        },
    }
}
