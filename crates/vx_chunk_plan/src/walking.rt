//! Picks that ascend, walked chunk by chunk.
ghost use Rattle.std.specs.Prelude.{◌≡◌, ◌⊎◌, ◌≤◌, IfNone, IfSome, length};
ghost use Rattle.vx_chunk_plan.specs.Runs.{IsRun};

/// The picks of a chunk that follow one another.
#[derive(Debug, Clone, Copy, PartialEq, Eq)]
pub struct Run {
    /// The chunk in which they lie.
    pub chunk: u64,
    /// The number of the pick behind them, or how many picks there are.
    pub end: usize,
}

/// Returns the picks from number `from` on that lie in one chunk, up to the first that lies in
/// another, and `None` where there is no such pick, or chunks have no rows.
///
/// For picks of which none is null and whose places ascend this takes the place of a plan, and its
/// cost is that of the picks, however many chunks there are: walked from 0 on, from each run's end
/// to the next, the runs name each chunk to be read once, and all picks that lie in it. The numbers
/// that `scatter` asks for are then those from `from` up to `end`.
pub fn next_run(places: &[u64], chunk_len: u64, from: usize) -> Option<Run>
    ensures none { IfNone result ((length places.now ≤ from) ⊎ (chunk_len ≡ 0)) }
    ensures run { IfSome result (λ run. IsRun chunk_len places.now from run.chunk run.end) }
{
    if chunk_len == 0 || from >= places.len() {
        return None;
    }
    let chunk = places[from] / chunk_len;
    let mut end = from + 1;
    while end < places.len() && places[end] / chunk_len == chunk {
        end += 1;
    }
    Some(Run { chunk, end })
}
