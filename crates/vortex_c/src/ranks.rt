//! Ranks in a mask, and counts before a row.
ghost use Rattle.vx_words.specs.Positions.{IsCounted, IsRanked};

use vx_words::{Answer, count_before, rank};

/// The `k`-th set position of a mask of so many rows, from 0.
///
/// 1: `words` are not as many as hold a bit for each row. 2: a bit past the rows is set. 4: not
/// more than `k` bits are set, and the number is how many are.
#[unsafe(no_mangle)]
pub extern "C" fn vortex_rank(words: &[u64], rows: usize, k: usize) -> Answer
    ensures { IsRanked rows words.now k result.status result.value }
{
    rank(words, rows, k)
}

/// How many rows before `p` are selected, by a mask of so many rows.
///
/// 1: `words` are not as many as hold a bit for each row. 2: a bit past the rows is set. 4: `p` is
/// past the rows.
#[unsafe(no_mangle)]
pub extern "C" fn vortex_count_before(words: &[u64], rows: usize, p: usize) -> Answer
    ensures { IsCounted rows words.now p result.status result.value }
{
    count_before(words, rows, p)
}
