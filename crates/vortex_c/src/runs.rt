//! The maximal runs of a mask.
ghost use Rattle.vx_words.specs.Runs.{AreRunsListed};

use vx_words::{Answer, Run, list_runs};

/// Writes the maximal runs of selected rows of a mask of so many to the front of `dst`, ascending:
/// none is empty, and no two touch. The answer is how many they are.
///
/// 1: `words` are not as many as hold a bit for each row. 2: a bit past the rows is set. 3: `dst`
/// is too small, and the number is how many runs there are.
#[unsafe(no_mangle)]
pub extern "C" fn vortex_runs(words: &[u64], rows: usize, dst: &mut [Run]) -> Answer
    ensures { AreRunsListed rows words.now dst.old dst.new result.status result.value }
{
    list_runs(words, rows, dst)
}
