//! The set positions of a mask.
ghost use Rattle.vx_words.specs.Positions.{AreListed};

use vx_words::{Answer, list_positions};

/// Writes the set positions of a mask of so many rows to the front of `dst`, ascending. The answer
/// is how many they are.
///
/// 1: `words` are not as many as hold a bit for each row. 2: a bit past the rows is set. 3: `dst`
/// is too small, and the number is how many are set.
#[unsafe(no_mangle)]
pub extern "C" fn vortex_positions(words: &[u64], rows: usize, dst: &mut [u64]) -> Answer
    ensures { AreListed rows words.now dst.old dst.new result.status result.value }
{
    list_positions(words, rows, dst)
}
