//! Which words a filter of bits reads.
ghost use Rattle.std.specs.Prelude.{◌≤◌};

use crate::masks::{multiples, runs};
use rows_common::text_of;
use std::alloc::Global;
use std::test::Fail;
use vx_bitfilter::filter_words;
use vx_bits::{BitBuffer, CountedWords, WordReader};

/// Appends a row for 200 bits, of which each fifth is set, by bit 130 alone, with room for four
/// reads of each.
pub(crate) fn add_rows(alloc: Global, rows: &mut Vec<String>) -> Result<(), Fail> {
    let mask = runs(alloc, 0, &[(false, 130), (true, 1), (false, 69)])?;
    rows.push(fifths(alloc, mask)?)?;
    Ok(())
}

fn fifths(alloc: Global, mask: BitBuffer) -> Result<String, Fail> {
    let src = multiples(alloc, 0, 200, 5, true)?;
    let mut src = CountedWords::new(alloc, src, 4)?;
    filtered(alloc, &mut src, mask)
}

fn filtered(alloc: Global, src: &mut CountedWords, mask: BitBuffer) -> Result<String, Fail>
    requires { 4 ≤ src.old.spare }
{
    if src.len() != mask.len() || mask.len() > 256 {
        return Err("another length".into());
    }
    let true_count = mask.true_count();
    let mut mask = CountedWords::new(alloc, mask, 4)?;
    let kept = filter_words(alloc, src, &mut mask, true_count)?;
    row(alloc, &kept, mask.reads(), src.reads())
}

fn row(alloc: Global, kept: &BitBuffer, mask: &[usize], src: &[usize]) -> Result<String, Fail> {
    let text = text_of(alloc, kept)?;
    Ok(format!(in alloc; "200 fifths by 130: {text}, mask reads {mask:?}, source {src:?}")?)
}
