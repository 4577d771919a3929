//! Which blocks hold picked rows.
ghost use Rattle.std.specs.Prelude.{◌≡◌, ◌/◌, ◌<◌, ◌≤◌, false, true, IfOk, IfSome, None, length, vec_len, slice_index_or, slice_set, replicate};
ghost use Rattle.vx_file.specs.Touched.{AreMarked, blocks_for, with_mark};

use std::alloc::Global;
use vx_bits::NoMemory;
use vx_take::Picks;

/// For each block of 1024 rows whether it holds a picked one.
pub(crate) fn touched_blocks(alloc: Global, picks: &Picks) -> Result<Vec<bool>, NoMemory>
    ensures { IfOk result (λ v. AreMarked v.items picks.now.picks (blocks_for picks.now.bound)) }
{
    let mut marks = no_marks(alloc, picks.bound().div_ceil(1024))?;
    mark_all(&mut marks, picks);
    Ok(marks)
}

fn no_marks(alloc: Global, count: usize) -> Result<Vec<bool>, NoMemory>
    ensures { IfOk result (λ v. v.items ≡ replicate count false) }
{
    Ok(Vec::from_elem(alloc, false, count)?)
}

fn mark_all(marks: &mut [bool], picks: &Picks)
    requires { marks.old ≡ replicate (blocks_for picks.now.bound) false }
    ensures { AreMarked marks.new picks.now.picks (blocks_for picks.now.bound) }
{
    for i in 0..picks.len() {
        mark(marks, picks.get(i));
    }
}

// Marks the block that holds a row.
#[inline(always)]
fn mark(marks: &mut [bool], pick: Option<usize>)
    requires { IfSome pick (λ p. p / 1024 < length marks.old) }
    ensures { marks.new ≡ with_mark marks.old pick }
{
    if let Some(p) = pick {
        marks[p / 1024] = true;
    }
}
