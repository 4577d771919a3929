//! Runs of rows of the whole, cut into pieces of parts.
ghost use Rattle.std.specs.Prelude.{◌≡◌, ◌+◌, ◌-◌, ◌≤◌, ◌++◌, IfOk, OnOk};
ghost use Rattle.std.specs.List.{All, range_with_len};
ghost use Rattle.vx_take.specs.Picks.{run_places};
ghost use Rattle.vx_cuts.specs.Bounds.{AreBounds, end_of};
ghost use Rattle.vx_cuts.specs.Runs.{IsPieceOf, piece_places, pieces_between, pieces_of_runs};

use crate::bounds::part_of;
use std::alloc::Global;
use vx_bits::NoMemory;

/// Rows of a part that stand one after another.
#[derive(Debug, Clone, Copy, PartialEq, Eq)]
pub struct Piece {
    /// The part.
    pub part: usize,
    /// The first row, counted from the part's own first row.
    pub start: usize,
    /// How many rows.
    pub len: usize,
}

// Appends the pieces of the rows from `start` up to `end`.
fn push_run(
    pieces: &mut Vec<Piece>,
    bounds: &[usize],
    start: usize,
    end: usize,
) -> Result<(), NoMemory>
    requires bounds { AreBounds bounds.now }
    requires ordered { start ≤ end }
    requires within { end ≤ end_of bounds.now }
    requires sound { All (IsPieceOf bounds.now) pieces.old.items }
    ensures pieces { OnOk result
        (pieces.new.items ≡ pieces.old.items ++ pieces_between bounds.now start end) }
    ensures sound { OnOk result (All (IsPieceOf bounds.now) pieces.new.items) }
    ensures places { OnOk result (piece_places bounds.now pieces.new.items
        ≡ piece_places bounds.now pieces.old.items ++ range_with_len start (end - start)) }
{
    let mut at = start;
    while at < end {
        let part = part_of(bounds, at);
        let stop = end.min(bounds[part + 1]);
        pieces.push(Piece {
            part,
            start: at - bounds[part],
            len: stop - at,
        })?;
        at = stop;
    }
    Ok(())
}

/// The pieces of parts that runs of the whole are, each run its start and its length, in the order
/// of the runs: the parts begin and the last one ends at these bounds. A run costs a piece for each
/// part that it has rows of, however many rows these are. Fails only with `NoMemory`.
pub fn cut_runs(
    alloc: Global,
    runs: &[(usize, usize)],
    bounds: &[usize],
) -> Result<Vec<Piece>, NoMemory>
    requires bounds { AreBounds bounds.now }
    requires within { All (λ run. run.0 + run.1 ≤ end_of bounds.now) runs.now }
    ensures pieces { IfOk result
        (λ pieces. pieces.items ≡ pieces_of_runs bounds.now runs.now) }
    ensures sound { IfOk result (λ pieces. All (IsPieceOf bounds.now) pieces.items) }
    ensures places { IfOk result
        (λ pieces. piece_places bounds.now pieces.items ≡ run_places runs.now) }
{
    let mut pieces = Vec::new(alloc);
    for run in runs {
        push_run(&mut pieces, bounds, run.0, run.0 + run.1)?;
    }
    Ok(pieces)
}
