//! Picks of rows that stand where none is shown: the first one.
ghost use Rattle.std.specs.Prelude.{◌≡◌, ◌<◌, length, slice_index_or, None, IfOk};
ghost use Rattle.vx_model.specs.Columns.{firsts_for_nulls, or_first};

use std::alloc::Global;
use vx_bits::NoMemory;
use vx_take::Picks;

// The position of pick `i`, or the first one where it is a null.
fn position_or_first(picks: &Picks, i: usize) -> usize
    requires row { i < length picks.now.picks }
    requires rows { 0 < picks.now.bound }
    ensures value { result ≡ or_first (slice_index_or picks.now.picks i None) }
    ensures below { result < picks.now.bound }
{
    match picks.get(i) {
        Some(position) => position,
        None => 0,
    }
}

/// The picks, with the first position in place of each null. Fails only with `NoMemory`.
#[tactic(auto, using(crate::proofs::FirstRows::firsts))]
pub fn firsts_for_nulls(alloc: Global, picks: &Picks) -> Result<Picks, NoMemory>
    requires { 0 < picks.now.bound }
    ensures { IfOk result (λ p. p
        ≡ record { picks = firsts_for_nulls picks.now.picks; bound = picks.now.bound }) }
{
    let mut firsts = Picks::with_capacity(alloc, picks.bound(), picks.len())?;
    for i in 0..picks.len() {
        firsts.push(Some(position_or_first(picks, i)))?;
    }
    Ok(firsts)
}
